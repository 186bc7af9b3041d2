// The local variables from which operands are loaded.
ghost use Rattle.std.specs.Prelude.{◌≡◌, ◌≤◌, IfOk, length, map, max, slice_get};
ghost use Rattle.class_model.specs.declared.code.Ins.{Ins};
ghost use Rattle.code_edit.specs.Deciding.{operands};
ghost use Rattle.edit_tables.specs.Loads.{slot_count, slot_end};
ghost use Rattle.edit_tables.specs.Marks.{marked};
ghost use Rattle.edit_tables.specs.Spread.{spread};
ghost use Rattle.pass_const.specs.Taking.{asked_marks, asks, count_marks, listed, load_by, load_of};
ghost use Rattle.pass_const.specs.Taking.{second_of, slot_marks, takes_from};

use class_model::{Code, Ins, Kind, Op};
use edit_tables::marks::put;
use edit_tables::places::lives_in;
use jv_base::{Items, M};
use std::alloc::Global;

/// The local variable that an instruction loads an int from.
fn load_at(code: &Code, at: usize) -> Option<u16>
    ensures { result ≡ load_by (slice_get code.now.ins at) }
{
    match code.ins.get(at) {
        Some(ins) => load_of(&ins.op),
        None => None,
    }
}

fn load_of(op: &Op) -> Option<u16>
    ensures { result ≡ load_of op.now }
{
    match op {
        Op::Load(Kind::Int, slot) => Some(*slot),
        _ => None,
    }
}

fn mark_slot(marks: Vec<bool>, slot: Option<u16>) -> Vec<bool>
    ensures { result.items ≡ marked (listed slot) marks.items }
{
    match slot {
        Some(slot) => put(marks, u32::from(slot)),
        None => marks,
    }
}

fn mark_second(marks: Vec<bool>, op: &Op, slot: Option<u16>) -> Vec<bool>
    ensures { result.items ≡ marked (second_of (operands op.now) slot) marks.items }
{
    match op {
        Op::IfCmp(..) => mark_slot(marks, slot),
        _ => marks,
    }
}

/// Marks the local variables from which the instructions directly before load operands.
fn mark_taken(marks: Vec<bool>, code: &Code, at: usize, ins: &Ins) -> Vec<bool>
    ensures { result.items ≡ marked (takes_from code.now at ins.now) marks.items }
{
    let first = mark_slot(marks, load_at(code, at.saturating_sub(1)));
    mark_second(first, &ins.op, load_at(code, at.saturating_sub(2)))
}

fn mark_chosen(marks: Vec<bool>, code: &Code, chosen: &[bool]) -> Vec<bool>
    ensures { result.items ≡ spread (takes_from code.now) chosen.now 0 code.now.ins marks.items }
{
    let mut marks = marks;
    let mut at = 0;
    for ins in code.ins.as_slice() {
        if lives_in(chosen, at) {
            marks = mark_taken(marks, code, at, ins);
        }
        at += 1;
    }
    marks
}

fn slot_end(op: &Op) -> usize
    ensures is { result ≡ slot_end op.now }
    ensures bound { result ≤ 65536 }
{
    match op {
        Op::Load(_, slot) | Op::Store(_, slot) | Op::Inc(slot, _) => usize::from(*slot) + 1,
        _ => 0,
    }
}

/// One more than any local variable that is named.
fn slot_count(ins: &Items<Ins>) -> usize
    ensures is { result ≡ slot_count ins.now }
    ensures bound { result ≤ 65536 }
{
    let mut count = 0;
    for ins in ins.as_slice() {
        count = slot_end(&ins.op).max(count);
    }
    count
}

/// The local variables from which the chosen instructions take operands, as marks.
pub(crate) fn slot_marks(alloc: Global, code: &Code, chosen: &[bool]) -> M<Vec<bool>>
    ensures is { IfOk result (λ marks. marks.items ≡ slot_marks code.now chosen.now) }
    ensures bound { IfOk result (λ marks. length marks.items ≤ 65536) }
{
    let marks = vec![in alloc; false; slot_count(&code.ins)]?;
    Ok(mark_chosen(marks, code, chosen))
}

fn asks(op: &Op) -> bool
    ensures { result ≡ asks op.now }
{
    matches!(
        op,
        Op::IfZero(..) | Op::IfCmp(..) | Op::TableSwitch { .. } | Op::LookupSwitch { .. }
    )
}

fn asking(alloc: Global, code: &Code) -> M<Vec<bool>>
    ensures { IfOk result (λ marks. marks.items ≡ map (λ (i : Ins). asks i.op) code.now.ins) }
{
    let mut marks = Vec::with_capacity(alloc, code.ins.len())?;
    for ins in code.ins.as_slice() {
        marks.push(asks(&ins.op))?;
    }
    Ok(marks)
}

/// The local variables from which int branches and switches take operands, as marks.
pub(crate) fn asked_marks(alloc: Global, code: &Code) -> M<Vec<bool>>
    ensures is { IfOk result (λ marks. marks.items ≡ asked_marks code.now) }
    ensures bound { IfOk result (λ marks. length marks.items ≤ 65536) }
{
    let chosen = asking(alloc, code)?;
    let marks = slot_marks(alloc, code, &chosen)?;
    Ok(marks)
}

/// How many are marked.
pub(crate) fn count_marks(marks: &[bool]) -> usize
    ensures is { result ≡ count_marks marks.now }
    ensures bound { result ≤ length marks.now }
{
    let mut count = 0;
    for mark in marks {
        if *mark {
            count += 1;
        }
    }
    count
}
