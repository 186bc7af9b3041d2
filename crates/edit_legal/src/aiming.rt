// Where control still goes after acts of jumps, and chains of gotos.
ghost use Rattle.std.specs.Prelude.{◌≡◌, ◌<◌, IfOk, length, map, slice_get};
ghost use Rattle.class_model.specs.declared.op.Case.{Case};
ghost use Rattle.code_edit.specs.Flow.{targets};
ghost use Rattle.code_edit.specs.Rewriting.{map_from, retargeted};
ghost use Rattle.edit_legal.specs.Movable.{end_from, follows, follows_from, goto_of, still_aimed};
ghost use Rattle.edit_legal.specs.Movable.{target_at, targets_after};
ghost use Rattle.edit_tables.specs.Spread.{spread};
ghost use Rattle.edit_tables.specs.Aimed.{aimed};
ghost use Rattle.edit_tables.specs.Marks.{marked};

use class_model::{Case, Code, Ins, Op};
use edit_tables::aims::{Aims, aimed};
use edit_tables::flow::target;
use edit_tables::marks::{has, mark_targets, put};
use edit_tables::places::{lives_in, places};
use edit_tables::spreading::mark_entered;
use jv_base::{Items, M};
use std::alloc::Global;

// ---- chains of gotos

/// Where the goto of an index leads, if there is one.
fn goto_of(code: &Code, at: u32) -> Option<u32>
    ensures { result ≡ goto_of (slice_get code.now.ins at) }
{
    match code.ins.get(at as usize) {
        Some(ins) => match ins.op {
            Op::Goto(to) => Some(to),
            _ => None,
        },
        None => None,
    }
}

/// Whether one or more gotos lead from one index to another. There are no more gotos on the way
/// than instructions in the code.
fn follows(code: &Code, from: u32, to: u32) -> bool
    ensures { result ≡ follows code.now.ins code.now from to }
{
    let mut at = from;
    for _ in code.ins.as_slice() {
        match goto_of(code, at) {
            Some(next) => {
                if next == to {
                    return true;
                }
                at = next;
            }
            None => return false,
        }
    }
    false
}

fn target_at(code: &Code, at: usize, which: usize) -> Option<u32>
    ensures { result ≡ target_at (slice_get code.now.ins at) which }
{
    match code.ins.get(at) {
        Some(ins) => target(&ins.op, which),
        None => None,
    }
}

/// Whether one or more gotos lead from a target of an index to another one.
pub(crate) fn follows_from(code: &Code, at: usize, which: usize, to: u32) -> bool
    ensures { result
        ≡ follows_from code.now (target_at (slice_get code.now.ins at) which) to }
{
    match target_at(code, at, which) {
        Some(old) => follows(code, old, to),
        None => false,
    }
}

// ---- what is still led to

/// One more than the last index that is marked.
pub(crate) fn end_of(marks: &[bool]) -> usize
    ensures { result ≡ end_from 0 0 marks.now }
{
    let mut end = 0;
    let mut at = 0;
    for mark in marks {
        if *mark {
            end = at + 1;
        }
        at += 1;
    }
    end
}

fn mark_table(marks: Vec<bool>, aims: &Aims, at: usize, cases: &Items<u32>) -> Vec<bool>
    ensures { result.items ≡ marked (map_from (aimed aims.now at) 1 cases.now) marks.items }
{
    let mut marks = marks;
    let mut which = 1;
    for case in cases.as_slice() {
        marks = put(marks, aimed(aims, at, which, *case));
        which += 1;
    }
    marks
}

fn mark_cases(marks: Vec<bool>, aims: &Aims, at: usize, cases: &Items<Case>) -> Vec<bool>
    ensures { result.items
        ≡ marked (map (λ (c : Case). c.to)
        (map_from (λ k (c : Case). record c { to = aimed aims.now at k c.to }) 1 cases.now))
        marks.items }
{
    let mut marks = marks;
    let mut which = 1;
    for case in cases.as_slice() {
        marks = put(marks, aimed(aims, at, which, case.to));
        which += 1;
    }
    marks
}

/// Marks where aims lead the targets of an instruction.
fn mark_aimed(marks: Vec<bool>, aims: &Aims, at: usize, op: &Op) -> Vec<bool>
    ensures { result.items ≡ marked (targets (retargeted (aimed aims.now at) op.now)) marks.items }
{
    match op {
        Op::IfZero(_, to)
        | Op::IfCmp(_, to)
        | Op::IfRef { to, .. }
        | Op::IfNull { to, .. }
        | Op::Goto(to) => put(marks, aimed(aims, at, 0, *to)),
        Op::TableSwitch { other, cases, .. } => {
            mark_table(put(marks, aimed(aims, at, 0, *other)), aims, at, cases)
        }
        Op::LookupSwitch { other, cases } => {
            mark_cases(put(marks, aimed(aims, at, 0, *other)), aims, at, cases)
        }
        _ => marks,
    }
}

/// Marks the targets of an instruction after the acts. One that is skipped has none, but for a
/// switch, which no act may skip.
fn mark_after(marks: Vec<bool>, aims: &Aims, skips: &[bool], at: usize, ins: &Ins) -> Vec<bool>
    ensures { result.items ≡ marked (targets_after aims.now skips.now at ins.now) marks.items }
{
    if !has(skips, at) {
        return mark_aimed(marks, aims, at, &ins.op);
    }
    match ins.op {
        Op::Goto(_) | Op::IfZero(..) | Op::IfCmp(..) | Op::IfRef { .. } | Op::IfNull { .. } =>
            marks,
        _ => mark_targets(marks, &ins.op),
    }
}

fn mark_all_after(
    marks: Vec<bool>,
    aims: &Aims,
    skips: &[bool],
    lives: &[bool],
    ins: &Items<Ins>,
) -> Vec<bool>
    ensures { result.items ≡ spread (targets_after aims.now skips.now) lives.now 0 ins.now
        marks.items }
{
    let mut marks = marks;
    let mut at = 0;
    for ins in ins.as_slice() {
        if lives_in(lives, at) {
            marks = mark_after(marks, aims, skips, at, ins);
        }
        at += 1;
    }
    marks
}

/// The indices to which what lives still leads after the acts.
pub(crate) fn still_aimed(
    alloc: Global,
    aims: &Aims,
    skips: &[bool],
    lives: &[bool],
    code: &Code,
) -> M<Vec<bool>>
    requires { length lives.now < 4294967295 }
    ensures { IfOk result (λ marks. marks.items
        ≡ still_aimed aims.now skips.now lives.now code.now) }
{
    let places = places(alloc, lives)?;
    let marks = vec![in alloc; false; code.ins.len()]?;
    let marks = mark_all_after(marks, aims, skips, lives, &code.ins);
    Ok(mark_entered(marks, &places, &code.handlers))
}
