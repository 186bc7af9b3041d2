// The indices that control reaches.
ghost use Rattle.std.specs.Prelude.{◌≡◌, ◌<◌, [], IfOk, OnOk, length, map, slice_get};
ghost use Rattle.class_model.specs.declared.op.Case.{Case};
ghost use Rattle.code_edit.specs.Flow.{successors_of, targets};
ghost use Rattle.edit_passes.specs.Found.{entered, found_as, found_in, leads_from, rounds, spread};
ghost use Rattle.edit_passes.specs.Found.{with_all, with_entries, with_one};
ghost use Rattle.edit_tables.specs.Marks.{none};
ghost use Rattle.edit_tables.specs.Places.{counts_from};

use class_model::{Case, Code, Handler, Op};
use edit_tables::flow::goes_elsewhere;
use edit_tables::places::{place_in, places};
use jv_base::{Items, M};
use std::alloc::Global;
use std::marker::Model;

/// Indices that were found.
#[derive(Drop)]
struct Finding {
    /// Of each index, whether it was found.
    marks: Vec<bool>,
    /// Those that were, in their order.
    order: Vec<u32>,
}

impl Model for Finding {
    ghost use Rattle.std.specs.Prelude.{◌<◌, length};
    ghost use Rattle.edit_passes.specs.Found.{Found};

    ghost Value = { Found };

    ghost view = { λ f. record { marks = f.marks.items; order = f.order.items } };

    ghost invariant = { λ f. length f.marks.items < 4294967295 };
}

/// One index more, unless it was found.
fn find(found: &mut Finding, at: u32) -> M<()>
    ensures { OnOk result (found.new ≡ with_one at found.old) }
{
    let index = at as usize;
    if index < found.marks.len() && !found.marks[index] {
        found.marks[index] = true;
        found.order.push(at)?;
    }
    Ok(())
}

fn find_table(found: &mut Finding, cases: &Items<u32>) -> M<()>
    ensures { OnOk result (found.new ≡ with_all cases.now found.old) }
{
    for case in cases.as_slice() {
        find(found, *case)?;
    }
    Ok(())
}

fn find_cases(found: &mut Finding, cases: &Items<Case>) -> M<()>
    ensures { OnOk result (found.new
        ≡ with_all (map (λ (c : Case). c.to) cases.now) found.old) }
{
    for case in cases.as_slice() {
        find(found, case.to)?;
    }
    Ok(())
}

fn find_targets(found: &mut Finding, op: &Op) -> M<()>
    ensures { OnOk result (found.new ≡ with_all (targets op.now) found.old) }
{
    match op {
        Op::IfZero(_, to)
        | Op::IfCmp(_, to)
        | Op::IfRef { to, .. }
        | Op::IfNull { to, .. }
        | Op::Goto(to) => find(found, *to),
        Op::TableSwitch { other, cases, .. } => {
            find(found, *other)?;
            find_table(found, cases)
        }
        Op::LookupSwitch { other, cases } => {
            find(found, *other)?;
            find_cases(found, cases)
        }
        _ => Ok(()),
    }
}

/// The successors of an instruction, in a code of so many.
fn find_successors(found: &mut Finding, count: u32, at: u32, op: &Op) -> M<()>
    requires { at < count }
    ensures { OnOk result (found.new ≡ with_all (successors_of count at op.now) found.old) }
{
    if goes_elsewhere(op) {
        return find_targets(found, op);
    }
    if at + 1 < count {
        find(found, at + 1)?;
    }
    find_targets(found, op)
}

fn find_from(found: &mut Finding, code: &Code, at: u32) -> M<()>
    requires { length code.now.ins < 4294967295 }
    ensures { OnOk result (found.new
        ≡ with_all (leads_from (length code.now.ins) at (slice_get code.now.ins at)) found.old) }
{
    match code.ins.get(at as usize) {
        Some(ins) => find_successors(found, code.ins.len() as u32, at, &ins.op),
        None => Ok(()),
    }
}

/// The index that was found at a number, if so many were.
fn found_at(found: &Finding, number: usize) -> Option<u32>
    ensures { result ≡ slice_get found.now.order number }
{
    match found.order.get(number) {
        Some(at) => Some(*at),
        None => None,
    }
}

/// All to which control goes on from those that were found.
fn spread(found: &mut Finding, code: &Code) -> M<()>
    requires { length code.now.ins < 4294967295 }
    ensures { OnOk result (found.new ≡ spread code.now.ins code.now 0 found.old) }
{
    let mut next = 0;
    for _ in code.ins.as_slice() {
        match found_at(found, next) {
            Some(at) => find_from(found, code, at)?,
            None => return Ok(()),
        }
        next += 1;
    }
    Ok(())
}

fn find_entries(found: &mut Finding, places: &[u32], handlers: &Items<Handler>) -> M<()>
    ensures { OnOk result (found.new ≡ with_entries places.now handlers.now found.old) }
{
    for handler in handlers.as_slice() {
        if place_in(places, handler.from) < place_in(places, handler.to) {
            find(found, handler.entry)?;
        }
    }
    Ok(())
}

fn places_of(alloc: Global, found: &Finding) -> M<Vec<u32>>
    ensures { IfOk result (λ places. places.items ≡ counts_from 0 found.now.marks) }
{
    places(alloc, &found.marks)
}

/// The entries of handlers that cover some that were found.
fn enter(alloc: Global, found: &mut Finding, code: &Code) -> M<()>
    ensures { OnOk result (found.new ≡ entered code.now found.old) }
{
    let places = places_of(alloc, found)?;
    find_entries(found, &places, &code.handlers)
}

fn found_count(found: &Finding) -> usize
    ensures { result ≡ length found.now.order }
{
    found.order.len()
}

/// The one and the other in turn until no entry comes to it.
fn go_round(alloc: Global, found: &mut Finding, code: &Code) -> M<()>
    requires { length code.now.ins < 4294967295 }
    ensures { OnOk result (found.new ≡ rounds code.now.ins code.now found.old) }
{
    for _ in code.ins.as_slice() {
        let before = found_count(found);
        enter(alloc, found, code)?;
        if found_count(found) == before {
            return Ok(());
        }
        spread(found, code)?;
    }
    Ok(())
}

fn nothing_found(alloc: Global, count: usize) -> M<Finding>
    requires { count < 4294967295 }
    ensures { IfOk result (λ found. found ≡ found_as (none count) []) }
{
    Ok(Finding {
        marks: vec![in alloc; false; count]?,
        order: Vec::new(alloc),
    })
}

fn marks_of(found: Finding) -> Vec<bool>
    ensures { result.items ≡ found.marks }
{
    found.marks
}

/// Of each index, whether control reaches it.
pub(crate) fn found_in(alloc: Global, code: &Code) -> M<Vec<bool>>
    requires { length code.now.ins < 4294967295 }
    ensures { IfOk result (λ marks. marks.items ≡ (found_in code.now).marks) }
{
    let mut found = nothing_found(alloc, code.ins.len())?;
    find(&mut found, 0)?;
    spread(&mut found, code)?;
    go_round(alloc, &mut found, code)?;
    Ok(marks_of(found))
}
