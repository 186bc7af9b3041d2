// What instructions and handlers name, marked.
ghost use Rattle.std.specs.Prelude.{◌≡◌, [], IfOk};
ghost use Rattle.edit_tables.specs.Loads.{loaded_by, loads_of, slot_count, slot_end};
ghost use Rattle.edit_tables.specs.Marks.{marked};
ghost use Rattle.edit_tables.specs.Spread.{entered, spread};

use crate::marks::put;
use crate::places::place_in;
use class_model::{Code, Handler, Ins, Op};
use jv_base::{Items, M};
use std::alloc::Global;

/// Marks the entries of the handlers that cover something that lives.
pub fn mark_entered(marks: Vec<bool>, places: &[u32], handlers: &Items<Handler>) -> Vec<bool>
    ensures { result.items ≡ entered places.now handlers.now marks.items }
{
    let mut marks = marks;
    for handler in handlers.as_slice() {
        if place_in(places, handler.from) < place_in(places, handler.to) {
            marks = put(marks, handler.entry);
        }
    }
    marks
}

/// The local variable that an operation names, and one more.
fn slot_end(op: &Op) -> usize
    ensures { result ≡ slot_end op.now }
{
    match op {
        Op::Load(_, slot) | Op::Store(_, slot) | Op::Inc(slot, _) => *slot as usize + 1,
        _ => 0,
    }
}

/// One more than any local variable that is named.
pub fn slot_count(ins: &Items<Ins>) -> usize
    ensures { result ≡ slot_count ins.now }
{
    let mut count = 0;
    for ins in ins.as_slice() {
        count = slot_end(&ins.op).max(count);
    }
    count
}

fn mark_load(marks: Vec<bool>, at: usize, ins: &Ins) -> Vec<bool>
    ensures { result.items ≡ marked (loaded_by at ins.now) marks.items }
{
    match ins.op {
        Op::Load(_, slot) => put(marks, u32::from(slot)),
        _ => marks,
    }
}

fn mark_loads(marks: Vec<bool>, ins: &Items<Ins>) -> Vec<bool>
    ensures { result.items ≡ spread loaded_by [] 0 ins.now marks.items }
{
    let mut marks = marks;
    let mut at = 0;
    for ins in ins.as_slice() {
        marks = mark_load(marks, at, ins);
        at += 1;
    }
    marks
}

/// The local variables that the code loads.
pub fn loads_of(alloc: Global, code: &Code) -> M<Vec<bool>>
    ensures { IfOk result (λ marks. marks.items ≡ loads_of code.now) }
{
    let marks = vec![in alloc; false; slot_count(&code.ins)]?;
    Ok(mark_loads(marks, &code.ins))
}
