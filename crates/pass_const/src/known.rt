// What local variables hold.
ghost use Rattle.std.specs.Prelude.{◌≡◌, ◌<◌, ◌≤◌, true, IfOk, length};
ghost use Rattle.class_model.specs.declared.code.Code.{Code as AnyCode};
ghost use Rattle.code_edit.specs.ConstEdits.{known_at, known_of};
ghost use Rattle.code_edit.specs.Facts.{IsAllReached, IsLargest, int_in};
ghost use Rattle.code_edit.specs.SoundCode.{IsSound};
ghost use Rattle.const_facts.specs.Marked.{AreMarks};
ghost use Rattle.pass_const.specs.Known.{KnowsSlots, known_in};

use class_model::{Code, Kind, Op};
use const_facts::facts_of_slot;
use jv_base::{Items, M};
use std::alloc::Global;

/// What an asked local variable holds before each instruction, and an empty list of another one.
fn known_slot(
    alloc: Global,
    code: &Code,
    marks: &[bool],
    is_asked: bool,
    slot: u32,
) -> M<Items<Option<i32>>>
    requires sound { IsSound code.now }
    requires few { length code.now.ins < 4294967295 }
    requires reached { IsAllReached code.now }
    requires marks { AreMarks code.now marks.now }
    ensures largest { IfOk result (λ known. is_asked ≡ true → IsLargest code.now slot known) }
    ensures few { IfOk result (λ known. length known ≤ length code.now.ins) }
{
    if !is_asked {
        return Ok(Items::new(alloc));
    }
    let known = facts_of_slot(alloc, code, marks, slot)?;
    Ok(Items::from_vec(known))
}

/// What each asked local variable holds, and an empty list for each other.
pub(crate) fn known_slots(
    alloc: Global,
    code: &Code,
    marks: &[bool],
    asked: &[bool],
) -> M<Vec<Items<Option<i32>>>>
    requires sound { IsSound code.now }
    requires few { length code.now.ins < 4294967295 }
    requires reached { IsAllReached code.now }
    requires marks { AreMarks code.now marks.now }
    requires slots { length asked.now ≤ 65536 }
    ensures { IfOk result (λ lists. KnowsSlots code.now asked.now (length asked.now) lists.items) }
{
    let mut lists = Vec::with_capacity(alloc, asked.len())?;
    let mut slot = 0;
    for is_asked in asked {
        let known = known_slot(alloc, code, marks, *is_asked, slot)?;
        lists.push(known)?;
        slot += 1;
    }
    Ok(lists)
}

fn int_in(known: &Items<Option<i32>>, at: usize) -> Option<i32>
    ensures { result ≡ int_in known.now at }
{
    match known.as_slice().get(at) {
        Some(int) => *int,
        None => None,
    }
}

/// The int that a local variable holds before an instruction.
fn held_at(lists: &[Items<Option<i32>>], slot: u16, at: usize) -> Option<i32>
    ensures { result ≡ int_in (known_in lists.now slot) at }
{
    match lists.get(usize::from(slot)) {
        Some(known) => int_in(known, at),
        None => None,
    }
}

fn known_of(lists: &[Items<Option<i32>>], at: usize, op: &Op) -> Option<i32>
    ensures { (code : AnyCode) → result ≡ known_of (known_in lists.now) code at op.now }
{
    match op {
        Op::PushInt(value) => Some(*value),
        Op::Load(Kind::Int, slot) => held_at(lists, *slot, at),
        _ => None,
    }
}

/// The int that the instruction at an index always pushes.
pub(crate) fn known_at(lists: &[Items<Option<i32>>], code: &Code, at: usize) -> Option<i32>
    ensures { result ≡ known_at (known_in lists.now) code.now at }
{
    match code.ins.get(at) {
        Some(ins) => known_of(lists, at, &ins.op),
        None => None,
    }
}
