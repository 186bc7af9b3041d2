// What an instruction does to the int in a slot.
ghost use Rattle.std.specs.Prelude.{◌≡◌, ◌<◌, length};
ghost use Rattle.code_edit.specs.Facts.{change_at, change_of, int_pushed, pushed_before, stored};
ghost use Rattle.code_edit.specs.Flow.{is_target};
ghost use Rattle.const_facts.specs.Marked.{AreMarks};

use class_model::{Code, Kind, Op};
use code_edit::Change;

/// What the instruction at an index does to the int in the slot of a local variable. The marks are
/// those of the targets.
pub fn change_at(code: &Code, marks: &[bool], slot: u32, at: u32) -> Change
    requires marks { AreMarks code.now marks.now }
    requires instruction { at < length code.now.ins }
    ensures { result ≡ change_at code.now slot at }
{
    let pushed = pushed_before(code, marks, at);
    change_of(&code.ins[at as usize].op, pushed, slot)
}

/// What an operation does to the int in a slot, where this int was pushed directly before, if one
/// was.
pub fn change_of(op: &Op, pushed: Option<i32>, slot: u32) -> Change
    ensures { result ≡ change_of op.now pushed slot }
{
    match op {
        Op::Store(Kind::Int, to) if u32::from(*to) == slot => stored(pushed),
        Op::Store(_, to) if u32::from(*to) == slot => Change::Clobbers,
        Op::Store(Kind::Long, to) if u32::from(*to) + 1 == slot => Change::Clobbers,
        Op::Inc(to, by) if u32::from(*to) == slot => Change::Adds(*by),
        _ => Change::Keeps,
    }
}

fn stored(pushed: Option<i32>) -> Change
    ensures { result ≡ stored pushed }
{
    match pushed {
        Some(value) => Change::Becomes(value),
        None => Change::Clobbers,
    }
}

/// The int that the instruction directly before pushes, where the index is no target.
fn pushed_before(code: &Code, marks: &[bool], at: u32) -> Option<i32>
    requires marks { AreMarks code.now marks.now }
    requires instruction { at < length code.now.ins }
    ensures { result ≡ pushed_before code.now at }
{
    if at == 0 || is_marked(code, marks, at) {
        return None;
    }
    match code.ins.get(at as usize - 1) {
        Some(before) => int_pushed(&before.op),
        None => None,
    }
}

/// Whether an index is a target, told by marks on targets.
pub fn is_marked(code: &Code, marks: &[bool], at: u32) -> bool
    requires marks { AreMarks code.now marks.now }
    requires instruction { at < length code.now.ins }
    ensures { result ≡ is_target code.now at }
{
    match marks.get(at as usize) {
        Some(mark) => *mark,
        None => false,
    }
}

/// The int that an instruction pushes.
pub fn int_pushed(op: &Op) -> Option<i32>
    ensures { result ≡ int_pushed op.now }
{
    match op {
        Op::PushInt(value) => Some(*value),
        _ => None,
    }
}
