// Which ints the acts of const tell, and whether they support a fact.
ghost use Rattle.std.specs.Prelude.{◌≡◌, IfOk};
ghost use Rattle.edit_legal.specs.Decidable.{change_in, const_in, const_op, is_sum, pushed_in};
ghost use Rattle.edit_legal.specs.Decidable.{supports, yields};
ghost use Rattle.edit_legal.specs.ConstTables.{IsKnown};
ghost use Rattle.code_edit.specs.Facts.{is_int};

use class_model::{Code, Kind, Op};
use code_edit::{Act, Change};
use const_facts::{change_of, int_pushed};
use const_tables::facts::{FirstFacts, first_facts, int_at};
use edit_tables::marks::{has, target_marks};
use jv_base::M;
use std::alloc::Global;

/// A code and the acts of const on it, with what tells which act is the first that names a place, and
/// which indices are targets.
#[derive(Drop)]
pub(crate) struct Known<'a> {
    pub(crate) code: &'a Code,
    pub(crate) acts: &'a [Act],
    pub(crate) facts: FirstFacts,
    pub(crate) targets: Vec<bool>,
}

fn is_int(known: Option<i32>, value: i32) -> bool
    ensures { result ≡ is_int known value }
{
    match known {
        Some(int) => int == value,
        None => false,
    }
}

fn is_sum(known: Option<i32>, by: i16, value: i32) -> bool
    ensures { result ≡ is_sum known by value }
{
    match known {
        Some(int) => value == int.wrapping_add(i32::from(by)),
        None => false,
    }
}

/// Whether a local variable holds an int after an instruction that does this to it.
fn yields(known: Option<i32>, value: i32, change: Change) -> bool
    ensures { result ≡ yields known value change }
{
    match change {
        Change::Keeps => is_int(known, value),
        Change::Becomes(stored) => value == stored,
        Change::Adds(by) => is_sum(known, by, value),
        Change::Clobbers => false,
    }
}

/// The int that the instruction directly before an index pushes, where the index isn't marked.
fn pushed_in(code: &Code, targets: &[bool], at: u32) -> Option<i32>
    ensures { result ≡ pushed_in code.now targets.now at }
{
    if at == 0 || has(targets, at as usize) {
        return None;
    }
    match code.ins.get(at as usize - 1) {
        Some(before) => int_pushed(&before.op),
        None => None,
    }
}

/// What the instruction at an index does to the int in a slot.
fn change_in(code: &Code, targets: &[bool], slot: u32, at: u32) -> Change
    ensures { result ≡ change_in code.now targets.now slot at }
{
    match code.ins.get(at as usize) {
        Some(ins) => change_of(&ins.op, pushed_in(code, targets, at), slot),
        None => Change::Keeps,
    }
}

/// What a fact says: a local variable holds an int.
#[derive(Clone, Copy)]
pub(crate) struct Fact {
    pub(crate) slot: u32,
    pub(crate) value: i32,
}

/// Whether it is so behind an index, by the facts of the acts.
pub(crate) fn supports(known: &Known, fact: &Fact, at: u32) -> bool
    ensures { result ≡ supports known.now.code.now known.now.acts.now known.now.facts
        known.now.targets.items fact.now.slot fact.now.value at }
{
    let change = change_in(known.code, &known.targets, fact.slot, at);
    yields(
        int_at(&known.facts, known.acts, fact.slot, at),
        fact.value,
        change,
    )
}

fn const_op(known: &Known, at: u32, op: &Op) -> Option<i32>
    ensures { result ≡ const_op known.now.facts known.now.acts.now at op.now }
{
    match op {
        Op::PushInt(value) => Some(*value),
        Op::Load(Kind::Int, slot) => int_at(&known.facts, known.acts, u32::from(*slot), at),
        _ => None,
    }
}

/// The int that the instruction at an index always pushes, by the facts of the acts.
pub(crate) fn const_in(known: &Known, at: u32) -> Option<i32>
    ensures { result ≡ const_in known.now.code.now known.now.acts.now known.now.facts
        known.now.targets.items at }
{
    match known.code.ins.get(at as usize) {
        Some(ins) => const_op(known, at, &ins.op),
        None => None,
    }
}

/// What acts of const tell of a code.
pub(crate) fn known_of<'a>(alloc: Global, acts: &'a [Act], code: &'a Code) -> M<Known<'a>>
    ensures { IfOk result (IsKnown acts.now code.now) }
{
    Ok(Known {
        code,
        acts,
        facts: first_facts(alloc, acts)?,
        targets: target_marks(alloc, code)?,
    })
}
