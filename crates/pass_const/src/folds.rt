// The branches and switches that are folded.
ghost use Rattle.std.specs.Prelude.{◌≡◌, ◌<◌, ◌≤◌, ◌++◌, IfOk, OnOk, length, map};
ghost use Rattle.std.specs.Option.{is_some};
ghost use Rattle.class_model.specs.declared.code.Ins.{Ins};
ghost use Rattle.code_edit.specs.ConstEdits.{fold_target, one_at, target_by, two_at};
ghost use Rattle.code_edit.specs.Deciding.{operands};
ghost use Rattle.code_edit.specs.Rewriting.{map_from};
ghost use Rattle.const_facts.specs.Marked.{AreMarks};
ghost use Rattle.pass_const.specs.Folding.{act_of, acts_to};
ghost use Rattle.pass_const.specs.Known.{known_in};
ghost use Rattle.pass_const.specs.Taking.{slot_marks};

use crate::known::known_at;
use crate::slots::slot_marks;
use class_model::{Code, Op};
use code_edit::Act;
use const_facts::is_marked;
use const_tables::deciding::{led_by_one, led_by_two};
use jv_base::{Items, M};
use std::alloc::Global;

/// Where a branch or switch on one operand leads, if that is known and it is no target.
fn one_at(
    lists: &[Items<Option<i32>>],
    code: &Code,
    marks: &[bool],
    at: u32,
    op: &Op,
) -> Option<u32>
    requires marks { AreMarks code.now marks.now }
    requires few { length code.now.ins < 4294967295 }
    requires instruction { at < length code.now.ins }
    ensures { result ≡ one_at (known_in lists.now) code.now at op.now }
{
    if at < 1 || is_marked(code, marks, at) {
        return None;
    }
    led_by_one(op, known_at(lists, code, at as usize - 1), at)
}

/// Where a branch on two operands leads, if both are known and neither it nor the second one is a
/// target.
fn two_at(
    lists: &[Items<Option<i32>>],
    code: &Code,
    marks: &[bool],
    at: u32,
    op: &Op,
) -> Option<u32>
    requires marks { AreMarks code.now marks.now }
    requires few { length code.now.ins < 4294967295 }
    requires instruction { at < length code.now.ins }
    ensures { result ≡ two_at (known_in lists.now) code.now at op.now }
{
    if at < 2 || is_marked(code, marks, at) || is_marked(code, marks, at - 1) {
        return None;
    }
    let first = known_at(lists, code, at as usize - 2);
    let second = known_at(lists, code, at as usize - 1);
    led_by_two(op, first, second, at)
}

fn target_by(
    lists: &[Items<Option<i32>>],
    code: &Code,
    marks: &[bool],
    at: u32,
    op: &Op,
) -> Option<u32>
    requires marks { AreMarks code.now marks.now }
    requires few { length code.now.ins < 4294967295 }
    requires instruction { at < length code.now.ins }
    ensures { result ≡ target_by (known_in lists.now) code.now (operands op.now) at op.now }
{
    match op {
        Op::IfZero(..) | Op::TableSwitch { .. } | Op::LookupSwitch { .. } => {
            one_at(lists, code, marks, at, op)
        }
        Op::IfCmp(..) => two_at(lists, code, marks, at, op),
        _ => None,
    }
}

/// Where the branch or switch at an index leads, if it is folded.
fn fold_target(lists: &[Items<Option<i32>>], code: &Code, marks: &[bool], at: u32) -> Option<u32>
    requires marks { AreMarks code.now marks.now }
    requires few { length code.now.ins < 4294967295 }
    requires instruction { at < length code.now.ins }
    ensures { result ≡ fold_target (known_in lists.now) code.now at }
{
    target_by(lists, code, marks, at, &code.ins[at as usize].op)
}

/// For each instruction where it leads, if it is folded.
pub(crate) fn fold_targets(
    alloc: Global,
    code: &Code,
    marks: &[bool],
    lists: &[Items<Option<i32>>],
) -> M<Vec<Option<u32>>>
    requires marks { AreMarks code.now marks.now }
    requires few { length code.now.ins < 4294967295 }
    ensures { IfOk result (λ targets. targets.items
        ≡ map_from (λ at (i : Ins). fold_target (known_in lists.now) code.now at) 0 code.now.ins) }
{
    let mut targets = Vec::with_capacity(alloc, code.ins.len())?;
    let mut at = 0;
    for _ in code.ins.as_slice() {
        targets.push(fold_target(lists, code, marks, at))?;
        at += 1;
    }
    Ok(targets)
}

fn folded(alloc: Global, targets: &[Option<u32>]) -> M<Vec<bool>>
    ensures { IfOk result (λ folded. folded.items ≡ map is_some targets.now) }
{
    let mut folded = Vec::with_capacity(alloc, targets.len())?;
    for target in targets {
        folded.push(target.is_some())?;
    }
    Ok(folded)
}

/// The local variables from which those that are folded take operands, as marks.
pub(crate) fn taken_marks(alloc: Global, code: &Code, targets: &[Option<u32>]) -> M<Vec<bool>>
    ensures is { IfOk result (λ marks. marks.items
        ≡ slot_marks code.now (map is_some targets.now)) }
    ensures bound { IfOk result (λ marks. length marks.items ≤ 65536) }
{
    let chosen = folded(alloc, targets)?;
    let marks = slot_marks(alloc, code, &chosen)?;
    Ok(marks)
}

fn push_fold(at: u32, target: Option<u32>, acts: &mut Vec<Act>) -> M<()>
    ensures { OnOk result (acts.new.items ≡ acts.old.items ++ act_of at target) }
{
    if let Some(to) = target {
        acts.push(Act::Fold { at, to })?;
    }
    Ok(())
}

/// Appends the folds.
pub(crate) fn push_folds(targets: &[Option<u32>], acts: &mut Vec<Act>) -> M<()>
    requires { length targets.now < 4294967295 }
    ensures { OnOk result
        (acts.new.items ≡ acts.old.items ++ acts_to targets.now (length targets.now)) }
{
    let mut at = 0;
    for target in targets {
        push_fold(at, *target, acts)?;
        at += 1;
    }
    Ok(())
}
