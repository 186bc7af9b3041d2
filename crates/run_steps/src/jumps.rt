// Going to another instruction (JVMS 6.5.if_cond, 6.5.goto, 6.5.tableswitch, 6.5.lookupswitch and the like).
ghost use Rattle.class_model.specs.declared.op.Op.{Op};
ghost use Rattle.class_model.specs.declared.op.Op.TheVariants as op;
ghost use Rattle.jvm_model.specs.Instructions.{case_target, sort_of, table_target};
ghost use Rattle.jvm_model.specs.Local.{by_sort};
ghost use Rattle.run_steps.specs.Frames.{body_of};
ghost use Rattle.run_steps.specs.bodies.Distance.{IsDistance};
ghost use Rattle.run_steps.specs.Outcomes.{Does};
ghost use Rattle.std.specs.Bool.{beq};
ghost use Rattle.std.specs.Option.{unwrap_or};
ghost use Rattle.std.specs.Prelude.{◌≡◌, ◌-◌, ◌-ℤ◌, ◌<◌, ◌^◌, slice_get};

use crate::{Body, Outcome};
use class_model::{Case, Cond, Kind};
use run_values::numbers::holds;

/// To the target where an int compares so with 0 (JVMS 6.5.if_cond).
pub(crate) fn jump_if_zero(body: &mut Body, condition: Cond, target: u32) -> Outcome<'static>
    requires { body.old.at < 2 ^ 64 - 1 }
    ensures { Does result body.old body.new (by_sort (body_of body.old) (sort_of (op.IfZero condition target))) }
{
    let Some(number) = body.stack.pop_int() else {
        return Outcome::Stuck;
    };
    body.go_if(holds(condition, number, 0), target);
    Outcome::Moves
}

/// To the target where two ints compare so (JVMS 6.5.if_icmp_cond).
pub(crate) fn jump_if_ints(body: &mut Body, condition: Cond, target: u32) -> Outcome<'static>
    requires { body.old.at < 2 ^ 64 - 1 }
    ensures { Does result body.old body.new (by_sort (body_of body.old) (sort_of (op.IfCmp condition target))) }
{
    let Some(right) = body.stack.pop_int() else {
        return Outcome::Stuck;
    };
    let Some(left) = body.stack.pop_int() else {
        return Outcome::Stuck;
    };
    body.go_if(holds(condition, left, right), target);
    Outcome::Moves
}

/// To the target where two references are equal, or aren't (JVMS 6.5.if_acmp_cond).
pub(crate) fn jump_if_references(body: &mut Body, equal: bool, target: u32) -> Outcome<'static>
    requires { body.old.at < 2 ^ 64 - 1 }
    ensures { Does result body.old body.new (by_sort (body_of body.old) (sort_of (op.IfRef equal target))) }
{
    let Some(right) = body.stack.pop_kind(Kind::Ref) else {
        return Outcome::Stuck;
    };
    let Some(left) = body.stack.pop_kind(Kind::Ref) else {
        return Outcome::Stuck;
    };
    body.go_if(is_equal(equal, left.is_same_reference(&right)), target);
    Outcome::Moves
}

/// To the target where a reference is null, or isn't (JVMS 6.5.ifnull, 6.5.ifnonnull).
pub(crate) fn jump_if_null(body: &mut Body, null: bool, target: u32) -> Outcome<'static>
    requires { body.old.at < 2 ^ 64 - 1 }
    ensures { Does result body.old body.new (by_sort (body_of body.old) (sort_of (op.IfNull null target))) }
{
    let Some(value) = body.stack.pop_kind(Kind::Ref) else {
        return Outcome::Stuck;
    };
    body.go_if(is_equal(null, value.is_null()), target);
    Outcome::Moves
}

fn is_equal(left: bool, right: bool) -> bool
    ensures { result ≡ beq left right }
{
    if left { right } else { !right }
}

/// To the target (JVMS 6.5.goto).
pub(crate) fn jump(body: &mut Body, target: u32) -> Outcome<'static>
    ensures { Does result body.old body.new (by_sort (body_of body.old) (sort_of (op.Goto target))) }
{
    body.at = target as usize;
    Outcome::Moves
}

/// To the target of an int among ascending ones (JVMS 6.5.tableswitch).
pub(crate) fn jump_by_table(
    body: &mut Body,
    low: i32,
    other: u32,
    targets: &[u32],
) -> Outcome<'static>
    ensures { Does result body.old body.new (by_sort (body_of body.old) (sort_of
        (op.TableSwitch low other targets.now))) }
{
    let Some(key) = body.stack.pop_int() else {
        return Outcome::Stuck;
    };
    body.at = table_target(low, other, targets, key) as usize;
    Outcome::Moves
}

fn table_target(low: i32, other: u32, targets: &[u32], key: i32) -> u32
    ensures { result ≡ unwrap_or (table_target targets.now (key -ℤ low)) other }
{
    match distance(low, key) {
        Some(index) => target_or(targets, index, other),
        None => other,
    }
}

/// The target with an index, or another one where there is none.
fn target_or(targets: &[u32], index: usize, other: u32) -> u32
    ensures { result ≡ unwrap_or (slice_get targets.now index) other }
{
    match targets.get(index) {
        Some(target) => *target,
        None => other,
    }
}

/// How far an int is from another one, unless it is below it.
fn distance(low: i32, key: i32) -> Option<usize>
    ensures { IsDistance result (key -ℤ low) }
{
    let distance = i64::from(key) - i64::from(low);
    if distance < 0 {
        return None;
    }
    Some(distance.unsigned_abs() as usize)
}

/// To the target of the case with an int (JVMS 6.5.lookupswitch).
pub(crate) fn jump_by_cases(body: &mut Body, other: u32, cases: &[Case]) -> Outcome<'static>
    ensures { Does result body.old body.new (by_sort (body_of body.old) (sort_of (op.LookupSwitch other cases.now))) }
{
    let Some(key) = body.stack.pop_int() else {
        return Outcome::Stuck;
    };
    body.at = case_target(other, cases, key) as usize;
    Outcome::Moves
}

fn case_target(other: u32, cases: &[Case], key: i32) -> u32
    ensures { result ≡ unwrap_or (case_target cases.now key) other }
{
    for case in cases {
        if case.key == key {
            return case.to;
        }
    }
    other
}
