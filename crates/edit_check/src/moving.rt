// Instructions whose targets move.
ghost use Rattle.std.specs.Prelude.{◌≡◌, IfOk};
ghost use Rattle.code_edit.specs.Rewriting.{map_from, retargeted};
ghost use Rattle.edit_check.specs.Tables.{moved_case, target_to};

use crate::copying::copied_op;
use class_model::{Case, Op};
use edit_tables::aims::{Aims, aimed};
use edit_tables::places::place_in;
use jv_base::{Items, M, Shared};
use std::alloc::Global;

/// Where a target of an index leads, and then comes to stand.
fn target_to(aims: &Aims, places: &[u32], at: usize, which: usize, to: u32) -> u32
    ensures { result ≡ target_to aims.now places.now at which to }
{
    place_in(places, aimed(aims, at, which, to))
}

/// The targets of a tableswitch.
fn moved_table(
    alloc: Global,
    aims: &Aims,
    places: &[u32],
    at: usize,
    cases: &Items<u32>,
) -> M<Shared<Items<u32>>>
    ensures { IfOk result (λ moved. moved
        ≡ map_from (target_to aims.now places.now at) 1 cases.now) }
{
    let mut moved = Items::with_capacity(alloc, cases.len())?;
    let mut which = 1;
    for case in cases.as_slice() {
        moved.push(target_to(aims, places, at, which, *case))?;
        which += 1;
    }
    Ok(Shared::new(alloc, moved)?)
}

/// The cases of a lookupswitch.
fn moved_cases(
    alloc: Global,
    aims: &Aims,
    places: &[u32],
    at: usize,
    cases: &Items<Case>,
) -> M<Shared<Items<Case>>>
    ensures { IfOk result (λ moved. moved
        ≡ map_from (moved_case aims.now places.now at) 1 cases.now) }
{
    let mut moved = Items::with_capacity(alloc, cases.len())?;
    let mut which = 1;
    for case in cases.as_slice() {
        moved.push(Case {
            key: case.key,
            to: target_to(aims, places, at, which, case.to),
        })?;
        which += 1;
    }
    Ok(Shared::new(alloc, moved)?)
}

/// A copy of the instruction of an index, with its targets where they lead and then come to stand.
pub(crate) fn moved_op(alloc: Global, aims: &Aims, places: &[u32], at: usize, op: &Op) -> M<Op>
    ensures { IfOk result (λ moved. moved
        ≡ retargeted (target_to aims.now places.now at) op.now) }
{
    match op {
        Op::IfZero(cond, to) => Ok(Op::IfZero(*cond, target_to(aims, places, at, 0, *to))),
        Op::IfCmp(cond, to) => Ok(Op::IfCmp(*cond, target_to(aims, places, at, 0, *to))),
        Op::IfRef { eq, to } => Ok(Op::IfRef {
            eq: *eq,
            to: target_to(aims, places, at, 0, *to),
        }),
        Op::IfNull { null, to } => Ok(Op::IfNull {
            null: *null,
            to: target_to(aims, places, at, 0, *to),
        }),
        Op::Goto(to) => Ok(Op::Goto(target_to(aims, places, at, 0, *to))),
        Op::TableSwitch { low, other, cases } => Ok(Op::TableSwitch {
            low: *low,
            other: target_to(aims, places, at, 0, *other),
            cases: moved_table(alloc, aims, places, at, cases)?,
        }),
        Op::LookupSwitch { other, cases } => Ok(Op::LookupSwitch {
            other: target_to(aims, places, at, 0, *other),
            cases: moved_cases(alloc, aims, places, at, cases)?,
        }),
        _ => copied_op(op),
    }
}
