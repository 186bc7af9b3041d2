// What a run has come to.
ghost use Rattle.std.specs.Prelude.{◌≡◌, IfOk, Some};
ghost use Rattle.class_run.specs.Ended.{back_of, end_of, ended_of};
ghost use Rattle.jvm_model.specs.Program.{Shape};
ghost use Rattle.jvm_model.specs.State.{HasThrown, status};
ghost use Rattle.run_machine.specs.States.{state_of};

use class_run::{Back, End, Ended};
use jv_base::{Items, M, Text, Units};
use run_machine::{State, Status};
use run_values::Value;
use std::alloc::Global;

/// What is told of a state.
pub(crate) fn ended_of(alloc: Global, state: &State) -> M<Ended>
    ensures { IfOk result (λ ended. (p : Shape) → ended ≡ ended_of (state_of p state.now)) }
{
    let how = end_of(alloc, state)?;
    let printed = units_of(alloc, state.printed())?;
    Ok(Ended { printed, how })
}

fn units_of(alloc: Global, units: &[u16]) -> M<Units>
    ensures { IfOk result (λ copy. copy ≡ units.now) }
{
    Ok(Items::from_vec(Vec::from_slice(alloc, units)?))
}

fn end_of(alloc: Global, state: &State) -> M<End>
    ensures { IfOk result (λ how. (p : Shape) → how
        ≡ end_of (state_of p state.now).world.heap (status (state_of p state.now))) }
{
    match state.status() {
        Status::Running => Ok(End::Running),
        Status::Returned(Some(value)) => Ok(End::Returned(back_of(value)?)),
        Status::Returned(None) => Ok(End::Returned(Back::Nothing)),
        Status::Threw(number) => thrown(alloc, state, number),
        Status::Wrong => Ok(End::Wrong),
    }
}

fn thrown(alloc: Global, state: &State, number: usize) -> M<End>
    ensures { IfOk result (λ how. (p : Shape) → how ≡ end_of (state_of p state.now).world.heap (HasThrown number)) }
{
    let class = Text::from_str(alloc, state.class_of(number))?;
    Ok(End::Threw {
        class,
        number: number as u64,
    })
}

#[tactic(auto, using(crate::proofs::Backs::value_back))]
fn back_of(value: &Value) -> M<Back>
    ensures { IfOk result (λ back. back ≡ back_of (Some value.now)) }
{
    if let Some(number) = value.as_int() {
        return Ok(Back::Int(number));
    }
    if let Some(number) = value.as_long() {
        return Ok(Back::Long(number));
    }
    if let Some(number) = value.as_number() {
        return Ok(Back::Ref(number as u64));
    }
    match value.as_text() {
        Some(units) => Ok(Back::Lit(units.clone()?)),
        None => Ok(Back::Null),
    }
}
