// The steps of a method, as they are read.
ghost use Rattle.std.specs.Prelude.{◌≡◌, None, OnOk, IfOk, slice_get};
ghost use Rattle.std.specs.Option.{option_map};
ghost use Rattle.text_lines.specs.bodies.Steps.{ChangesOr};
ghost use Rattle.code_edit.specs.Acts.{step_passes};
ghost use Rattle.witness_file.specs.WitnessReading.{act_added, all_steps, awaits_act, closed, empty_step, padded};
ghost use Rattle.witness_file.specs.WitnessReading.{some_step, step_begun};

use crate::{MethodWitness, WitKind};
use code_edit::{Act, MethodEdits, PassEdits, is_pass, pass_of, pass_of_step};
use jv_base::{Items, M, Name, Or, Text};
use std::alloc::Global;

/// A method that is read: its steps before, those without acts among them, and the one to which acts may be added.
#[derive(Drop)]
pub(crate) struct MethodRead {
    pub(crate) class: Name,
    pub(crate) name: Name,
    pub(crate) ty: Text,
    pub(crate) steps: Items<PassEdits>,
    pub(crate) step: Option<PassEdits>,
}

/// Begins the step of a number from 1 to 6.
pub(crate) fn begin_step(
    alloc: Global,
    method: &mut MethodRead,
    number: usize,
) -> Result<(), Or<WitKind>>
    ensures { ChangesOr result method.new (step_begun number method.old) }
{
    if awaits_act(&method.step) {
        return Err(Or::Fault(WitKind::BadLine));
    }
    close_step(method)?;
    if number <= method.steps.len() {
        return Err(Or::Fault(WitKind::BadOrder));
    }
    pad(alloc, &mut method.steps, number - 1)?;
    method.step = empty_step_of(alloc, number - 1);
    Ok(())
}

fn awaits_act(step: &Option<PassEdits>) -> bool
    ensures { result ≡ awaits_act step.now }
{
    match step {
        Some(step) => step.acts.is_empty(),
        None => false,
    }
}

// Puts the step that is read behind those before it.
fn close_step(method: &mut MethodRead) -> M<()>
    ensures { OnOk result (method.new ≡ record method.old { steps = all_steps method.old; step = None }) }
{
    if let Some(step) = method.step.take() {
        method.steps.push(step)?;
    }
    Ok(())
}

// Puts steps without acts behind others, up to a number.
fn pad(alloc: Global, steps: &mut Items<PassEdits>, count: usize) -> M<()>
    ensures { OnOk result (steps.new ≡ padded count steps.old) }
{
    while steps.len() < count {
        let Some(step) = empty_step_of(alloc, steps.len()) else {
            return Ok(());
        };
        steps.push(step)?;
    }
    Ok(())
}

// The step of a number from 0, without acts.
fn empty_step_of(alloc: Global, step: usize) -> Option<PassEdits>
    ensures { result ≡ option_map empty_step (slice_get step_passes step) }
{
    let pass = pass_of_step(step)?;
    Some(PassEdits {
        pass,
        acts: Items::new(alloc),
    })
}

/// Adds an act to the step that is read.
pub(crate) fn add_act(step: &mut Option<PassEdits>, act: Act) -> Result<(), Or<WitKind>>
    ensures { ChangesOr result step.new (some_step (act_added act step.old)) }
{
    match step {
        Some(step) if is_pass(pass_of(&act), step.pass) => {
            step.acts.push(act)?;
            Ok(())
        }
        _ => Err(Or::Fault(WitKind::BadLine)),
    }
}

/// The method with all of its steps.
pub(crate) fn close(alloc: Global, method: MethodRead) -> M<MethodWitness>
    ensures { IfOk result (λ witness. witness ≡ closed method) }
{
    let mut method = method;
    close_step(&mut method)?;
    pad(alloc, &mut method.steps, 6)?;
    let MethodRead {
        class,
        name,
        ty,
        steps,
        ..
    } = method;
    Ok(MethodWitness {
        class,
        name,
        ty,
        edits: MethodEdits { steps },
    })
}
