// What becomes of the code of one method.
ghost use Rattle.std.specs.Prelude.{◌≡◌, ◌<◌, true, IfOk, Some, length, slice_get};
ghost use Rattle.class_model.specs.declared.class.Class.{Class};
ghost use Rattle.pass_driver.specs.Outcomes.{IsOutcome};
ghost use Rattle.pass_driver.specs.Stepped.{AreSteps, has_act, stepped};
ghost use Rattle.pass_driver.specs.bodies.After.{IsRight};

use crate::steps::{After, six_steps};
use class_model::Code;
use code_edit::{MethodEdits, PassEdits};
use jv_base::{Items, M, Or, OutOfMemory};
use std::alloc::Global;
use type_verifier::{CodeChecker, codes_are_typed_or_at_fault};

/// What becomes of the code of a method.
#[derive(Drop)]
pub enum Outcome {
    /// No step has an act, so it keeps its own code.
    Own,
    /// The code after the six steps with its frames, which is typed, and the steps.
    Edited { code: Code, edits: MethodEdits },
    /// The code after the steps isn't typed, so it keeps its own.
    Fallback,
}

/// What becomes of the code of a method, by the numbers of its class and of the method there.
pub(crate) fn outcome_of(
    alloc: Global,
    checker: &CodeChecker,
    class: u32,
    method: u32,
    code: &Code,
) -> M<Outcome>
    requires class { class < length checker.now }
    requires method { (c : Class) → slice_get checker.now class ≡ Some c → method < length c.methods }
    requires right { IsRight code.now }
    ensures { IfOk result (IsOutcome checker.now class method code.now) }
{
    let After {
        code: edited,
        steps,
    } = six_steps(alloc, code)?;
    match edited {
        Some(edited) => judged(alloc, checker, class, method, code, edited, steps),
        None => Ok(Outcome::Own),
    }
}

/// An edited code, if it is typed in place of the method's own.
fn judged(
    alloc: Global,
    checker: &CodeChecker,
    class: u32,
    method: u32,
    own: &Code,
    code: Code,
    steps: Items<PassEdits>,
) -> M<Outcome>
    requires class { class < length checker.now }
    requires method { (c : Class) → slice_get checker.now class ≡ Some c → method < length c.methods }
    requires steps { AreSteps steps own.now }
    requires acts { has_act steps ≡ true }
    requires code { code ≡ stepped steps own.now }
    ensures { IfOk result (IsOutcome checker.now class method own.now) }
{
    codes_are_typed_or_at_fault();
    match checker.check(alloc, class, method, &code) {
        Ok(()) => Ok(Outcome::Edited {
            code,
            edits: MethodEdits { steps },
        }),
        Err(Or::Fault(_)) => Ok(Outcome::Fallback),
        Err(Or::OutOfMemory) => Err(OutOfMemory),
    }
}
