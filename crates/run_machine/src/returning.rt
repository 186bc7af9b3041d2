// Returning from a method, and throwing (JVMS 2.6.4, 6.5.athrow).
ghost use Rattle.std.specs.Prelude.{◌≡◌, ◌∷◌, [], IfOk, None, OnOk};
ghost use Rattle.jvm_model.specs.Heap.{World as Whole};
ghost use Rattle.jvm_model.specs.Initialisation.{state};
ghost use Rattle.jvm_model.specs.Local.{resumed};
ghost use Rattle.jvm_model.specs.Program.{Shape};
ghost use Rattle.jvm_model.specs.State.{Runs};
ghost use Rattle.jvm_model.specs.Step.{return, toss};
ghost use Rattle.run_machine.specs.States.{control_of, frame_of, state_at, waits_of, whole};
ghost use Rattle.run_steps.specs.Frames.{body_of};
ghost use Rattle.run_steps.specs.Outcomes.{IsWithout};
ghost use Rattle.run_steps.specs.declared.body.Body.{Body};
ghost use Rattle.run_values.specs.References.{number_of};

use crate::waiting::raise;
use crate::{Control, Frame, Pile, Rest, Wait};
use jv_base::{M, OutOfMemory};
use run_library::Exception;
use run_steps::Body;
use run_values::Value;
use std::alloc::Global;

/// What was asked for has come: nothing, or a value.
pub(crate) fn resume(body: &mut Body, value: Option<Value>) -> M<()>
    ensures { OnOk result (body_of body.new ≡ resumed (body_of body.old) value) }
{
    let Some(next) = body.at.checked_add(1) else {
        return Err(OutOfMemory);
    };
    if let Some(value) = value {
        body.stack.push(value)?;
    }
    body.at = next;
    Ok(())
}

/// A frame goes on with what came.
pub(crate) fn go_on(frame: Frame, value: Option<Value>) -> M<Control>
    ensures { IfOk result (λ c. control_of c ≡ Runs (record {
      method = frame.method;
      body = resumed (body_of frame.body) value;
    })) }
{
    let mut frame = frame;
    resume(&mut frame.body, value)?;
    Ok(Control::Runs(frame))
}

/// A method returns to the one that called it, or ends an initialisation, or the run (JVMS 2.6.4; 5.5, step 10).
pub(crate) fn give_back(waits: &mut Pile<Wait>, value: Option<Value>) -> M<Control>
    ensures { IfOk result (λ c. (w : Whole) → state w (control_of c) (waits_of waits.new)
        ≡ return w value (waits_of waits.old)) }
{
    match waits.pop() {
        Some(Wait::AfterCall(frame)) => go_on(frame, value),
        Some(Wait::AfterClinit(class)) => Ok(Control::Completes(class)),
        Some(Wait::AfterInit(frame)) => {
            waits.push(Wait::AfterInit(frame))?;
            Ok(Control::Wrong)
        }
        Some(Wait::AfterFirst(class, firsts)) => {
            waits.push(Wait::AfterFirst(class, firsts))?;
            Ok(Control::Wrong)
        }
        Some(Wait::ToEntry(method, arguments)) => {
            waits.push(Wait::ToEntry(method, arguments))?;
            Ok(Control::Wrong)
        }
        None => Ok(Control::Returned(value)),
    }
}

/// An object is thrown, and the frame, which has the reference no more, stands at its instruction (JVMS 6.5.athrow).
#[tactic(auto, using(crate::proofs::Bodies::put_back))]
pub(crate) fn toss(alloc: Global, rest: &mut Rest, frame: Frame, thrown: Value) -> M<Control>
    ensures { IfOk result (λ c. (p : Shape) (b : Body) → IsWithout (thrown ∷ []) b frame.body
        → state_at p rest.new c ≡ toss (whole p rest.old) (record { method = frame.method; body = body_of b }) thrown
        (waits_of rest.old.waits)) }
{
    let mut frame = frame;
    frame.body.stack.push(thrown.clone()?)?;
    match thrown.as_number() {
        Some(number) => {
            rest.waits.push(Wait::AfterInit(frame))?;
            Ok(Control::Unwinds(number))
        }
        None => toss_other(alloc, rest, frame, thrown),
    }
}

/// The same of what is no object of the heap.
fn toss_other(alloc: Global, rest: &mut Rest, frame: Frame, thrown: Value) -> M<Control>
    requires { number_of thrown ≡ None }
    ensures { IfOk result (λ c. (p : Shape) → state_at p rest.new c
        ≡ toss (whole p rest.old) (frame_of frame) thrown (waits_of rest.old.waits)) }
{
    if thrown.is_null() {
        rest.waits.push(Wait::AfterInit(frame))?;
        return raise(alloc, &mut rest.world, Exception::NullPointer);
    }
    Ok(Control::Wrong)
}
