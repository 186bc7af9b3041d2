// What comes of an answer (JVMS 2.6, 6.5).
ghost use Rattle.std.specs.Prelude.{◌≡◌, IfOk};
ghost use Rattle.jvm_model.specs.Answers.{Begins, Raises};
ghost use Rattle.jvm_model.specs.Program.{Shape};
ghost use Rattle.jvm_model.specs.State.{Body as Standing};
ghost use Rattle.jvm_model.specs.Step.{on_answer};
ghost use Rattle.run_heap.specs.Answers.{model_answer};
ghost use Rattle.run_library.specs.Rows.{exception_of};
ghost use Rattle.run_machine.specs.States.{state_at, waits_of, whole};
ghost use Rattle.run_steps.specs.Frames.{body_of};

use crate::returning::go_on;
use crate::waiting::raise;
use crate::{Control, Frame, Rest, Wait};
use jv_base::{Items, M};
use run_heap::{Answer, Key};
use run_library::Exception;
use run_steps::Body;
use run_values::Value;
use std::alloc::Global;

/// The frame that asked, and that stands without its operands, goes on, waits, or is left.
pub(crate) fn on_answer(alloc: Global, rest: &mut Rest, frame: Frame, answer: Answer) -> M<Control>
    ensures { IfOk result (λ c. (p : Shape) (b : Standing) → state_at p rest.new c
        ≡ on_answer p (whole p rest.old) frame.method b (body_of frame.body) (waits_of rest.old.waits)
        (model_answer answer (whole p rest.old))) }
{
    match answer {
        Answer::Gives(value) => go_on(frame, value),
        Answer::Raises(exception) => raise_at(alloc, rest, frame, exception),
        Answer::Begins(method, arguments) => begin_method(alloc, rest, frame, method, arguments),
        Answer::NoAnswer => Ok(Control::Wrong),
    }
}

/// An exception arises at the instruction of a frame.
fn raise_at(alloc: Global, rest: &mut Rest, frame: Frame, exception: Exception) -> M<Control>
    ensures { IfOk result (λ c. (p : Shape) (b : Standing) → state_at p rest.new c
        ≡ on_answer p (whole p rest.old) frame.method b (body_of frame.body) (waits_of rest.old.waits)
        (Raises (exception_of exception))) }
{
    rest.waits.push(Wait::AfterCall(frame))?;
    raise(alloc, &mut rest.world, exception)
}

/// A method begins that a frame calls.
fn begin_method(
    alloc: Global,
    rest: &mut Rest,
    frame: Frame,
    method: Key,
    arguments: Items<Value>,
) -> M<Control>
    ensures { IfOk result (λ c. (p : Shape) (b : Standing) → state_at p rest.new c
        ≡ on_answer p (whole p rest.old) frame.method b (body_of frame.body) (waits_of rest.old.waits)
        (Begins method arguments)) }
{
    let body = Body::begun(alloc, arguments.as_slice())?;
    rest.waits.push(Wait::AfterCall(frame))?;
    Ok(Control::Runs(Frame { method, body }))
}
