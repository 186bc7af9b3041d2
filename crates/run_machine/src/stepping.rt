// What is done next (JVMS 2.11, 5.5, 6.5).
ghost use Rattle.std.specs.Prelude.{◌≡◌, ◌<◌, IfOk, false};
ghost use Rattle.jvm_model.specs.Step.{next};
ghost use Rattle.run_machine.specs.States.{control_of, program, state_at, waits_of, whole};
ghost use Rattle.run_machine.specs.bodies.Going.{Leads, is_frame};

use crate::going::{Ran, run_frame};
use crate::initialising::{begin, complete, prepare};
use crate::unwinding::unwind;
use crate::{Control, Rest};
use jv_base::M;
use run_heap::Shapes;
use std::alloc::Global;

/// What is done next: instructions, as long as frames of one method run and steps are left, or one step.
pub(crate) fn advance<S: Shapes>(
    alloc: Global,
    shapes: &S,
    rest: &mut Rest,
    control: Control,
    steps: u64,
) -> M<Ran>
    requires { 0 < steps }
    ensures less { IfOk result (λ r. r.left < steps) }
    ensures leads { IfOk result (λ r. Leads (program (S.shape shapes.now) (S.code_of shapes.now)) rest.old
        control steps rest.new r) }
{
    match control {
        Control::Runs(frame) => run_frame(alloc, shapes, rest, frame, steps),
        other => {
            let control = next(alloc, shapes, rest, other)?;
            Ok(Ran {
                control,
                left: steps - 1,
            })
        }
    }
}

/// What is done next where no frame runs.
fn next<S: Shapes>(alloc: Global, shapes: &S, rest: &mut Rest, control: Control) -> M<Control>
    requires { is_frame (control_of control) ≡ false }
    ensures { IfOk result (λ c. state_at (S.shape shapes.now) rest.new c
        ≡ next (program (S.shape shapes.now) (S.code_of shapes.now)) (whole (S.shape shapes.now) rest.old)
        (waits_of rest.old.waits) (control_of control)) }
{
    match control {
        Control::Runs(frame) => Ok(Control::Runs(frame)),
        Control::Unwinds(number) => unwind(alloc, shapes, rest, number),
        Control::Initialises(class) => begin(alloc, shapes, rest, class),
        Control::Prepares(class, firsts) => prepare(alloc, shapes, rest, class, firsts),
        Control::Completes(class) => complete(alloc, rest, class),
        Control::Returned(value) => Ok(Control::Returned(value)),
        Control::Threw(number) => Ok(Control::Threw(number)),
        Control::Wrong => Ok(Control::Wrong),
    }
}
