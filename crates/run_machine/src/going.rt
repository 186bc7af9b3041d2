// A frame runs by the code of its method, which is found once for many instructions (JVMS 2.11, 6.5).
ghost use Rattle.std.specs.Prelude.{◌≡◌, ◌<◌, IfOk, Some};
ghost use Rattle.jvm_model.specs.Step.{on_local};
ghost use Rattle.jvm_model.specs.Local.{local};
ghost use Rattle.run_machine.specs.States.{program, state_at, waits_of, whole};
ghost use Rattle.run_machine.specs.bodies.Asked.{Asks};
ghost use Rattle.run_machine.specs.bodies.Going.{KeepsMethod, Leads, going_to};
ghost use Rattle.run_machine.specs.declared.state.Control.TheVariants as doing;
ghost use Rattle.run_steps.specs.Frames.{body_of};

use crate::asking::ask;
use crate::returning::{give_back, toss};
use crate::{Control, Frame, Rest};
use class_model::Code;
use jv_base::M;
use run_heap::Shapes;
use run_steps::{Outcome, Request, local};
use std::alloc::Global;

/// What comes of an instruction of a frame.
#[derive(Drop)]
pub(crate) enum Going {
    /// A frame of the same method goes on.
    On(Frame),
    /// Another activity.
    To(Control),
}

/// What is done after some steps, and how many are left.
#[derive(Drop)]
pub(crate) struct Ran {
    pub control: Control,
    pub left: u64,
}

/// A frame does instructions, as long as frames of its method run and steps are left.
pub(crate) fn run_frame<S: Shapes>(
    alloc: Global,
    shapes: &S,
    rest: &mut Rest,
    frame: Frame,
    steps: u64,
) -> M<Ran>
    requires { 0 < steps }
    ensures less { IfOk result (λ r. r.left < steps) }
    ensures leads { IfOk result (λ r. Leads (program (S.shape shapes.now) (S.code_of shapes.now)) rest.old
        (doing.Runs frame) steps rest.new r) }
{
    match shapes.code(&frame.method) {
        Some(code) => run_code(alloc, shapes, rest, code, frame, steps),
        None => Ok(Ran {
            control: Control::Wrong,
            left: steps - 1,
        }),
    }
}

/// The same by the code of its method.
fn run_code<S: Shapes>(
    alloc: Global,
    shapes: &S,
    rest: &mut Rest,
    code: &Code,
    frame: Frame,
    steps: u64,
) -> M<Ran>
    requires some { 0 < steps }
    requires code { Some code.now ≡ S.code_of shapes.now frame.method }
    ensures less { IfOk result (λ r. r.left < steps) }
    ensures leads { IfOk result (λ r. Leads (program (S.shape shapes.now) (S.code_of shapes.now)) rest.old
        (doing.Runs frame) steps rest.new r) }
{
    let mut frame = frame;
    let mut left = steps;
    while left > 0 {
        left -= 1;
        match step(alloc, shapes, rest, code, frame)? {
            Going::On(next) => frame = next,
            Going::To(control) => return Ok(Ran { control, left }),
        }
    }
    Ok(Ran {
        control: Control::Runs(frame),
        left,
    })
}

/// A frame does its instruction.
fn step<S: Shapes>(
    alloc: Global,
    shapes: &S,
    rest: &mut Rest,
    code: &Code,
    frame: Frame,
) -> M<Going>
    ensures does { IfOk result (λ g. state_at (S.shape shapes.now) rest.new (going_to g)
        ≡ on_local (S.shape shapes.now) (whole (S.shape shapes.now) rest.old) frame.method (body_of frame.body)
        (waits_of rest.old.waits) (local code.now (body_of frame.body))) }
    ensures method { IfOk result (KeepsMethod frame.method) }
{
    let mut frame = frame;
    match local(alloc, shapes, code, &mut frame.body)? {
        Outcome::Moves => Ok(Going::On(frame)),
        Outcome::Wants(request) => step_asking(alloc, shapes, rest, frame, request),
        Outcome::Ends(value) => Ok(Going::To(give_back(&mut rest.waits, value)?)),
        Outcome::Tosses(thrown) => Ok(Going::To(toss(alloc, rest, frame, thrown)?)),
        Outcome::Stuck => Ok(Going::To(Control::Wrong)),
    }
}

/// A frame, which stands without its operands, asks. Where a frame runs afterwards and as much waits as before, it is
/// the one that asked.
fn step_asking<S: Shapes>(
    alloc: Global,
    shapes: &S,
    rest: &mut Rest,
    frame: Frame,
    request: Request<'_>,
) -> M<Going>
    ensures asks { IfOk result (λ g. Asks (S.shape shapes.now) rest.old rest.new (going_to g) frame request.entry) }
    ensures method { IfOk result (KeepsMethod frame.method) }
{
    let waiting = rest.waits.len();
    match ask(alloc, shapes, rest, frame, request)? {
        Control::Runs(next) => {
            if rest.waits.len() == waiting {
                Ok(Going::On(next))
            } else {
                Ok(Going::To(Control::Runs(next)))
            }
        }
        other => Ok(Going::To(other)),
    }
}
