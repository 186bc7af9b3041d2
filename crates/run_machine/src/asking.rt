// Requests before which a class may have to be initialised (JVMS 5.5, 6.5).
ghost use Rattle.std.specs.Prelude.{◌≡◌, ◌++◌, ◌∷◌, IfOk, None, OnOk, reverse};
ghost use Rattle.jvm_model.specs.Calls.{called, called_static};
ghost use Rattle.jvm_model.specs.Initialisation.{begin};
ghost use Rattle.jvm_model.specs.Program.{Program, Shape};
ghost use Rattle.jvm_model.specs.Requests.{answer};
ghost use Rattle.jvm_model.specs.State.{AfterInit, Body as Standing};
ghost use Rattle.jvm_model.specs.Step.{on_answer};
ghost use Rattle.run_heap.specs.Targets.{target_of};
ghost use Rattle.run_machine.specs.bodies.Asked.{Asks, AsksWith};
ghost use Rattle.run_machine.specs.States.{frame_of, state_at, waits_of, whole};
ghost use Rattle.run_steps.specs.Frames.{body_of};
ghost use Rattle.run_steps.specs.Outcomes.{operands_of, request_of};

use crate::answers::on_answer;
use crate::initialising::begin;
use crate::inits::is_due;
use crate::requests::answer;
use crate::{Control, Frame, Rest, Wait};
use class_model::MemberRef;
use jv_base::{Items, M, Name};
use run_heap::{Answer, Key, Shapes, Target, called, fresh, make};
use run_steps::Request;
use run_values::{Stack, Value};
use std::alloc::Global;

/// A frame, which stands without its operands, asks.
pub(crate) fn ask<S: Shapes>(
    alloc: Global,
    shapes: &S,
    rest: &mut Rest,
    frame: Frame,
    request: Request<'_>,
) -> M<Control>
    ensures { IfOk result (λ c. Asks (S.shape shapes.now) rest.old rest.new c frame request.entry) }
{
    match request {
        Request::GetStatic(field) => get_static(alloc, shapes, rest, frame, field),
        Request::PutStatic(field, value) => put_static(alloc, shapes, rest, frame, field, value),
        Request::CallStatic(method, arguments) => {
            call_static(alloc, shapes, rest, frame, method, arguments)
        }
        Request::New(class) => new(alloc, shapes, rest, frame, class),
        other => ask_other(alloc, shapes, rest, frame, other),
    }
}

/// A frame asks what needs no class.
fn ask_other<S: Shapes>(
    alloc: Global,
    shapes: &S,
    rest: &mut Rest,
    frame: Frame,
    request: Request<'_>,
) -> M<Control>
    ensures { operands_of request.entry ≡ None → IfOk result (λ c. (b : Standing)
        → state_at (S.shape shapes.now) rest.new c
        ≡ on_answer (S.shape shapes.now) (whole (S.shape shapes.now) rest.old) frame.method b (body_of frame.body)
        (waits_of rest.old.waits)
        (answer (S.shape shapes.now) frame.method.class (whole (S.shape shapes.now) rest.old)
        (request_of request.entry))) }
{
    let answer = answer(
        alloc,
        shapes,
        &mut rest.world,
        frame.method.class(),
        request,
    )?;
    on_answer(alloc, rest, frame, answer)
}

/// A class is initialised before a frame does its instruction, for which it has its operands again.
fn await_class<S: Shapes>(
    alloc: Global,
    shapes: &S,
    rest: &mut Rest,
    frame: Frame,
    class: &Name,
) -> M<Control>
    ensures { IfOk result (λ c. state_at (S.shape shapes.now) rest.new c
        ≡ begin (S.shape shapes.now) (whole (S.shape shapes.now) rest.old) class.now
        (AfterInit (frame_of frame) ∷ waits_of rest.old.waits)) }
{
    rest.waits.push(Wait::AfterInit(frame))?;
    begin(alloc, shapes, rest, class.clone()?)
}

/// The value of a static field (JVMS 6.5.getstatic).
fn get_static<S: Shapes>(
    alloc: Global,
    shapes: &S,
    rest: &mut Rest,
    frame: Frame,
    field: &MemberRef,
) -> M<Control>
    ensures { IfOk result (λ c. Asks (S.shape shapes.now) rest.old rest.new c frame (Request.GetStatic field.entry)) }
{
    let Some(found) = shapes.field(field)? else {
        return Ok(Control::Wrong);
    };
    let key = found.key();
    if is_due(shapes, &rest.marks, key.class()) {
        return await_class(alloc, shapes, rest, frame, key.class());
    }
    let answer = run_heap::get_static(alloc, &rest.world, key)?;
    on_answer(alloc, rest, frame, answer)
}

/// A static field gets a value (JVMS 6.5.putstatic).
fn put_static<S: Shapes>(
    alloc: Global,
    shapes: &S,
    rest: &mut Rest,
    frame: Frame,
    field: &MemberRef,
    value: Value,
) -> M<Control>
    ensures { IfOk result (λ c. Asks (S.shape shapes.now) rest.old rest.new c frame
        (Request.PutStatic field.entry value)) }
{
    let Some(found) = shapes.field(field)? else {
        return Ok(Control::Wrong);
    };
    let key = found.key();
    if is_due(shapes, &rest.marks, key.class()) {
        let mut frame = frame;
        frame.body.stack.push(value)?;
        return await_class(alloc, shapes, rest, frame, key.class());
    }
    let answer = run_heap::put_static(alloc, &mut rest.world, value, key)?;
    on_answer(alloc, rest, frame, answer)
}

/// A static method is called (JVMS 6.5.invokestatic).
fn call_static<S: Shapes>(
    alloc: Global,
    shapes: &S,
    rest: &mut Rest,
    frame: Frame,
    method: &MemberRef,
    arguments: Items<Value>,
) -> M<Control>
    ensures { IfOk result (λ c. Asks (S.shape shapes.now) rest.old rest.new c frame
        (Request.CallStatic method.entry arguments)) }
{
    match shapes.static_target(method)? {
        Some(Target::Program(method)) => {
            call_program(alloc, shapes, rest, frame, method, arguments)
        }
        Some(Target::Library(row)) => {
            call_other(alloc, rest, frame, Target::Library(row), arguments)
        }
        Some(Target::Fails(exception)) => {
            call_other(alloc, rest, frame, Target::Fails(exception), arguments)
        }
        None => Ok(Control::Wrong),
    }
}

/// What a call runs that is no method of the program.
fn call_other(
    alloc: Global,
    rest: &mut Rest,
    frame: Frame,
    target: Target,
    arguments: Items<Value>,
) -> M<Control>
    ensures { IfOk result (λ c. (p : Shape) (b : Standing) → state_at p rest.new c
        ≡ on_answer p (whole p rest.old) frame.method b (body_of frame.body) (waits_of rest.old.waits)
        (called (whole p rest.old) arguments (target_of target))) }
{
    let answer = called(alloc, &mut rest.world, arguments, target)?;
    on_answer(alloc, rest, frame, answer)
}

/// A static method of the program begins, once its class is initialised.
fn call_program<S: Shapes>(
    alloc: Global,
    shapes: &S,
    rest: &mut Rest,
    frame: Frame,
    method: Key,
    arguments: Items<Value>,
) -> M<Control>
    ensures { IfOk result (λ c. AsksWith (S.shape shapes.now) rest.old rest.new c frame (reverse arguments)
        (λ w. called_static w arguments (Program method))) }
{
    if is_due(shapes, &rest.marks, method.class()) {
        let mut frame = frame;
        push_back(&mut frame.body.stack, arguments.as_slice())?;
        return await_class(alloc, shapes, rest, frame, method.class());
    }
    on_answer(alloc, rest, frame, Answer::Begins(method, arguments))
}

/// Puts operands onto the stack, in their order.
fn push_back(stack: &mut Stack, operands: &[Value]) -> M<()>
    ensures { OnOk result (stack.new ≡ reverse operands.now ++ stack.old) }
{
    for operand in operands {
        stack.push(operand.clone()?)?;
    }
    Ok(())
}

/// A new object (JVMS 6.5.new).
fn new<S: Shapes>(
    alloc: Global,
    shapes: &S,
    rest: &mut Rest,
    frame: Frame,
    class: &Name,
) -> M<Control>
    ensures { IfOk result (λ c. Asks (S.shape shapes.now) rest.old rest.new c frame (Request.New class.entry)) }
{
    if is_due(shapes, &rest.marks, class) {
        return await_class(alloc, shapes, rest, frame, class);
    }
    let object = fresh(alloc, class)?;
    let answer = make(&mut rest.world, object)?;
    on_answer(alloc, rest, frame, answer)
}
