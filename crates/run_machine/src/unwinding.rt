// An object that is thrown goes up, one frame or class a step (JVMS 2.10, 5.5, 6.5.athrow).
ghost use Rattle.std.specs.Prelude.{◌≡◌, ◌∷◌, IfOk, List, codes, false, map, slice_get, ℕ};
ghost use Rattle.jvm_model.specs.Unwinding.{is_of_class, unwind, unwind_clinit, unwind_frame};
ghost use Rattle.jvm_model.specs.Heap.{Failed, Init};
ghost use Rattle.jvm_model.specs.Initialisation.{marked, state};
ghost use Rattle.jvm_model.specs.Local.{at_handler};
ghost use Rattle.jvm_model.specs.Program.{Shape};
ghost use Rattle.jvm_model.specs.State.{AfterClinit, Runs, Unwinds, Wait as Waiting};
ghost use Rattle.run_heap.specs.Worlds.{object_of, world_of};
ghost use Rattle.run_machine.specs.States.{control_of, frame_of, program, state_at, waits_of, whole};
ghost use Rattle.run_steps.specs.Frames.{body_of};

use crate::{Control, Frame, Init as Come, Pile, Rest, Wait};
use jv_base::{M, Name, Text};
use run_heap::{Fields, Instance, Object, Shapes, World, class_name, handler_of};
use run_library::{Exception, class_of as class_of_exception};
use run_values::{Stack, Value};
use std::alloc::Global;

/// The object leaves what waits: a frame, which may catch it; a class, whose initialisation fails; or the entry.
pub(crate) fn unwind<S: Shapes>(
    alloc: Global,
    shapes: &S,
    rest: &mut Rest,
    number: usize,
) -> M<Control>
    ensures { IfOk result (λ c. state_at (S.shape shapes.now) rest.new c
        ≡ unwind (program (S.shape shapes.now) (S.code_of shapes.now)) (whole (S.shape shapes.now) rest.old) number
        (waits_of rest.old.waits)) }
{
    match rest.waits.pop() {
        Some(Wait::AfterCall(frame)) => unwind_frame(alloc, shapes, &rest.world, number, frame),
        Some(Wait::AfterInit(frame)) => unwind_frame(alloc, shapes, &rest.world, number, frame),
        Some(Wait::AfterFirst(class, _)) => fail(rest, number, class),
        Some(Wait::AfterClinit(class)) => unwind_clinit(alloc, shapes, rest, number, class),
        Some(Wait::ToEntry(_, _)) => {
            rest.waits = Pile::new(alloc);
            Ok(Control::Threw(number))
        }
        None => Ok(Control::Threw(number)),
    }
}

/// The initialisation of a class fails with the one that comes first (JVMS 5.5, step 7).
fn fail(rest: &mut Rest, number: usize, class: Name) -> M<Control>
    ensures { IfOk result (λ c. (p : Shape) → state_at p rest.new c
        ≡ state (marked (whole p rest.old) class Failed) (Unwinds number) (waits_of rest.old.waits)) }
{
    rest.marks.mark(class, Come::Failed)?;
    Ok(Control::Unwinds(number))
}

/// It enters the first handler that covers the frame's index and catches it, or leaves the frame (JVMS 2.10).
fn unwind_frame<S: Shapes>(
    alloc: Global,
    shapes: &S,
    world: &World,
    number: usize,
    frame: Frame,
) -> M<Control>
    ensures { IfOk result (λ c. (inits : List ℕ → Init) (ws : List Waiting)
        → state (world_of inits world.now) (control_of c) ws
        ≡ unwind_frame (S.shape shapes.now) (world_of inits world.now) number (frame_of frame) ws
        (S.code_of shapes.now frame.method)) }
{
    let Some(code) = shapes.code(&frame.method) else {
        return Ok(Control::Wrong);
    };
    let object = world.heap.get(number);
    match handler_of(shapes, object, frame.body.at, code.handlers.as_slice()) {
        Some(entry) => at_handler(alloc, frame, entry, number),
        None => Ok(Control::Unwinds(number)),
    }
}

/// The handler begins, with the exception as the only operand.
fn at_handler(alloc: Global, frame: Frame, entry: u32, number: usize) -> M<Control>
    ensures { IfOk result (λ c. control_of c ≡ Runs (record {
      method = frame.method;
      body = at_handler (body_of frame.body) entry number;
    })) }
{
    let mut frame = frame;
    frame.body.at = entry as usize;
    frame.body.stack = Stack::new(alloc);
    frame.body.stack.push(Value::reference(number))?;
    Ok(Control::Runs(frame))
}

/// The initialisation of a class fails (JVMS 5.5, step 11).
fn unwind_clinit<S: Shapes>(
    alloc: Global,
    shapes: &S,
    rest: &mut Rest,
    number: usize,
    class: Name,
) -> M<Control>
    ensures { IfOk result (λ c. state_at (S.shape shapes.now) rest.new c
        ≡ unwind (program (S.shape shapes.now) (S.code_of shapes.now)) (whole (S.shape shapes.now) rest.old) number
        (AfterClinit class ∷ waits_of rest.old.waits)) }
{
    rest.marks.mark(class, Come::Failed)?;
    if is_error(alloc, shapes, &rest.world, number)? {
        Ok(Control::Unwinds(number))
    } else {
        wrap(alloc, &mut rest.world, number)
    }
}

/// Whether an object is an Error.
fn is_error<S: Shapes>(alloc: Global, shapes: &S, world: &World, number: usize) -> M<bool>
    ensures { IfOk result (λ is. is ≡ is_of_class (S.shape shapes.now)
        (slice_get (map object_of world.now.heap.items) number) (codes "java/lang/Error")) }
{
    let error = Text::from_str(alloc, "java/lang/Error")?;
    match world.heap.get(number) {
        Some(object) => Ok(shapes.is_sub(class_name(shapes, object), &error)),
        None => Ok(false),
    }
}

/// An ExceptionInInitializerError is thrown in place of an object, which is its cause (JVMS 5.5, step 11).
fn wrap(alloc: Global, world: &mut World, number: usize) -> M<Control>
    ensures { IfOk result (λ c. (inits : List ℕ → Init) (ws : List Waiting)
        → state (world_of inits world.new) (control_of c) ws
        ≡ unwind_clinit (world_of inits world.old) number ws false) }
{
    let class = Text::from_str(alloc, class_of_exception(Exception::InInitializer))?;
    let wrapped = world.heap.len();
    world.heap.push(Object::Instance(Instance {
        class,
        fields: Fields::new(alloc),
        message: Value::null(),
        cause: Value::reference(number),
    }))?;
    Ok(Control::Unwinds(wrapped))
}
