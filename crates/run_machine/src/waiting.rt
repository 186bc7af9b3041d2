// What waits goes on (JVMS 5.5).
ghost use Rattle.std.specs.Prelude.{◌≡◌, IfOk, List, ℕ};
ghost use Rattle.jvm_model.specs.Heap.{Init, World as Whole};
ghost use Rattle.jvm_model.specs.Initialisation.{goes_back, raised, state};
ghost use Rattle.jvm_model.specs.State.{Wait as Waiting};
ghost use Rattle.run_heap.specs.Worlds.{world_of};
ghost use Rattle.run_library.specs.Rows.{exception_of};
ghost use Rattle.run_machine.specs.States.{control_of, waits_of};

use crate::{Control, Frame, Pile, Wait};
use jv_base::{M, Text};
use run_heap::{World, fresh};
use run_library::{Exception, class_of};
use run_steps::Body;
use std::alloc::Global;

/// An initialisation has ended, or wasn't needed: what waits for it goes on (JVMS 5.5, steps 3, 4 and 10).
pub(crate) fn go_back(alloc: Global, waits: &mut Pile<Wait>) -> M<Control>
    ensures { IfOk result (λ c. (w : Whole) → state w (control_of c) (waits_of waits.new)
        ≡ goes_back w (waits_of waits.old)) }
{
    match waits.pop() {
        Some(Wait::AfterInit(frame)) => Ok(Control::Runs(frame)),
        Some(Wait::AfterFirst(class, firsts)) => Ok(Control::Prepares(class, firsts)),
        Some(Wait::ToEntry(method, arguments)) => {
            let body = Body::begun(alloc, arguments.as_slice())?;
            Ok(Control::Runs(Frame { method, body }))
        }
        Some(Wait::AfterCall(frame)) => {
            waits.push(Wait::AfterCall(frame))?;
            Ok(Control::Wrong)
        }
        Some(Wait::AfterClinit(class)) => {
            waits.push(Wait::AfterClinit(class))?;
            Ok(Control::Wrong)
        }
        None => Ok(Control::Wrong),
    }
}

/// An exception is made and thrown.
pub(crate) fn raise(alloc: Global, world: &mut World, exception: Exception) -> M<Control>
    ensures { IfOk result (λ c. (inits : List ℕ → Init) (ws : List Waiting)
        → state (world_of inits world.new) (control_of c) ws
        ≡ raised (world_of inits world.old) (exception_of exception) ws) }
{
    let class = Text::from_str(alloc, class_of(exception))?;
    let object = fresh(alloc, &class)?;
    let number = world.heap.len();
    world.heap.push(object)?;
    Ok(Control::Unwinds(number))
}
