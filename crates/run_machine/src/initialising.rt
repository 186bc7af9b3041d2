// Initialising a class or an interface (JVMS 5.5).
ghost use Rattle.std.specs.Prelude.{◌≡◌, IfOk};
ghost use Rattle.jvm_model.specs.Heap.{Fresh};
ghost use Rattle.jvm_model.specs.Initialisation.{begin, begin_by, complete, prepare, run_clinit};
ghost use Rattle.jvm_model.specs.Program.{Shape};
ghost use Rattle.run_machine.specs.States.{state_at, waits_of, whole};
ghost use Rattle.run_machine.specs.bodies.Firsts.{IsNext};

use crate::constants::set_constants;
use crate::inits::{init_of, is_due};
use crate::waiting::{go_back, raise};
use crate::{Control, Frame, Init, Marks, Pile, Rest, Wait};
use jv_base::{Items, M, Name};
use run_heap::{Key, Shapes};
use run_library::Exception;
use run_steps::Body;
use run_values::Value;
use std::alloc::Global;

/// It begins (JVMS 5.5, steps 1 to 6); of a class that failed no use is made any more.
pub(crate) fn begin<S: Shapes>(
    alloc: Global,
    shapes: &S,
    rest: &mut Rest,
    class: Name,
) -> M<Control>
    ensures { IfOk result (λ c. state_at (S.shape shapes.now) rest.new c
        ≡ begin (S.shape shapes.now) (whole (S.shape shapes.now) rest.old) class (waits_of rest.old.waits)) }
{
    match init_of(shapes, &rest.marks, &class) {
        Init::Fresh => begin_fresh(alloc, shapes, rest, class),
        Init::Begun => go_back(alloc, &mut rest.waits),
        Init::Ready => go_back(alloc, &mut rest.waits),
        Init::Failed => raise(alloc, &mut rest.world, Exception::NoClassDef),
    }
}

/// The class is marked, and its fields with a ConstantValue get it.
fn begin_fresh<S: Shapes>(alloc: Global, shapes: &S, rest: &mut Rest, class: Name) -> M<Control>
    ensures { IfOk result (λ c. state_at (S.shape shapes.now) rest.new c ≡ begin_by (S.shape shapes.now)
        (whole (S.shape shapes.now) rest.old) class (waits_of rest.old.waits) Fresh) }
{
    set_constants(alloc, shapes, &mut rest.world.statics, &class)?;
    let firsts = Pile::of(shapes.firsts(alloc, &class)?);
    let marked = class.clone()?;
    rest.marks.mark(marked, Init::Begun)?;
    Ok(Control::Prepares(class, firsts))
}

/// It ends (JVMS 5.5, step 10).
pub(crate) fn complete(alloc: Global, rest: &mut Rest, class: Name) -> M<Control>
    ensures { IfOk result (λ c. (p : Shape) → state_at p rest.new c
        ≡ complete (whole p rest.old) class (waits_of rest.old.waits)) }
{
    rest.marks.mark(class, Init::Ready)?;
    go_back(alloc, &mut rest.waits)
}

/// Its initialisation method begins; where it has none, it ends (JVMS 5.5, step 9).
fn run_clinit(alloc: Global, rest: &mut Rest, class: Name, method: Option<Key>) -> M<Control>
    ensures { IfOk result (λ c. (p : Shape) → state_at p rest.new c
        ≡ run_clinit (whole p rest.old) class (waits_of rest.old.waits) method) }
{
    match method {
        None => complete(alloc, rest, class),
        Some(method) => {
            let arguments: Items<Value> = Items::new(alloc);
            let body = Body::begun(alloc, arguments.as_slice())?;
            rest.waits.push(Wait::AfterClinit(class))?;
            Ok(Control::Runs(Frame { method, body }))
        }
    }
}

/// The next class of those that come first and still has to be initialised; those before it are left out.
fn next_due<S: Shapes>(shapes: &S, marks: &Marks, firsts: &mut Pile<Name>) -> Option<Name>
    ensures { IsNext (S.shape shapes.now) marks.now result firsts.old firsts.new }
{
    while let Some(first) = firsts.pop() {
        if is_due(shapes, marks, &first) {
            return Some(first);
        }
    }
    None
}

/// The next class that has to be initialised first, and after it the others; where there is none, the initialisation
/// method of the class (JVMS 5.5, steps 7 and 9).
pub(crate) fn prepare<S: Shapes>(
    alloc: Global,
    shapes: &S,
    rest: &mut Rest,
    class: Name,
    firsts: Pile<Name>,
) -> M<Control>
    ensures { IfOk result (λ c. state_at (S.shape shapes.now) rest.new c
        ≡ prepare (S.shape shapes.now) (whole (S.shape shapes.now) rest.old) class firsts (waits_of rest.old.waits)) }
{
    let mut firsts = firsts;
    match next_due(shapes, &rest.marks, &mut firsts) {
        Some(first) => {
            rest.waits.push(Wait::AfterFirst(class, firsts))?;
            Ok(Control::Initialises(first))
        }
        None => {
            let method = shapes.clinit(&class)?;
            run_clinit(alloc, rest, class, method)
        }
    }
}
