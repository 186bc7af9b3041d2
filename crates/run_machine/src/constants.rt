// Fields that get their ConstantValue (JVMS 4.7.2, 5.5, step 6).
ghost use Rattle.std.specs.Prelude.{◌≡◌, OnOk};
ghost use Rattle.jvm_model.specs.Initialisation.{with_constants};
ghost use Rattle.run_heap.specs.Held.{held};
ghost use Rattle.run_machine.specs.bodies.Constants.{with_constant, with_each};

use jv_base::{M, Name};
use run_heap::{Key, Shapes, Statics, stored_in};
use std::alloc::Global;

/// The fields of a class that have one hold their ConstantValue.
pub(crate) fn set_constants<S: Shapes>(
    alloc: Global,
    shapes: &S,
    statics: &mut Statics,
    class: &Name,
) -> M<()>
    ensures { OnOk result (held statics.new ≡ with_constants (S.shape shapes.now) class.now (held statics.old)) }
{
    let keys = shapes.fields_of(alloc, class)?;
    set_each(alloc, shapes, statics, keys.as_slice())
}

fn set_each<S: Shapes>(alloc: Global, shapes: &S, statics: &mut Statics, keys: &[Key]) -> M<()>
    ensures { OnOk result (held statics.new ≡ with_each (S.shape shapes.now) keys.now (held statics.old)) }
{
    for key in keys {
        set_constant(alloc, shapes, statics, key)?;
    }
    Ok(())
}

fn set_constant<S: Shapes>(alloc: Global, shapes: &S, statics: &mut Statics, key: &Key) -> M<()>
    ensures { OnOk result (held statics.new ≡ with_constant (S.shape shapes.now) (held statics.old) key.now) }
{
    match shapes.constant(key)? {
        Some(value) => {
            let kept = stored_in(alloc, key, value)?;
            statics.set(key, kept)
        }
        None => Ok(()),
    }
}
