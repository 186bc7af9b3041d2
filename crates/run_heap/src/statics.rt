// Static fields of classes that are initialised (JVMS 6.5.getstatic, 6.5.putstatic).
ghost use Rattle.std.specs.Prelude.{◌≡◌, IfOk, None, Some};
ghost use Rattle.jvm_model.specs.Answers as due;
ghost use Rattle.jvm_model.specs.Fields.{stored_in};
ghost use Rattle.jvm_model.specs.Value.{set_key};
ghost use Rattle.run_heap.specs.Answers.{Answered, Changes};

use crate::{Answer, Key, World, stored_in};
use jv_base::M;
use run_values::Value;
use std::alloc::Global;

/// The value of a static field (JVMS 6.5.getstatic).
pub fn get_static(alloc: Global, world: &World, key: &Key) -> M<Answer>
    ensures { IfOk result (λ a. Answered a world.now (λ w. due.Gives (Some (w.statics key.now)) w)) }
{
    Ok(Answer::Gives(Some(world.statics.get(alloc, key)?)))
}

/// A static field gets a value (JVMS 6.5.putstatic).
pub fn put_static(alloc: Global, world: &mut World, value: Value, key: &Key) -> M<Answer>
    ensures { IfOk result (λ a. Changes a world.old world.new (λ w. due.Gives None
        (record w { statics = set_key w.statics key.now (stored_in key.now value) }))) }
{
    let kept = stored_in(alloc, key, value)?;
    world.statics.set(key, kept)?;
    Ok(Answer::Gives(None))
}
