// Local variables (JVMS 6.5.iload, 6.5.istore, 6.5.iinc and the like).
ghost use Rattle.jvm_model.specs.Instructions.{Incs, Loads, Stores};
ghost use Rattle.run_steps.specs.Outcomes.{DoesAs};
ghost use Rattle.std.specs.Prelude.{◌≡◌, ◌-◌, ◌<◌, ◌^◌};

use crate::{Body, Outcome};
use class_model::Kind;
use jv_base::M;
use run_values::Value;

/// The value of a slot is pushed (JVMS 6.5.iload, 6.5.lload, 6.5.aload).
pub(crate) fn load(body: &mut Body, kind: Kind, slot: u16) -> M<Outcome<'static>>
    requires { body.old.at < 2 ^ 64 - 1 }
    ensures { DoesAs result body.old body.new (Loads kind slot) }
{
    let Some(held) = body.locals.get(usize::from(slot)) else {
        return Ok(Outcome::Stuck);
    };
    if !held.is_of(kind) {
        return Ok(Outcome::Stuck);
    }
    let value = held.clone()?;
    body.stack.push(value)?;
    body.go_on();
    Ok(Outcome::Moves)
}

/// The top goes into a slot (JVMS 6.5.istore, 6.5.lstore, 6.5.astore).
pub(crate) fn store(body: &mut Body, kind: Kind, slot: u16) -> M<Outcome<'static>>
    requires { body.old.at < 2 ^ 64 - 1 }
    ensures { DoesAs result body.old body.new (Stores kind slot) }
{
    let Some(value) = body.stack.pop_kind(kind) else {
        return Ok(Outcome::Stuck);
    };
    body.locals.set(usize::from(slot), value)?;
    body.go_on();
    Ok(Outcome::Moves)
}

/// A number is added to the int of a slot (JVMS 6.5.iinc).
pub(crate) fn increase(body: &mut Body, slot: u16, by: i16) -> M<Outcome<'static>>
    requires { body.old.at < 2 ^ 64 - 1 }
    ensures { DoesAs result body.old body.new (Incs slot by) }
{
    let Some(held) = body.locals.get(usize::from(slot)) else {
        return Ok(Outcome::Stuck);
    };
    let Some(number) = held.as_int() else {
        return Ok(Outcome::Stuck);
    };
    let sum = number.wrapping_add(i32::from(by));
    body.locals.set(usize::from(slot), Value::int(sum))?;
    body.go_on();
    Ok(Outcome::Moves)
}
