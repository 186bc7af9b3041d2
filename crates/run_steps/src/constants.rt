// Constants (JVMS 6.5.iconst_i, 6.5.ldc and the like).
ghost use Rattle.jvm_model.specs.Instructions.{pushes};
ghost use Rattle.jvm_model.specs.Stack.{with};
ghost use Rattle.jvm_model.specs.Value.{Lit};
ghost use Rattle.run_steps.specs.Outcomes.{DoesAs};
ghost use Rattle.std.specs.Prelude.{◌≡◌, ◌-◌, ◌<◌, ◌^◌};

use crate::{Body, Outcome};
use jv_base::{M, Shared, Units};
use run_values::Value;

/// A value is pushed.
pub(crate) fn push_value(body: &mut Body, value: Value) -> M<Outcome<'static>>
    requires { body.old.at < 2 ^ 64 - 1 }
    ensures { DoesAs result body.old body.new (pushes (with value)) }
{
    body.stack.push(value)?;
    body.go_on();
    Ok(Outcome::Moves)
}

/// The string of a literal is pushed (JVMS 6.5.ldc).
pub(crate) fn push_text(body: &mut Body, units: &Shared<Units>) -> M<Outcome<'static>>
    requires { body.old.at < 2 ^ 64 - 1 }
    ensures { DoesAs result body.old body.new (pushes (with (Lit units.now))) }
{
    push_value(body, Value::literal(units.clone()?))
}
