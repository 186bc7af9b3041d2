// What the methods of Object and Throwable do (Java SE 8 API, Object, Throwable).
ghost use Rattle.std.specs.Prelude.{[], ◌∷◌};
ghost use Rattle.jvm_model.specs.Library as method;
ghost use Rattle.run_library.specs.Acts.{Acts, ActsAs};

use crate::references::{instance_reference, is_reference, reference, string_reference};
use crate::strings::boolean;
use crate::{Act, Seen};
use jv_base::M;
use run_values::Value;

/// Object.<init>.
pub(crate) fn object_init(operands: &[Seen<'_>]) -> Act
    ensures { Acts result method.ObjectInit operands.now }
{
    match operands {
        [object] => nothing_done(*object),
        _ => Act::NoAct,
    }
}

fn nothing_done(object: Seen<'_>) -> Act
    ensures { Acts result method.ObjectInit (object.entry ∷ []) }
{
    if is_reference(object) {
        Act::Returns(None)
    } else {
        Act::NoAct
    }
}

/// Object.equals.
pub(crate) fn object_equals(operands: &[Seen<'_>]) -> M<Act>
    ensures { ActsAs result method.ObjectEquals operands.now }
{
    match operands {
        [object, other] => are_same(*object, *other),
        _ => Ok(Act::NoAct),
    }
}

fn are_same(object: Seen<'_>, other: Seen<'_>) -> M<Act>
    ensures { ActsAs result method.ObjectEquals (object.entry ∷ other.entry ∷ []) }
{
    let Some(left) = reference(object)? else {
        return Ok(Act::NoAct);
    };
    let Some(right) = reference(other)? else {
        return Ok(Act::NoAct);
    };
    Ok(boolean(left.is_same_reference(&right)))
}

/// Throwable.<init>, of nothing.
pub(crate) fn throwable_init(operands: &[Seen<'_>]) -> Act
    ensures { Acts result method.ThrowableInit operands.now }
{
    match operands {
        [object] => made(*object),
        _ => Act::NoAct,
    }
}

fn made(object: Seen<'_>) -> Act
    ensures { Acts result method.ThrowableInit (object.entry ∷ []) }
{
    match object {
        Seen::Instance(number, _, _) => Act::SetsThrown(number, Value::null(), Value::null()),
        _ => Act::NoAct,
    }
}

/// Throwable.<init>, of a message.
pub(crate) fn throwable_init_with(operands: &[Seen<'_>]) -> M<Act>
    ensures { ActsAs result method.ThrowableInitWith operands.now }
{
    match operands {
        [object, message] => made_with(*object, *message),
        _ => Ok(Act::NoAct),
    }
}

fn made_with(object: Seen<'_>, message: Seen<'_>) -> M<Act>
    ensures { ActsAs result method.ThrowableInitWith (object.entry ∷ message.entry ∷ []) }
{
    let Seen::Instance(number, _, _) = object else {
        return Ok(Act::NoAct);
    };
    match string_reference(message)? {
        Some(message) => Ok(Act::SetsThrown(number, message, Value::null())),
        None => Ok(Act::NoAct),
    }
}

/// Throwable.<init>, of a message and a cause.
pub(crate) fn throwable_init_from(operands: &[Seen<'_>]) -> M<Act>
    ensures { ActsAs result method.ThrowableInitFrom operands.now }
{
    match operands {
        [object, message, cause] => made_from(*object, *message, *cause),
        _ => Ok(Act::NoAct),
    }
}

fn made_from(object: Seen<'_>, message: Seen<'_>, cause: Seen<'_>) -> M<Act>
    ensures { ActsAs result method.ThrowableInitFrom (object.entry ∷ message.entry ∷ cause.entry ∷ []) }
{
    let Seen::Instance(number, _, _) = object else {
        return Ok(Act::NoAct);
    };
    let Some(message) = string_reference(message)? else {
        return Ok(Act::NoAct);
    };
    match instance_reference(cause) {
        Some(cause) => Ok(Act::SetsThrown(number, message, cause)),
        None => Ok(Act::NoAct),
    }
}

/// Throwable.getMessage.
pub(crate) fn get_message(operands: &[Seen<'_>]) -> M<Act>
    ensures { ActsAs result method.GetMessage operands.now }
{
    match operands {
        [object] => message_of(*object),
        _ => Ok(Act::NoAct),
    }
}

fn message_of(object: Seen<'_>) -> M<Act>
    ensures { ActsAs result method.GetMessage (object.entry ∷ []) }
{
    match object {
        Seen::Instance(_, message, _) => Ok(Act::Returns(Some(message.clone()?))),
        _ => Ok(Act::NoAct),
    }
}

/// Throwable.getCause.
pub(crate) fn get_cause(operands: &[Seen<'_>]) -> M<Act>
    ensures { ActsAs result method.GetCause operands.now }
{
    match operands {
        [object] => cause_of(*object),
        _ => Ok(Act::NoAct),
    }
}

fn cause_of(object: Seen<'_>) -> M<Act>
    ensures { ActsAs result method.GetCause (object.entry ∷ []) }
{
    match object {
        Seen::Instance(_, _, cause) => Ok(Act::Returns(Some(cause.clone()?))),
        _ => Ok(Act::NoAct),
    }
}
