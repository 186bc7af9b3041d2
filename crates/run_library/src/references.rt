// Operands that are references (Java SE 8 API).
ghost use Rattle.std.specs.Prelude.{◌≡◌, IfOk, is_some};
ghost use Rattle.jvm_model.specs.Library.{instance_reference, reference, string_reference};
ghost use Rattle.run_library.specs.Acts.{operand_of};

use crate::Seen;
use jv_base::M;
use run_values::Value;

/// Whether an operand is a reference.
pub(crate) fn is_reference(operand: Seen<'_>) -> bool
    ensures { result ≡ is_some (reference (operand_of operand.entry)) }
{
    !matches!(operand, Seen::Int(_) | Seen::Long(_))
}

/// The reference of an operand that is one.
pub(crate) fn reference(operand: Seen<'_>) -> M<Option<Value>>
    ensures { IfOk result (λ found. found ≡ reference (operand_of operand.entry)) }
{
    match operand {
        Seen::Null => Ok(Some(Value::null())),
        Seen::Text(reference, _) => Ok(Some(reference.clone()?)),
        Seen::Builder(number, _) => Ok(Some(Value::reference(number))),
        Seen::Instance(number, _, _) => Ok(Some(Value::reference(number))),
        Seen::Array(number) => Ok(Some(Value::reference(number))),
        _ => Ok(None),
    }
}

/// The same, where it may be a string.
pub(crate) fn string_reference(operand: Seen<'_>) -> M<Option<Value>>
    ensures { IfOk result (λ found. found ≡ string_reference (operand_of operand.entry)) }
{
    match operand {
        Seen::Null => Ok(Some(Value::null())),
        Seen::Text(reference, _) => Ok(Some(reference.clone()?)),
        _ => Ok(None),
    }
}

/// The same, where it may be an exception.
pub(crate) fn instance_reference(operand: Seen<'_>) -> Option<Value>
    ensures { result ≡ instance_reference (operand_of operand.entry) }
{
    match operand {
        Seen::Null => Some(Value::null()),
        Seen::Instance(number, _, _) => Some(Value::reference(number)),
        _ => None,
    }
}
