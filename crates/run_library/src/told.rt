// Values as texts (Java SE 8 API, String.valueOf).
ghost use Rattle.std.specs.Prelude.{◌≡◌, ◌++◌, IfOk, IfSome, is_some};
ghost use Rattle.std.specs.Option.{option_map};
ghost use Rattle.jvm_model.specs.Library.{value_text};
ghost use Rattle.run_library.specs.Acts.{Tells, operand_of};
ghost use Rattle.run_library.specs.Rows.{type_of};

use crate::units::{push_bytes, push_decimal};
use crate::{Seen, Told};
use jv_base::{Items, M, Units};
use std::alloc::Global;

/// Appends an operand as a text, and says whether it is of the type. A number is told in decimal, a char as its unit, a
/// boolean as true unless it is 0, a null text as `null`.
pub(crate) fn push_told(out: &mut Vec<u16>, ty: Told, operand: Seen<'_>) -> M<bool>
    ensures { IfOk result (λ done. Tells done (value_text (type_of ty)
        (operand_of operand.entry)) out.old.items out.new.items) }
{
    match ty {
        Told::Int => push_int(out, operand),
        Told::Long => push_long(out, operand),
        Told::Char => push_char(out, operand),
        Told::Boolean => push_boolean(out, operand),
        Told::Text => push_text(out, operand),
    }
}

fn push_int(out: &mut Vec<u16>, operand: Seen<'_>) -> M<bool>
    ensures { IfOk result (λ done. Tells done (value_text (type_of Told.Int)
        (operand_of operand.entry)) out.old.items out.new.items) }
{
    let Seen::Int(number) = operand else {
        return Ok(false);
    };
    push_decimal(out, i64::from(number))?;
    Ok(true)
}

fn push_long(out: &mut Vec<u16>, operand: Seen<'_>) -> M<bool>
    ensures { IfOk result (λ done. Tells done (value_text (type_of Told.Long)
        (operand_of operand.entry)) out.old.items out.new.items) }
{
    let Seen::Long(number) = operand else {
        return Ok(false);
    };
    push_decimal(out, number)?;
    Ok(true)
}

fn push_char(out: &mut Vec<u16>, operand: Seen<'_>) -> M<bool>
    ensures { IfOk result (λ done. Tells done (value_text (type_of Told.Char)
        (operand_of operand.entry)) out.old.items out.new.items) }
{
    let Seen::Int(number) = operand else {
        return Ok(false);
    };
    let unit = number.rem_euclid(0x1_0000).unsigned_abs();
    out.push(unit as u16)?;
    Ok(true)
}

fn push_boolean(out: &mut Vec<u16>, operand: Seen<'_>) -> M<bool>
    ensures { IfOk result (λ done. Tells done (value_text (type_of Told.Boolean)
        (operand_of operand.entry)) out.old.items out.new.items) }
{
    let Seen::Int(number) = operand else {
        return Ok(false);
    };
    if number == 0 {
        push_bytes(out, "false".as_bytes())?;
    } else {
        push_bytes(out, "true".as_bytes())?;
    }
    Ok(true)
}

fn push_text(out: &mut Vec<u16>, operand: Seen<'_>) -> M<bool>
    ensures { IfOk result (λ done. Tells done (value_text (type_of Told.Text)
        (operand_of operand.entry)) out.old.items out.new.items) }
{
    match operand {
        Seen::Text(_, units) => {
            out.extend_from_slice(units)?;
            Ok(true)
        }
        Seen::Null => {
            push_bytes(out, "null".as_bytes())?;
            Ok(true)
        }
        _ => Ok(false),
    }
}

/// An operand as a text, if it is of the type.
pub(crate) fn told(alloc: Global, ty: Told, operand: Seen<'_>) -> M<Option<Units>>
    ensures { IfOk result (λ units. units ≡ value_text (type_of ty) (operand_of operand.entry)) }
{
    let mut units: Vec<u16> = Vec::new(alloc);
    if push_told(&mut units, ty, operand)? {
        Ok(Some(Items::from_vec(units)))
    } else {
        Ok(None)
    }
}
