// What the methods of String do (Java SE 8 API, String).
ghost use Rattle.std.specs.Prelude.{◌≡◌, [], ◌∷◌, Some};
ghost use Rattle.std.specs.Int.{int_wrap, w32};
ghost use Rattle.jvm_model.specs.Library as method;
ghost use Rattle.jvm_model.specs.Value.{Int, truth};
ghost use Rattle.run_library.specs.Acts.{Acts, ActsAs};
ghost use Rattle.run_library.specs.Rows.{type_of};

use crate::parts::{part_of, rest_of, unit_at};
use crate::told::told;
use crate::units::comparison;
use crate::{Act, Exception, Seen, Told, units};
use jv_base::M;
use run_values::Value;
use run_values::numbers::long_to_int;
use std::alloc::Global;

/// The low 32 bits of a number are returned.
pub(crate) fn int(number: i64) -> Act
    ensures { result ≡ Act.Returns (Some (Int (int_wrap w32 number))) }
{
    Act::Returns(Some(Value::int(long_to_int(number))))
}

/// A truth value is returned.
pub(crate) fn boolean(is_true: bool) -> Act
    ensures { result ≡ Act.Returns (Some (truth is_true)) }
{
    Act::Returns(Some(Value::truth(is_true)))
}

/// String.length.
pub(crate) fn length(operands: &[Seen<'_>]) -> Act
    ensures { Acts result method.StringLength operands.now }
{
    match operands {
        [string] => length_of(*string),
        _ => Act::NoAct,
    }
}

fn length_of(string: Seen<'_>) -> Act
    ensures { Acts result method.StringLength (string.entry ∷ []) }
{
    match string {
        Seen::Text(_, units) => int(units.len() as i64),
        _ => Act::NoAct,
    }
}

/// String.charAt.
pub(crate) fn char_at(operands: &[Seen<'_>]) -> Act
    ensures { Acts result method.StringCharAt operands.now }
{
    match operands {
        [string, index] => char_of(*string, *index),
        _ => Act::NoAct,
    }
}

fn char_of(string: Seen<'_>, index: Seen<'_>) -> Act
    ensures { Acts result method.StringCharAt (string.entry ∷ index.entry ∷ []) }
{
    let Seen::Text(_, units) = string else {
        return Act::NoAct;
    };
    match index {
        Seen::Int(index) => unit_at(units, index),
        _ => Act::NoAct,
    }
}

/// String.equals.
pub(crate) fn equals(operands: &[Seen<'_>]) -> Act
    ensures { Acts result method.StringEquals operands.now }
{
    match operands {
        [string, other] => are_equal(*string, *other),
        _ => Act::NoAct,
    }
}

fn are_equal(string: Seen<'_>, other: Seen<'_>) -> Act
    ensures { Acts result method.StringEquals (string.entry ∷ other.entry ∷ []) }
{
    let Seen::Text(_, units) = string else {
        return Act::NoAct;
    };
    match other {
        Seen::Text(_, others) => boolean(units == others),
        Seen::Int(_) | Seen::Long(_) => Act::NoAct,
        _ => boolean(false),
    }
}

/// String.hashCode.
pub(crate) fn hash_code(operands: &[Seen<'_>]) -> Act
    ensures { Acts result method.StringHashCode operands.now }
{
    match operands {
        [string] => hashed(*string),
        _ => Act::NoAct,
    }
}

fn hashed(string: Seen<'_>) -> Act
    ensures { Acts result method.StringHashCode (string.entry ∷ []) }
{
    match string {
        Seen::Text(_, units) => Act::Returns(Some(Value::int(units::hash_code(units)))),
        _ => Act::NoAct,
    }
}

/// String.isEmpty.
pub(crate) fn is_empty(operands: &[Seen<'_>]) -> Act
    ensures { Acts result method.StringIsEmpty operands.now }
{
    match operands {
        [string] => is_text_empty(*string),
        _ => Act::NoAct,
    }
}

fn is_text_empty(string: Seen<'_>) -> Act
    ensures { Acts result method.StringIsEmpty (string.entry ∷ []) }
{
    match string {
        Seen::Text(_, units) => boolean(units.len() == 0),
        _ => Act::NoAct,
    }
}

/// String.substring, from an index on.
pub(crate) fn substring_from(alloc: Global, operands: &[Seen<'_>]) -> M<Act>
    ensures { ActsAs result method.StringFrom operands.now }
{
    match operands {
        [string, from] => part_from(alloc, *string, *from),
        _ => Ok(Act::NoAct),
    }
}

fn part_from(alloc: Global, string: Seen<'_>, from: Seen<'_>) -> M<Act>
    ensures { ActsAs result method.StringFrom (string.entry ∷ from.entry ∷ []) }
{
    let Seen::Text(_, units) = string else {
        return Ok(Act::NoAct);
    };
    match from {
        Seen::Int(from) => rest_of(alloc, units, from),
        _ => Ok(Act::NoAct),
    }
}

/// String.substring, between two indices.
pub(crate) fn substring(alloc: Global, operands: &[Seen<'_>]) -> M<Act>
    ensures { ActsAs result method.StringBetween operands.now }
{
    match operands {
        [string, from, to] => part_between(alloc, *string, *from, *to),
        _ => Ok(Act::NoAct),
    }
}

fn part_between(alloc: Global, string: Seen<'_>, from: Seen<'_>, to: Seen<'_>) -> M<Act>
    ensures { ActsAs result method.StringBetween (string.entry ∷ from.entry ∷ to.entry ∷ []) }
{
    let Seen::Text(_, units) = string else {
        return Ok(Act::NoAct);
    };
    let Seen::Int(from) = from else {
        return Ok(Act::NoAct);
    };
    match to {
        Seen::Int(to) => part_of(alloc, units, from, to),
        _ => Ok(Act::NoAct),
    }
}

/// String.compareTo.
pub(crate) fn compare_to(operands: &[Seen<'_>]) -> Act
    ensures { Acts result method.StringCompareTo operands.now }
{
    match operands {
        [string, other] => compared(*string, *other),
        _ => Act::NoAct,
    }
}

fn compared(string: Seen<'_>, other: Seen<'_>) -> Act
    ensures { Acts result method.StringCompareTo (string.entry ∷ other.entry ∷ []) }
{
    let Seen::Text(_, units) = string else {
        return Act::NoAct;
    };
    match other {
        Seen::Text(_, others) => int(comparison(units, others)),
        Seen::Null => Act::Throws(Exception::NullPointer),
        _ => Act::NoAct,
    }
}

/// String.toString.
pub(crate) fn to_string(operands: &[Seen<'_>]) -> M<Act>
    ensures { ActsAs result method.StringToString operands.now }
{
    match operands {
        [string] => itself(*string),
        _ => Ok(Act::NoAct),
    }
}

fn itself(string: Seen<'_>) -> M<Act>
    ensures { ActsAs result method.StringToString (string.entry ∷ []) }
{
    match string {
        Seen::Text(reference, _) => Ok(Act::Returns(Some(reference.clone()?))),
        _ => Ok(Act::NoAct),
    }
}

/// String.valueOf.
pub(crate) fn value_of(alloc: Global, ty: Told, operands: &[Seen<'_>]) -> M<Act>
    ensures { ActsAs result (method.StringValueOf (type_of ty)) operands.now }
{
    match operands {
        [operand] => match told(alloc, ty, *operand)? {
            Some(units) => Ok(Act::MakesText(units)),
            None => Ok(Act::NoAct),
        },
        _ => Ok(Act::NoAct),
    }
}
