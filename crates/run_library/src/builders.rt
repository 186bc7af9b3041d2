// What the methods of StringBuilder do (Java SE 8 API, StringBuilder).
ghost use Rattle.std.specs.Prelude.{[], ◌∷◌};
ghost use Rattle.jvm_model.specs.Library as method;
ghost use Rattle.run_library.specs.Acts.{Acts, ActsAs};
ghost use Rattle.run_library.specs.Rows.{type_of};

use crate::strings::int;
use crate::told::told;
use crate::{Act, Exception, Seen, Told};
use jv_base::{Items, M};
use std::alloc::Global;

/// StringBuilder.<init>, of nothing.
pub(crate) fn init(alloc: Global, operands: &[Seen<'_>]) -> Act
    ensures { Acts result method.BuilderInit operands.now }
{
    match operands {
        [builder] => emptied(alloc, *builder),
        _ => Act::NoAct,
    }
}

fn emptied(alloc: Global, builder: Seen<'_>) -> Act
    ensures { Acts result method.BuilderInit (builder.entry ∷ []) }
{
    match builder {
        Seen::Builder(number, _) => Act::SetsBuilder(number, Items::new(alloc)),
        _ => Act::NoAct,
    }
}

/// StringBuilder.<init>, of a string.
pub(crate) fn init_with(alloc: Global, operands: &[Seen<'_>]) -> M<Act>
    ensures { ActsAs result method.BuilderInitWith operands.now }
{
    match operands {
        [builder, string] => filled(alloc, *builder, *string),
        _ => Ok(Act::NoAct),
    }
}

fn filled(alloc: Global, builder: Seen<'_>, string: Seen<'_>) -> M<Act>
    ensures { ActsAs result method.BuilderInitWith (builder.entry ∷ string.entry ∷ []) }
{
    let Seen::Builder(number, _) = builder else {
        return Ok(Act::NoAct);
    };
    match string {
        Seen::Text(_, units) => Ok(Act::SetsBuilder(number, Items::from_vec(units.to_vec(alloc)?))),
        Seen::Null => Ok(Act::Throws(Exception::NullPointer)),
        _ => Ok(Act::NoAct),
    }
}

/// StringBuilder.append.
pub(crate) fn append(alloc: Global, ty: Told, operands: &[Seen<'_>]) -> M<Act>
    ensures { ActsAs result (method.BuilderAppend (type_of ty)) operands.now }
{
    match operands {
        [builder, operand] => appended(alloc, ty, *builder, *operand),
        _ => Ok(Act::NoAct),
    }
}

fn appended(alloc: Global, ty: Told, builder: Seen<'_>, operand: Seen<'_>) -> M<Act>
    ensures { ActsAs result (method.BuilderAppend (type_of ty)) (builder.entry ∷ operand.entry ∷ []) }
{
    let Seen::Builder(_, _) = builder else {
        return Ok(Act::NoAct);
    };
    match told(alloc, ty, operand)? {
        Some(units) => Ok(Act::Appends(units)),
        None => Ok(Act::NoAct),
    }
}

/// StringBuilder.length.
pub(crate) fn length(operands: &[Seen<'_>]) -> Act
    ensures { Acts result method.BuilderLength operands.now }
{
    match operands {
        [builder] => length_of(*builder),
        _ => Act::NoAct,
    }
}

fn length_of(builder: Seen<'_>) -> Act
    ensures { Acts result method.BuilderLength (builder.entry ∷ []) }
{
    match builder {
        Seen::Builder(_, units) => int(units.len() as i64),
        _ => Act::NoAct,
    }
}

/// StringBuilder.toString.
pub(crate) fn to_string(alloc: Global, operands: &[Seen<'_>]) -> M<Act>
    ensures { ActsAs result method.BuilderToString operands.now }
{
    match operands {
        [builder] => text_of(alloc, *builder),
        _ => Ok(Act::NoAct),
    }
}

fn text_of(alloc: Global, builder: Seen<'_>) -> M<Act>
    ensures { ActsAs result method.BuilderToString (builder.entry ∷ []) }
{
    match builder {
        Seen::Builder(_, units) => Ok(Act::MakesText(Items::from_vec(units.to_vec(alloc)?))),
        _ => Ok(Act::NoAct),
    }
}
