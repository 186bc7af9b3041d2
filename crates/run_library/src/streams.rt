// What the methods of PrintStream do (Java SE 8 API, PrintStream).
ghost use Rattle.std.specs.Prelude.{[], ◌∷◌};
ghost use Rattle.jvm_model.specs.Library as method;
ghost use Rattle.run_library.specs.Acts.{Acts, ActsAs};
ghost use Rattle.run_library.specs.Rows.{type_of};

use crate::told::push_told;
use crate::{Act, Seen, Told};
use jv_base::{Items, M};
use std::alloc::Global;

/// What ends a line.
const LINE_END: u16 = 10;

/// PrintStream.print.
pub(crate) fn print(alloc: Global, ty: Told, operands: &[Seen<'_>]) -> M<Act>
    ensures { ActsAs result (method.Print (type_of ty)) operands.now }
{
    match operands {
        [stream, operand] => printed(alloc, ty, *stream, *operand),
        _ => Ok(Act::NoAct),
    }
}

fn printed(alloc: Global, ty: Told, stream: Seen<'_>, operand: Seen<'_>) -> M<Act>
    ensures { ActsAs result (method.Print (type_of ty)) (stream.entry ∷ operand.entry ∷ []) }
{
    let Seen::Instance(_, _, _) = stream else {
        return Ok(Act::NoAct);
    };
    let mut units: Vec<u16> = Vec::new(alloc);
    if !push_told(&mut units, ty, operand)? {
        return Ok(Act::NoAct);
    }
    Ok(Act::Writes(Items::from_vec(units)))
}

/// PrintStream.println, of a value.
pub(crate) fn print_line(alloc: Global, ty: Told, operands: &[Seen<'_>]) -> M<Act>
    ensures { ActsAs result (method.PrintLine (type_of ty)) operands.now }
{
    match operands {
        [stream, operand] => printed_line(alloc, ty, *stream, *operand),
        _ => Ok(Act::NoAct),
    }
}

fn printed_line(alloc: Global, ty: Told, stream: Seen<'_>, operand: Seen<'_>) -> M<Act>
    ensures { ActsAs result (method.PrintLine (type_of ty)) (stream.entry ∷ operand.entry ∷ []) }
{
    let Seen::Instance(_, _, _) = stream else {
        return Ok(Act::NoAct);
    };
    let mut units: Vec<u16> = Vec::new(alloc);
    if !push_told(&mut units, ty, operand)? {
        return Ok(Act::NoAct);
    }
    units.push(LINE_END)?;
    Ok(Act::Writes(Items::from_vec(units)))
}

/// PrintStream.println, of nothing.
pub(crate) fn end_line(alloc: Global, operands: &[Seen<'_>]) -> M<Act>
    ensures { ActsAs result method.EndLine operands.now }
{
    match operands {
        [stream] => ended_line(alloc, *stream),
        _ => Ok(Act::NoAct),
    }
}

fn ended_line(alloc: Global, stream: Seen<'_>) -> M<Act>
    ensures { ActsAs result method.EndLine (stream.entry ∷ []) }
{
    let Seen::Instance(_, _, _) = stream else {
        return Ok(Act::NoAct);
    };
    let mut units: Vec<u16> = Vec::new(alloc);
    units.push(LINE_END)?;
    Ok(Act::Writes(Items::from_vec(units)))
}
