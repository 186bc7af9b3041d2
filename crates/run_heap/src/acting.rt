// What a method of the library does to the world (Java SE 8 API).
ghost use Rattle.std.specs.Prelude.{◌≡◌, IfOk, List, None, Some, slice_get};
ghost use Rattle.jvm_model.specs.Answers.{of_some};
ghost use Rattle.jvm_model.specs.Calls.{acted, called};
ghost use Rattle.jvm_model.specs.Library.{MakesString, Seen as Operand, SetsBuilder, SetsThrown, Writes};
ghost use Rattle.jvm_model.specs.Program.{Library};
ghost use Rattle.run_heap.specs.Answers.{Changes};
ghost use Rattle.run_heap.specs.bodies.Acting.{GrowsUnits, SetsThrowing, SetsUnits, append_to, first_number};
ghost use Rattle.run_heap.specs.bodies.Seeing.{AreSeen, IsAct};
ghost use Rattle.run_library.specs.Acts.{appended, done_of};
ghost use Rattle.run_library.specs.Rows.{method_of};

use crate::objects::make;
use crate::seen::all_seen;
use crate::{Answer, Object, World};
use jv_base::{M, Shared, Units};
use run_library::{Act, Row, act};
use run_values::Value;
use std::alloc::Global;

/// A method of the library does what it does with its operands.
pub(crate) fn library(alloc: Global, world: &mut World, row: Row, operands: &[Value]) -> M<Answer>
    ensures { IfOk result (λ a. Changes a world.old world.new
        (λ w. called w operands.now (Library (method_of row)))) }
{
    match act_of(alloc, world, row, operands)? {
        Some(act) => acted(alloc, world, act, operands),
        None => Ok(Answer::NoAnswer),
    }
}

/// What a method does; nothing where an operand refers to no object.
fn act_of(alloc: Global, world: &World, row: Row, operands: &[Value]) -> M<Option<Act>>
    ensures { IfOk result (λ done. IsAct done world.now (method_of row) operands.now) }
{
    let Some(told) = all_seen(alloc, world, operands)? else {
        return Ok(None);
    };
    Ok(Some(act(alloc, row, told.as_slice())?))
}

/// An act of a method that was given these operands.
fn acted(alloc: Global, world: &mut World, act: Act, operands: &[Value]) -> M<Answer>
    ensures { (told : List Operand) → AreSeen (Some told) world.old operands.now
        → IfOk result (λ a. Changes a world.old world.new (λ w. acted w (done_of told act))) }
{
    match act {
        Act::Returns(value) => Ok(Answer::Gives(value)),
        Act::MakesText(units) => make_text(alloc, world, units),
        Act::SetsBuilder(number, units) => Ok(set_builder(world, number, units)),
        Act::Appends(units) => append(world, units, operands),
        Act::SetsThrown(number, message, cause) => Ok(set_thrown(world, number, message, cause)),
        Act::Writes(units) => write(world, units),
        Act::Throws(exception) => Ok(Answer::Raises(exception)),
        Act::NoAct => Ok(Answer::NoAnswer),
    }
}

/// A string is made and returned.
fn make_text(alloc: Global, world: &mut World, units: Units) -> M<Answer>
    ensures { IfOk result (λ a. Changes a world.old world.new (λ w. acted w (MakesString units))) }
{
    let text = Shared::new(alloc, units)?;
    make(world, Object::Text(text))
}

/// Units are written to the stream.
fn write(world: &mut World, units: Units) -> M<Answer>
    ensures { IfOk result (λ a. Changes a world.old world.new (λ w. acted w (Writes units))) }
{
    world.printed.extend_from_slice(units.as_slice())?;
    Ok(Answer::Gives(None))
}

/// A StringBuilder gets other units.
fn set_builder(world: &mut World, number: usize, units: Units) -> Answer
    ensures { Changes result world.old world.new (λ w. acted w (SetsBuilder number units None)) }
{
    if number >= world.heap.len() {
        return Answer::NoAnswer;
    }
    if set_units(&mut world.heap[number], units) {
        Answer::Gives(None)
    } else {
        Answer::NoAnswer
    }
}

/// It says whether the object is a StringBuilder.
fn set_units(object: &mut Object, units: Units) -> bool
    ensures { SetsUnits result object.old object.new units }
{
    match object {
        Object::Builder(held) => {
            *held = units.into_vec();
            true
        }
        _ => false,
    }
}

/// Units are appended to the first operand, a StringBuilder, which is returned.
fn append(world: &mut World, units: Units, operands: &[Value]) -> M<Answer>
    ensures { (told : List Operand) → AreSeen (Some told) world.old operands.now
        → IfOk result (λ a. Changes a world.old world.new (λ w. acted w (appended told units))) }
{
    match first_number(operands) {
        Some(number) => append_at(world, number, units.as_slice()),
        None => Ok(Answer::NoAnswer),
    }
}

/// The number of the object that the first operand refers to, if it does.
fn first_number(operands: &[Value]) -> Option<usize>
    ensures { result ≡ first_number operands.now }
{
    match operands {
        [first, ..] => first.as_number(),
        [] => None,
    }
}

fn append_at(world: &mut World, number: usize, units: &[u16]) -> M<Answer>
    ensures { IfOk result (λ a. Changes a world.old world.new
        (λ w. of_some (append_to w number units.now) (slice_get w.heap number))) }
{
    if number >= world.heap.len() {
        return Ok(Answer::NoAnswer);
    }
    if grow_units(&mut world.heap[number], units)? {
        Ok(Answer::Gives(Some(Value::reference(number))))
    } else {
        Ok(Answer::NoAnswer)
    }
}

/// It says whether the object is a StringBuilder.
fn grow_units(object: &mut Object, units: &[u16]) -> M<bool>
    ensures { IfOk result (λ done. GrowsUnits done object.old object.new units.now) }
{
    match object {
        Object::Builder(held) => {
            held.extend_from_slice(units)?;
            Ok(true)
        }
        _ => Ok(false),
    }
}

/// An exception gets another message and cause.
fn set_thrown(world: &mut World, number: usize, message: Value, cause: Value) -> Answer
    ensures { Changes result world.old world.new (λ w. acted w (SetsThrown number message cause)) }
{
    if number >= world.heap.len() {
        return Answer::NoAnswer;
    }
    if set_throwing(&mut world.heap[number], message, cause) {
        Answer::Gives(None)
    } else {
        Answer::NoAnswer
    }
}

/// It says whether the object is an instance.
fn set_throwing(object: &mut Object, message: Value, cause: Value) -> bool
    ensures { SetsThrowing result object.old object.new message cause }
{
    match object {
        Object::Instance(instance) => {
            instance.message = message;
            instance.cause = cause;
            true
        }
        _ => false,
    }
}
