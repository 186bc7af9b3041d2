// Arrays (JVMS 6.5.newarray, 6.5.anewarray, 6.5.arraylength, 6.5.xaload).
ghost use Rattle.std.specs.Prelude.{◌≡◌, ℕ, IfOk, pos, replicate};
ghost use Rattle.jvm_model.specs.Arrays.{blank_array, get_in, length_in, new_array, on_array};
ghost use Rattle.jvm_model.specs.Fields.{put_on_heap};
ghost use Rattle.jvm_model.specs.Heap.{World as Whole};
ghost use Rattle.jvm_model.specs.Types.{default_of};
ghost use Rattle.jvm_model.specs.Value as machine;
ghost use Rattle.run_heap.specs.Answers.{Answered, Changes, model_answer};
ghost use Rattle.run_heap.specs.bodies.Components.{component_in};
ghost use Rattle.run_heap.specs.Worlds.{object_of};
ghost use Rattle.run_library.specs.bodies.Naturals.{IsNatural};

use crate::objects::{make, object_at};
use crate::pointed::{Pointed, refers_to};
use crate::{Answer, Object, World};
use class_model::{Elem, Kind};
use jv_base::{FieldType, M};
use run_library::Exception;
use run_values::Value;
use run_values::numbers::long_to_int;
use run_values::types::{is_component, kind_of};
use std::alloc::Global;

/// The length of an array, which isn't null (JVMS 6.5.arraylength).
pub fn array_length(world: &World, array: &Value) -> Answer
    ensures { Answered result world.now (λ w. on_array w array.now (length_in w)) }
{
    match refers_to(array) {
        Pointed::Null => Answer::Raises(Exception::NullPointer),
        Pointed::Object(number) => length_at(world, number),
        Pointed::Other => Answer::NoAnswer,
    }
}

fn length_at(world: &World, number: usize) -> Answer
    ensures { Answered result world.now (λ w. on_array w (machine.Ref number) (length_in w)) }
{
    match object_at(world, number) {
        Some(object) => length_of(object),
        None => Answer::NoAnswer,
    }
}

fn length_of(object: &Object) -> Answer
    ensures { (w : Whole) (n : ℕ) → model_answer result w ≡ length_in w n (object_of object.now) }
{
    match object {
        Object::Array { values, .. } => Answer::Gives(Some(Value::int(long_to_int(
            values.len() as i64,
        )))),
        _ => Answer::NoAnswer,
    }
}

/// A component of an array, which isn't null (JVMS 6.5.iaload and the like).
pub fn get_at(world: &World, elem: Elem, array: &Value, index: i32) -> M<Answer>
    ensures { IfOk result (λ a. Answered a world.now (λ w. on_array w array.now (get_in w elem index))) }
{
    match refers_to(array) {
        Pointed::Null => Ok(Answer::Raises(Exception::NullPointer)),
        Pointed::Object(number) => component_at(world, elem, number, index),
        Pointed::Other => Ok(Answer::NoAnswer),
    }
}

fn component_at(world: &World, elem: Elem, number: usize, index: i32) -> M<Answer>
    ensures { IfOk result (λ a. Answered a world.now (λ w. on_array w (machine.Ref number) (get_in w elem index))) }
{
    match object_at(world, number) {
        Some(object) => Ok(component_of(object, elem, index)?),
        None => Ok(Answer::NoAnswer),
    }
}

fn component_of(object: &Object, elem: Elem, index: i32) -> M<Answer>
    ensures { IfOk result (λ a. (w : Whole) (n : ℕ) → model_answer a w ≡ get_in w elem index n (object_of object.now)) }
{
    match object {
        Object::Array { component, values } => {
            if is_component(elem, component) {
                component_in(values.as_slice(), index)
            } else {
                Ok(Answer::NoAnswer)
            }
        }
        _ => Ok(Answer::NoAnswer),
    }
}

fn component_in(values: &[Value], index: i32) -> M<Answer>
    ensures { IfOk result (λ a. (w : Whole) → model_answer a w ≡ component_in w values.now index) }
{
    match place(index) {
        Some(at) => component_with(values, at),
        None => Ok(Answer::Raises(Exception::ArrayIndex)),
    }
}

/// The index, unless it is below zero.
pub(crate) fn place(index: i32) -> Option<usize>
    ensures { IsNatural result index }
{
    if index < 0 {
        None
    } else {
        Some(index.unsigned_abs() as usize)
    }
}

#[tactic(auto, using(std::proofs::lemmas::Option::slice_get_past, std::proofs::lemmas::Option::slice_get_within))]
fn component_with(values: &[Value], at: usize) -> M<Answer>
    ensures { IfOk result (λ a. (w : Whole) → model_answer a w ≡ component_in w values.now (pos at)) }
{
    if at >= values.len() {
        return Ok(Answer::Raises(Exception::ArrayIndex));
    }
    Ok(Answer::Gives(Some(values[at].clone()?)))
}

/// A new array of a component type, with default values (JVMS 6.5.newarray, 6.5.anewarray).
pub fn new_array(alloc: Global, world: &mut World, component: &FieldType, count: i32) -> M<Answer>
    ensures { IfOk result (λ a. Changes a world.old world.new (λ w. new_array w component.now count)) }
{
    match place(count) {
        Some(count) => blank_array_made(alloc, world, component, count),
        None => Ok(Answer::Raises(Exception::NegativeSize)),
    }
}

fn blank_array_made(
    alloc: Global,
    world: &mut World,
    component: &FieldType,
    count: usize,
) -> M<Answer>
    ensures { IfOk result (λ a. Changes a world.old world.new (λ w. put_on_heap w (blank_array component.now count))) }
{
    let array = blank_array(alloc, component, count)?;
    make(world, array)
}

/// An array of so many components with default values (JVMS 2.3, 2.4).
pub fn blank_array(alloc: Global, component: &FieldType, count: usize) -> M<Object>
    ensures { IfOk result (λ object. object_of object ≡ blank_array component.now count) }
{
    let component = component.clone()?;
    let values = default_values(alloc, kind_of(&component), count)?;
    Ok(Object::Array { component, values })
}

fn default_values(alloc: Global, kind: Kind, count: usize) -> M<Vec<Value>>
    ensures { IfOk result (λ values. values.items ≡ replicate count (default_of kind)) }
{
    let mut values: Vec<Value> = Vec::with_capacity(alloc, count)?;
    for _ in 0..count {
        values.push(Value::default_of(kind))?;
    }
    Ok(values)
}
