// Objects and their fields (JVMS 6.5.new, 6.5.getfield, 6.5.putfield).
ghost use Rattle.std.specs.Prelude.{◌≡◌, IfOk, option_copied, slice_get};
ghost use Rattle.jvm_model.specs.Fields.{fresh, get_field, get_from, put_on_heap, put_field};
ghost use Rattle.jvm_model.specs.Heap.{World as Whole};
ghost use Rattle.jvm_model.specs.Value.{Ref};
ghost use Rattle.run_heap.specs.Answers.{Answered, Changes, model_answer};
ghost use Rattle.run_heap.specs.bodies.Puts.{Puts};
ghost use Rattle.run_heap.specs.Worlds.{object_of};

use crate::pointed::{Pointed, refers_to};
use crate::{Answer, Fields, Instance, Key, Object, World, stored_in};
use jv_base::{M, Name};
use run_library::Exception;
use run_values::Value;
use std::alloc::Global;

/// The value of a field of an object, which isn't null (JVMS 6.5.getfield).
pub fn get_field(alloc: Global, world: &World, object: &Value, key: &Key) -> M<Answer>
    ensures { IfOk result (λ a. Answered a world.now (λ w. get_field w object.now key.now)) }
{
    match refers_to(object) {
        Pointed::Null => Ok(Answer::Raises(Exception::NullPointer)),
        Pointed::Object(number) => field_at(alloc, world, number, key),
        Pointed::Other => Ok(Answer::NoAnswer),
    }
}

fn field_at(alloc: Global, world: &World, number: usize, key: &Key) -> M<Answer>
    ensures { IfOk result (λ a. Answered a world.now (λ w. get_field w (Ref number) key.now)) }
{
    match object_at(world, number) {
        Some(object) => field_of(alloc, object, key),
        None => Ok(Answer::NoAnswer),
    }
}

/// The object with a number.
pub(crate) fn object_at(world: &World, number: usize) -> Option<&Object>
    ensures { option_copied result ≡ slice_get world.now.heap.items number }
{
    world.heap.get(number)
}

fn field_of(alloc: Global, object: &Object, key: &Key) -> M<Answer>
    ensures { IfOk result (λ a. (w : Whole) → model_answer a w ≡ get_from w key.now (object_of object.now)) }
{
    match object {
        Object::Instance(instance) => Ok(Answer::Gives(Some(instance.fields.get(alloc, key)?))),
        _ => Ok(Answer::NoAnswer),
    }
}

/// A field of an object, which isn't null, gets a value (JVMS 6.5.putfield).
pub fn put_field(
    alloc: Global,
    world: &mut World,
    object: &Value,
    value: Value,
    key: &Key,
) -> M<Answer>
    ensures { IfOk result (λ a. Changes a world.old world.new (λ w. put_field w object.now value key.now)) }
{
    match refers_to(object) {
        Pointed::Null => Ok(Answer::Raises(Exception::NullPointer)),
        Pointed::Object(number) => put_at(alloc, world, number, value, key),
        Pointed::Other => Ok(Answer::NoAnswer),
    }
}

fn put_at(alloc: Global, world: &mut World, number: usize, value: Value, key: &Key) -> M<Answer>
    ensures { IfOk result (λ a. Changes a world.old world.new (λ w. put_field w (Ref number) value key.now)) }
{
    if number >= world.heap.len() {
        return Ok(Answer::NoAnswer);
    }
    let kept = stored_in(alloc, key, value)?;
    if put_into(&mut world.heap[number], kept, key)? {
        Ok(Answer::Gives(None))
    } else {
        Ok(Answer::NoAnswer)
    }
}

/// An instance has a field set, as it is kept; it says whether the object is one.
fn put_into(object: &mut Object, kept: Value, key: &Key) -> M<bool>
    ensures { IfOk result (λ done. Puts done object.old object.new kept key.now) }
{
    match object {
        Object::Instance(instance) => {
            instance.fields.set(key, kept)?;
            Ok(true)
        }
        _ => Ok(false),
    }
}

/// An object that is made goes to the heap.
pub fn make(world: &mut World, object: Object) -> M<Answer>
    ensures { IfOk result (λ a. Changes a world.old world.new (λ w. put_on_heap w (object_of object))) }
{
    let reference = world.add(object)?;
    Ok(Answer::Gives(Some(reference)))
}

/// An object of a class with default values (JVMS 6.5.new).
pub fn fresh(alloc: Global, class: &Name) -> M<Object>
    ensures { IfOk result (λ object. object_of object ≡ fresh class.now) }
{
    if class.as_str() == "java/lang/StringBuilder" {
        return Ok(Object::Builder(Vec::new(alloc)));
    }
    Ok(Object::Instance(Instance {
        class: class.clone()?,
        fields: Fields::new(alloc),
        message: Value::null(),
        cause: Value::null(),
    }))
}
