// What requests are answered before which no class has to be initialised (JVMS 6.5).
ghost use Rattle.std.specs.Prelude.{◌≡◌, IfOk, None};
ghost use Rattle.jvm_model.specs.Answers.{of_some};
ghost use Rattle.jvm_model.specs.Arrays.{new_array};
ghost use Rattle.jvm_model.specs.Fields.{get_field, put_field};
ghost use Rattle.jvm_model.specs.Requests.{answer};
ghost use Rattle.run_heap.specs.Answers.{Answered, Changes};
ghost use Rattle.run_steps.specs.Outcomes.{operands_of, request_of};

use class_model::MemberRef;
use jv_base::{Base, FieldType, M, Name};
use run_heap::{
    Answer, Shapes, World, array_length, call_selected, call_special, cast, get_at, new_array,
    new_arrays, put_at, test,
};
use run_library::Exception;
use run_steps::Request;
use run_values::Value;
use std::alloc::Global;

/// The answer to a method of a class, where no class has to be initialised first.
pub(crate) fn answer<S: Shapes>(
    alloc: Global,
    shapes: &S,
    world: &mut World,
    from: &Name,
    request: Request<'_>,
) -> M<Answer>
    ensures { operands_of request.entry ≡ None → IfOk result (λ a. Changes a world.old world.new
        (λ w. answer (S.shape shapes.now) from.now w (request_of request.entry))) }
{
    match request {
        Request::Known(value) => Ok(Answer::Gives(Some(value))),
        Request::DividesByZero => Ok(Answer::Raises(Exception::Arithmetic)),
        Request::GetField(field, object) => get_field(alloc, shapes, world, field, object),
        Request::PutField(field, object, value) => {
            put_field(alloc, shapes, world, field, object, value)
        }
        Request::CallSpecial(method, operands) => {
            call_special(alloc, shapes, world, from, method, operands)
        }
        Request::CallVirtual(method, operands) => {
            call_selected(alloc, shapes, world, method, operands)
        }
        Request::CallInterface(method, operands) => {
            call_selected(alloc, shapes, world, method, operands)
        }
        Request::NewBaseArray(base, count) => new_base_array(alloc, world, base, count),
        Request::NewArray(component, count) => new_array(alloc, world, component, count),
        Request::NewArrays(ty, sizes) => new_arrays(alloc, world, ty, sizes.as_slice()),
        Request::ArrayLength(array) => Ok(array_length(world, &array)),
        Request::GetAt(elem, array, index) => get_at(world, elem, &array, index),
        Request::PutAt(elem, array, index, value) => {
            Ok(put_at(shapes, world, elem, &array, index, value))
        }
        Request::Cast(ty, object) => cast(shapes, world, &object, ty),
        Request::Test(ty, object) => Ok(test(shapes, world, &object, ty)),
        Request::GetStatic(_) => Ok(Answer::NoAnswer),
        Request::PutStatic(_, _) => Ok(Answer::NoAnswer),
        Request::CallStatic(_, _) => Ok(Answer::NoAnswer),
        Request::New(_) => Ok(Answer::NoAnswer),
    }
}

/// The value of a field of an object (JVMS 6.5.getfield).
fn get_field<S: Shapes>(
    alloc: Global,
    shapes: &S,
    world: &World,
    field: &MemberRef,
    object: Value,
) -> M<Answer>
    ensures { IfOk result (λ a. Answered a world.now
        (λ w. of_some (get_field w object) ((S.shape shapes.now).field field.now))) }
{
    match shapes.field(field)? {
        Some(found) => run_heap::get_field(alloc, world, &object, found.key()),
        None => Ok(Answer::NoAnswer),
    }
}

/// A field of an object gets a value (JVMS 6.5.putfield).
fn put_field<S: Shapes>(
    alloc: Global,
    shapes: &S,
    world: &mut World,
    field: &MemberRef,
    object: Value,
    value: Value,
) -> M<Answer>
    ensures { IfOk result (λ a. Changes a world.old world.new
        (λ w. of_some (put_field w object value) ((S.shape shapes.now).field field.now))) }
{
    match shapes.field(field)? {
        Some(found) => run_heap::put_field(alloc, world, &object, value, found.key()),
        None => Ok(Answer::NoAnswer),
    }
}

/// A new array of a type without dimensions (JVMS 6.5.newarray).
fn new_base_array(alloc: Global, world: &mut World, base: &Base, count: i32) -> M<Answer>
    ensures { IfOk result (λ a. Changes a world.old world.new
        (λ w. new_array w (record { dims = 0; base = base.now }) count)) }
{
    let base = base.clone()?;
    let component = FieldType { dims: 0, base };
    new_array(alloc, world, &component, count)
}
