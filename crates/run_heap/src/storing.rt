// Storing into arrays (JVMS 6.5.iastore, 6.5.lastore, 6.5.aastore, 6.5.bastore, 6.5.castore, 6.5.sastore).
ghost use Rattle.std.specs.Prelude.{◌≡◌, pos, slice_set};
ghost use Rattle.jvm_model.specs.Arrays.{on_array, put_in};
ghost use Rattle.jvm_model.specs.Value as machine;
ghost use Rattle.run_heap.specs.Answers.{Changes};
ghost use Rattle.run_heap.specs.bodies.Storing.{IsStorable, with_component};
ghost use Rattle.run_heap.specs.bodies.Verdicts.{Judges, JudgesComponent};
ghost use Rattle.run_heap.specs.Worlds.{object_of};

use crate::arrays::place;
use crate::casts::is_kin;
use crate::objects::object_at;
use crate::pointed::{Pointed, refers_to};
use crate::{Answer, Object, Shapes, World};
use class_model::Elem;
use jv_base::FieldType;
use run_library::Exception;
use run_values::Value;
use run_values::types::{is_component, stored};

/// Whether a value may be a component of a type: a number, null, or an object of the type; nothing where it refers to
/// no object.
#[tactic(auto, using(crate::proofs::Storable::value_stored, crate::proofs::Pointing::is_null))]
fn is_storable<S: Shapes>(
    shapes: &S,
    world: &World,
    component: &FieldType,
    value: &Value,
) -> Option<bool>
    ensures { IsStorable (S.shape shapes.now) result world.now component.now value.now }
{
    if value.is_null() {
        return Some(true);
    }
    if !value.is_reference() {
        return Some(true);
    }
    is_kin(shapes, world, value, component)
}

/// An array gets another component, as it is kept.
fn set_component(object: &mut Object, at: usize, value: Value)
    ensures { object_of object.new ≡ with_component (object_of object.old) at value }
{
    match object {
        Object::Array { component, values } => {
            let kept = stored(component, value);
            set_value(values, at, kept);
        }
        _ => {}
    }
}

fn set_value(values: &mut Vec<Value>, at: usize, kept: Value)
    ensures { values.new.items ≡ slice_set values.old.items at kept }
{
    if at < values.len() {
        values[at] = kept;
    }
}

/// What storing into an array comes to.
#[derive(Clone, Copy)]
enum Verdict {
    /// The component with an index is set.
    Puts(usize),
    Raises(Exception),
    NoAnswer,
}

/// A value becomes a component of an array, which isn't null; the index is tested before the type (JVMS 6.5.iastore and
/// the like).
pub fn put_at<S: Shapes>(
    shapes: &S,
    world: &mut World,
    elem: Elem,
    array: &Value,
    index: i32,
    value: Value,
) -> Answer
    ensures { Changes result world.old world.new (λ w. on_array w array.now (put_in
        (S.shape shapes.now) w elem index value)) }
{
    match refers_to(array) {
        Pointed::Null => Answer::Raises(Exception::NullPointer),
        Pointed::Object(number) => put_component(shapes, world, elem, number, index, value),
        Pointed::Other => Answer::NoAnswer,
    }
}

#[tactic(auto, using(std::proofs::lemmas::Option::slice_get_within))]
fn put_component<S: Shapes>(
    shapes: &S,
    world: &mut World,
    elem: Elem,
    number: usize,
    index: i32,
    value: Value,
) -> Answer
    ensures { Changes result world.old world.new (λ w. on_array w (machine.Ref number) (put_in
        (S.shape shapes.now) w elem index value)) }
{
    let Some(object) = object_at(world, number) else {
        return Answer::NoAnswer;
    };
    match judge(shapes, world, object, elem, index, &value) {
        Verdict::Puts(at) => {
            set_component(&mut world.heap[number], at, value);
            Answer::Gives(None)
        }
        Verdict::Raises(exception) => Answer::Raises(exception),
        Verdict::NoAnswer => Answer::NoAnswer,
    }
}

fn judge<S: Shapes>(
    shapes: &S,
    world: &World,
    object: &Object,
    elem: Elem,
    index: i32,
    value: &Value,
) -> Verdict
    ensures { Judges (S.shape shapes.now) result world.now (object_of object.now) elem index value.now }
{
    let Object::Array { component, values } = object else {
        return Verdict::NoAnswer;
    };
    if !is_component(elem, component) {
        return Verdict::NoAnswer;
    }
    match place(index) {
        Some(at) => judge_component(shapes, world, component, values.as_slice(), at, value),
        None => Verdict::Raises(Exception::ArrayIndex),
    }
}

fn judge_component<S: Shapes>(
    shapes: &S,
    world: &World,
    component: &FieldType,
    values: &[Value],
    at: usize,
    value: &Value,
) -> Verdict
    ensures { JudgesComponent (S.shape shapes.now) result world.now component.now values.now (pos at) value.now }
{
    if at >= values.len() {
        return Verdict::Raises(Exception::ArrayIndex);
    }
    match is_storable(shapes, world, component, value) {
        Some(true) => Verdict::Puts(at),
        Some(false) => Verdict::Raises(Exception::ArrayStore),
        None => Verdict::NoAnswer,
    }
}
