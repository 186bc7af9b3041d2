// What a run begins with, by the arguments of its entry.
ghost use Rattle.std.specs.Prelude.{◌≡◌, ◌+◌, ◌++◌, ◌∷◌, [], IfOk, OnOk, length, map};
ghost use Rattle.std.specs.List.{range_with_len};
ghost use Rattle.class_run.specs.Started.{started};
ghost use Rattle.class_run.specs.declared.ended.Arg.TheVariants as arg;
ghost use Rattle.jvm_model.specs.Heap.{Str, string};
ghost use Rattle.jvm_model.specs.Types.{class_type};
ghost use Rattle.jvm_model.specs.Value.{Ref};
ghost use Rattle.run_entry.specs.bodies.Pushing.{Pushes, objects_by, value_by};
ghost use Rattle.run_heap.specs.Worlds.{object_of};

use class_run::Arg;
use jv_base::{Base, FieldType, Items, M, Shared, Text, Units};
use run_heap::Object;
use run_values::Value;
use std::alloc::Global;

/// The objects of the heap after the stream, and the arguments.
#[derive(Drop)]
pub(crate) struct Beginning {
    pub heap: Vec<Object>,
    pub args: Items<Value>,
}

/// The arguments as values: a text is a new string, and texts are new strings and then their array.
pub(crate) fn started(alloc: Global, args: &[Arg]) -> M<Beginning>
    ensures heap { IfOk result (λ s. map object_of s.heap.items ≡ (started args.now).heap) }
    ensures args { IfOk result (λ s. s.args ≡ (started args.now).args) }
{
    let mut heap = Vec::new(alloc);
    let mut values = Items::new(alloc);
    for arg in args {
        let value = push_arg(alloc, &mut heap, arg)?;
        values.push(value)?;
    }
    Ok(Beginning { heap, args: values })
}

/// The objects of an argument, and its value.
fn push_arg(alloc: Global, heap: &mut Vec<Object>, arg: &Arg) -> M<Value>
    ensures { IfOk result (λ value. Pushes value heap.old.items heap.new.items
        (objects_by (1 + length heap.old.items) arg.now) (value_by (1 + length heap.old.items) arg.now)) }
{
    match arg {
        Arg::Int(number) => Ok(Value::int(*number)),
        Arg::Long(number) => Ok(Value::long(*number)),
        Arg::Text(units) => push_text(alloc, heap, units),
        Arg::Texts(texts) => push_texts(alloc, heap, texts.as_slice()),
    }
}

/// A new string, and the reference to it.
fn push_text(alloc: Global, heap: &mut Vec<Object>, units: &Units) -> M<Value>
    ensures { IfOk result (λ value. Pushes value heap.old.items heap.new.items (Str units.now ∷ [])
        (Ref (1 + length heap.old.items))) }
{
    let units = Shared::new(alloc, units.clone()?)?;
    push_object(heap, Object::Text(units))
}

/// One more object, and the reference to it; the stream stands before all of them.
fn push_object(heap: &mut Vec<Object>, object: Object) -> M<Value>
    ensures { IfOk result (λ value. Pushes value heap.old.items heap.new.items (object_of object ∷ [])
        (Ref (1 + length heap.old.items))) }
{
    let number = 1 + heap.len();
    heap.push(object)?;
    Ok(Value::reference(number))
}

/// New strings and then their array, and the reference to that.
fn push_texts(alloc: Global, heap: &mut Vec<Object>, texts: &[Units]) -> M<Value>
    ensures { IfOk result (λ value. Pushes value heap.old.items heap.new.items
        (objects_by (1 + length heap.old.items) (arg.Texts texts.now))
        (value_by (1 + length heap.old.items) (arg.Texts texts.now))) }
{
    let values = push_strings(alloc, heap, texts)?;
    let component = string_type(alloc)?;
    push_object(heap, Object::Array { component, values })
}

fn string_type(alloc: Global) -> M<FieldType>
    ensures { IfOk result (λ ty. ty ≡ class_type string) }
{
    Ok(FieldType {
        dims: 0,
        base: Base::Class(Text::from_str(alloc, "java/lang/String")?),
    })
}

fn push_strings(alloc: Global, heap: &mut Vec<Object>, texts: &[Units]) -> M<Vec<Value>>
    ensures heap { OnOk result (map object_of heap.new.items ≡ map object_of heap.old.items ++ map Str texts.now) }
    ensures values { IfOk result (λ values. values.items
        ≡ map Ref (range_with_len (1 + length heap.old.items) (length texts.now))) }
{
    let mut values = Vec::new(alloc);
    for text in texts {
        let value = push_text(alloc, heap, text)?;
        values.push(value)?;
    }
    Ok(values)
}
