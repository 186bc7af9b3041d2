// Arrays of several dimensions (JVMS 6.5.multianewarray).
ghost use Rattle.std.specs.Prelude.{◌≡◌, ◌+◌, ◌*◌, ◌++◌, [], ◌∷◌, IfOk, OnOk, int_lt, length, map, pos, replicate};
ghost use Rattle.std.specs.Int.RustNames.{unsigned_abs};
ghost use Rattle.std.specs.List.{list_any, range_with_len};
ghost use Rattle.jvm_model.specs.Arrays.{arrays_from, blank_array, new_arrays, references_from};
ghost use Rattle.jvm_model.specs.Heap.{Array};
ghost use Rattle.jvm_model.specs.Types.{component_of};
ghost use Rattle.run_heap.specs.Answers.{Changes};
ghost use Rattle.run_heap.specs.bodies.Levels.{GoesOn};
ghost use Rattle.run_heap.specs.Worlds.{object_of};

use crate::arrays::blank_array;
use crate::{Answer, Object, World};
use jv_base::{FieldType, M, OutOfMemory};
use run_library::Exception;
use run_values::Value;
use std::alloc::Global;

/// New arrays of a type, with so many components in each of their first dimensions; none is made where a size is
/// negative (JVMS 6.5.multianewarray).
pub fn new_arrays(alloc: Global, world: &mut World, ty: &FieldType, sizes: &[i32]) -> M<Answer>
    ensures { IfOk result (λ a. Changes a world.old world.new (λ w. new_arrays w ty.now sizes.now)) }
{
    if has_negative(sizes) {
        return Ok(Answer::Raises(Exception::NegativeSize));
    }
    let reference = Value::reference(world.heap.len());
    push_arrays(alloc, &mut world.heap, ty, sizes)?;
    Ok(Answer::Gives(Some(reference)))
}

fn has_negative(sizes: &[i32]) -> bool
    ensures { result ≡ list_any (λ z. int_lt z (pos 0)) sizes.now }
{
    for size in sizes {
        if *size < 0 {
            return true;
        }
    }
    false
}

/// The component type of an array type (JVMS 2.4).
fn component_of(ty: &FieldType) -> M<FieldType>
    ensures { IfOk result (λ component. component ≡ component_of ty.now) }
{
    Ok(FieldType {
        dims: ty.dims.saturating_sub(1),
        base: ty.base.clone()?,
    })
}

/// So many arrays of a type are to be made.
#[derive(Drop)]
struct Level {
    ty: FieldType,
    count: usize,
}

/// Appends an array of a type, and behind it its components.
fn push_arrays(alloc: Global, heap: &mut Vec<Object>, ty: &FieldType, sizes: &[i32]) -> M<()>
    ensures { OnOk result (map object_of heap.new.items ≡ map object_of heap.old.items
        ++ arrays_from (length heap.old.items) 1 ty.now (map unsigned_abs sizes.now)) }
{
    let mut level = Level {
        ty: ty.clone()?,
        count: 1,
    };
    let mut at = 0;
    while at < sizes.len() {
        let size = sizes[at].unsigned_abs() as usize;
        at += 1;
        push_next(alloc, heap, &mut level, size, at < sizes.len())?;
    }
    Ok(())
}

/// Appends the arrays of a level, which have so many components; it says whether these are arrays that follow.
fn push_next(
    alloc: Global,
    heap: &mut Vec<Object>,
    level: &mut Level,
    size: usize,
    has_more: bool,
) -> M<()>
    ensures { OnOk result (GoesOn heap.old.items heap.new.items level.old level.new size has_more) }
{
    let component = component_of(&level.ty)?;
    if !has_more {
        return push_blank(alloc, heap, &component, level.count, size);
    }
    push_level(alloc, heap, &component, level.count, size)?;
    let Some(count) = level.count.checked_mul(size) else {
        return Err(OutOfMemory);
    };
    *level = Level {
        ty: component,
        count,
    };
    Ok(())
}

/// Appends so many arrays of so many components, with default values.
fn push_blank(
    alloc: Global,
    heap: &mut Vec<Object>,
    component: &FieldType,
    count: usize,
    size: usize,
) -> M<()>
    ensures { OnOk result (map object_of heap.new.items ≡ map object_of heap.old.items
        ++ replicate count (blank_array component.now size)) }
{
    for _ in 0..count {
        heap.push(blank_array(alloc, component, size)?)?;
    }
    Ok(())
}

/// Appends so many arrays of so many arrays, which follow them.
fn push_level(
    alloc: Global,
    heap: &mut Vec<Object>,
    component: &FieldType,
    count: usize,
    size: usize,
) -> M<()>
    ensures long { OnOk result (length heap.new.items ≡ length heap.old.items + count) }
    ensures same { OnOk result (map object_of heap.new.items ≡ map object_of heap.old.items
        ++ map (λ i. Array component.now (references_from (length heap.old.items + count + i * size) size))
        (range_with_len 0 count)) }
{
    let Some(mut first) = heap.len().checked_add(count) else {
        return Err(OutOfMemory);
    };
    for _ in 0..count {
        heap.push(reference_array(alloc, component, first, size)?)?;
        let Some(next) = first.checked_add(size) else {
            return Err(OutOfMemory);
        };
        first = next;
    }
    Ok(())
}

/// An array of so many references, from an object on.
fn reference_array(alloc: Global, component: &FieldType, first: usize, size: usize) -> M<Object>
    ensures { IfOk result (λ object. object_of object ≡ Array component.now (references_from first size)) }
{
    let component = component.clone()?;
    let values = references(alloc, first, size)?;
    Ok(Object::Array { component, values })
}

/// References to so many objects, from a number on.
fn references(alloc: Global, first: usize, count: usize) -> M<Vec<Value>>
    ensures { IfOk result (λ values. values.items ≡ references_from first count) }
{
    let mut values: Vec<Value> = Vec::with_capacity(alloc, count)?;
    for index in 0..count {
        let Some(number) = first.checked_add(index) else {
            return Err(OutOfMemory);
        };
        values.push(Value::reference(number))?;
    }
    Ok(values)
}
