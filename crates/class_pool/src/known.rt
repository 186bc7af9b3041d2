// What is found of each class of a set from what is known of its superclass.
//
// A class is looked at when its superclass is known. In which order that comes is not proved: what isn't known is
// looked for in all superclasses, and only speed rests on it.
ghost use Rattle.std.specs.Prelude.{◌≡◌, ◌<◌, IfOk, IfSome, None, Some, length, slice_index_or};
ghost use Rattle.std.specs.List.{All};
ghost use Rattle.class_pool.specs.declared.id.ClassId.TheVariants.{Prog};
ghost use Rattle.class_pool.specs.Hierarchy.{superclass};

use crate::upwards::Superclasses;
use crate::{ClassId, ClassSet};
use jv_base::M;
use std::alloc::Global;

/// What is known of the class of a number.
pub fn known_at<T: Copy>(known: &[Option<T>], number: u32) -> Option<T>
    ensures { result ≡ slice_index_or known.now number None }
{
    match known.get(number as usize) {
        Some(one) => *one,
        None => None,
    }
}

/// The class and its superclasses in the set up to the first one of which something is known.
pub fn unknown_from<T: Copy>(
    alloc: Global,
    set: &ClassSet,
    known: &[Option<T>],
    number: u32,
) -> M<Vec<u32>>
    requires { number < length set.now }
    ensures { IfOk result (λ unknown. All (λ n. n < length set.now) unknown.items) }
{
    let mut unknown = Vec::new(alloc);
    for class in Superclasses::of(set, ClassId::Prog(number)) {
        match class {
            ClassId::Prog(number) if known_at(known, number).is_none() => unknown.push(number)?,
            _ => return Ok(unknown),
        }
    }
    Ok(unknown)
}

/// The number of the superclass; one of the library has none.
pub fn superclass_number(set: &ClassSet, number: u32) -> Option<u32>
    requires { number < length set.now }
    ensures { IfSome result (λ above. superclass set.now (Prog number) ≡ Some (Prog above)) }
{
    match set.super_of(ClassId::Prog(number)) {
        Some(ClassId::Prog(above)) => Some(above),
        _ => None,
    }
}
