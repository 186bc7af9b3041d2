// Which types fit where others are wanted (JVMS 4.10.1.2).
#![tactic(auto, unfolding(crate::specs::Assignable::is_assignable, crate::specs::Assignable::is_java_assignable))]

ghost use Rattle.std.specs.Prelude.{◌≡◌, IfSome};
ghost use Rattle.std.specs.Cmp.Lexicographic.{pointwise};
ghost use Rattle.class_model.specs.declared.frame.VType.TheVariants as vtype;
ghost use Rattle.class_pool.specs.Hierarchy.{IsClass};
ghost use Rattle.type_verifier.specs.Assignable.{is_above_arrays, is_assignable, is_base_assignable};
ghost use Rattle.type_verifier.specs.Assignable.{is_class_assignable, is_item_assignable, is_java_assignable, reaches};

use crate::hierarchy::Hierarchy;
use crate::stack::Stack;
use crate::types::words_of;
use class_model::VType;
use class_pool::ClassId;
use jv_base::{Base, FieldType, Name};

/// Whether a value of one type fits where one of another type is wanted. Takes no memory.
pub(crate) fn assignable(set: &Hierarchy, from: &VType, to: &VType) -> bool
    ensures { result ≡ is_assignable set.now from.now to.now }
{
    match (from, to) {
        (_, VType::Top)
        | (VType::Int, VType::Int)
        | (VType::Long, VType::Long)
        | (VType::Null, VType::Null | VType::Object(_))
        | (VType::UninitThis, VType::UninitThis) => true,
        (VType::Object(from), VType::Object(to)) => is_java_assignable(set, from, to),
        (VType::Uninit(from), VType::Uninit(to)) => from == to,
        _ => false,
    }
}

/// Whether a value fits where one of this class or array type is wanted.
pub(crate) fn fits_type(set: &Hierarchy, from: &VType, to: &FieldType) -> bool
    ensures { result ≡ is_assignable set.now from.now (vtype.Object to.now) }
{
    match from {
        VType::Null => true,
        VType::Object(from) => is_java_assignable(set, from, to),
        _ => false,
    }
}

/// The same of items of the stack, which have as many words.
#[tactic(auto)]
pub(crate) fn is_item_assignable(set: &Hierarchy, from: &VType, to: &VType) -> bool
    ensures { result ≡ is_item_assignable set.now from.now to.now }
{
    words_of(from) == words_of(to) && assignable(set, from, to)
}

fn is_java_assignable(set: &Hierarchy, from: &FieldType, to: &FieldType) -> bool
    ensures { result ≡ is_java_assignable set.now from.now to.now }
{
    if from.dims == to.dims {
        is_base_assignable(set, &from.base, &to.base)
    } else {
        to.dims < from.dims && is_above_arrays(&to.base)
    }
}

fn is_above_arrays(base: &Base) -> bool
    ensures { result ≡ is_above_arrays base.now }
{
    match base {
        Base::Class(name) => matches!(
            name.as_str(),
            "java/lang/Object" | "java/lang/Cloneable" | "java/io/Serializable"
        ),
        _ => false,
    }
}

fn is_base_assignable(set: &Hierarchy, from: &Base, to: &Base) -> bool
    ensures { result ≡ is_base_assignable set.now from.now to.now }
{
    match (from, to) {
        (Base::Class(from), Base::Class(to)) => is_class_assignable(set, from, to),
        (Base::Boolean, Base::Boolean)
        | (Base::Byte, Base::Byte)
        | (Base::Char, Base::Char)
        | (Base::Short, Base::Short)
        | (Base::Int, Base::Int)
        | (Base::Long, Base::Long)
        | (Base::Float, Base::Float)
        | (Base::Double, Base::Double) => true,
        _ => false,
    }
}

fn is_class_assignable(set: &Hierarchy, from: &Name, to: &Name) -> bool
    ensures { result ≡ is_class_assignable set.now from.now to.now }
{
    from == to || reaches(set, &set.find(from), &set.find(to))
}

/// Whether a class that is there is an interface, or another one or a superclass of it.
fn reaches(set: &Hierarchy, from: &Option<ClassId>, to: &Option<ClassId>) -> bool
    requires from { IfSome from.now (IsClass set.now) }
    requires to { IfSome to.now (IsClass set.now) }
    ensures { result ≡ reaches set.now from.now to.now }
{
    match (from, to) {
        (_, None) => false,
        (None, Some(to)) => set.is_interface(*to),
        (Some(from), Some(to)) => set.is_interface(*to) || set.is_below(*from, *to),
    }
}

/// Whether each of some locals fits that in its place.
#[tactic(auto)]
pub(crate) fn are_assignable(set: &Hierarchy, from: &[VType], to: &[VType]) -> bool
    ensures { result ≡ pointwise (is_assignable set.now) from.now to.now }
{
    if from.len() != to.len() {
        return false;
    }
    for index in 0..from.len() {
        if !assignable(set, &from[index], &to[index]) {
            return false;
        }
    }
    true
}

/// The same of the items of stacks, both from the bottom or both from the top.
#[tactic(auto)]
fn are_items_assignable(set: &Hierarchy, from: &[VType], to: &[VType]) -> bool
    ensures { result ≡ pointwise (is_item_assignable set.now) from.now to.now }
{
    if from.len() != to.len() {
        return false;
    }
    for index in 0..from.len() {
        if !is_item_assignable(set, &from[index], &to[index]) {
            return false;
        }
    }
    true
}

/// The same of two stacks.
#[tactic(auto)]
pub(crate) fn is_stack_assignable(set: &Hierarchy, from: &Stack, to: &Stack) -> bool
    ensures { result ≡ pointwise (is_item_assignable set.now) from.now to.now }
{
    are_items_assignable(set, from.from_bottom(), to.from_bottom())
}
