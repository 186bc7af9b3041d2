// The classes that a class names (JVMS 4.3, 5.4.3.1, 5.4.4).
#![tactic(auto, using(crate::proofs::Least::is_none, crate::proofs::Least::is_one))]

ghost use Rattle.std.specs.Prelude.{◌≡◌, ◌<◌, IfOk, length};
ghost use Rattle.std.specs.List.{flat_map};
ghost use Rattle.jv_base.specs.Descriptors.{read_field, read_method};
ghost use Rattle.link_check.specs.Profile.{base_kinds, field_text_kinds, least, method_text_kinds, method_type_kinds};
ghost use Rattle.link_check.specs.Profile.{name_kinds, type_kinds};

use crate::ProfileKind;
use crate::references::access::is_class_accessible;
use crate::rules::kind_order::{lesser, unless};
use class_pool::{ClassId, ClassSet};
use jv_base::{
    Base, FieldType, M, MethodType, Name, Or, OutOfMemory, Text, read_field_type, read_method_type,
};
use std::alloc::Global;

/// What is wrong with a class that the class with a number names.
pub(crate) fn name_kind(set: &ClassSet, number: u32, name: &Name) -> Option<ProfileKind>
    requires there { number < length set.now }
    ensures { result ≡ least (name_kinds set.now number name.now) }
{
    match set.find(name) {
        Some(class) => {
            let accessible = is_class_accessible(set, ClassId::Prog(number), class);
            unless(accessible, ProfileKind::Inaccessible)
        }
        None => Some(ProfileKind::Unresolved),
    }
}

/// The same of several classes.
pub(crate) fn names_kind(set: &ClassSet, number: u32, names: &[Name]) -> Option<ProfileKind>
    requires there { number < length set.now }
    ensures { result ≡ least (flat_map (name_kinds set.now number) names.now) }
{
    let mut kind = None;
    for name in names {
        kind = lesser(kind, name_kind(set, number, name));
    }
    kind
}

/// What is wrong with a type, or with the type of the elements of an array type.
pub(crate) fn type_kind(set: &ClassSet, number: u32, ty: &FieldType) -> Option<ProfileKind>
    requires there { number < length set.now }
    ensures { result ≡ least (type_kinds set.now number ty.now) }
{
    base_kind(set, number, &ty.base)
}

fn base_kind(set: &ClassSet, number: u32, base: &Base) -> Option<ProfileKind>
    requires there { number < length set.now }
    ensures { result ≡ least (base_kinds set.now number base.now) }
{
    match base {
        Base::Class(name) => name_kind(set, number, name),
        Base::Float | Base::Double => Some(ProfileKind::LeftOutType),
        _ => None,
    }
}

fn types_kind(set: &ClassSet, number: u32, types: &[FieldType]) -> Option<ProfileKind>
    requires there { number < length set.now }
    ensures { result ≡ least (flat_map (type_kinds set.now number) types.now) }
{
    let mut kind = None;
    for ty in types {
        kind = lesser(kind, type_kind(set, number, ty));
    }
    kind
}

/// What is wrong with the types of a method's parameters and of its result.
pub(crate) fn method_type_kind(set: &ClassSet, number: u32, ty: &MethodType) -> Option<ProfileKind>
    requires there { number < length set.now }
    ensures { result ≡ least (method_type_kinds set.now number ty.now) }
{
    let of_arguments = types_kind(set, number, ty.args.as_slice());
    match &ty.ret {
        Some(ret) => lesser(type_kind(set, number, ret), of_arguments),
        None => of_arguments,
    }
}

/// No descriptor of this length is read; a class file has room for 65,535 bytes (JVMS 4.4.7).
const TOO_LONG: usize = 4_294_967_295;

/// What is wrong with the type of a field's descriptor (JVMS 4.3.2). One that is too long is answered as want of
/// memory.
pub(crate) fn field_text_kind(
    alloc: Global,
    set: &ClassSet,
    number: u32,
    text: &Text,
) -> M<Option<ProfileKind>>
    requires there { number < length set.now }
    ensures { IfOk result (λ kind. kind ≡ least (field_text_kinds set.now number (read_field text.now))) }
{
    if text.len() >= TOO_LONG {
        return Err(OutOfMemory);
    }
    match read_field_type(alloc, text) {
        Ok(ty) => Ok(type_kind(set, number, &ty)),
        Err(Or::Fault(_)) => Ok(None),
        Err(Or::OutOfMemory) => Err(OutOfMemory),
    }
}

/// The same of a method's descriptor (JVMS 4.3.3).
pub(crate) fn method_text_kind(
    alloc: Global,
    set: &ClassSet,
    number: u32,
    text: &Text,
) -> M<Option<ProfileKind>>
    requires there { number < length set.now }
    ensures { IfOk result (λ kind. kind ≡ least (method_text_kinds set.now number (read_method text.now))) }
{
    if text.len() >= TOO_LONG {
        return Err(OutOfMemory);
    }
    match read_method_type(alloc, text) {
        Ok(ty) => Ok(method_type_kind(set, number, &ty)),
        Err(Or::Fault(_)) => Ok(None),
        Err(Or::OutOfMemory) => Err(OutOfMemory),
    }
}
