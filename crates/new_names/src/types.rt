// Types, and whether they are others under new names (JVMS 4.3).
ghost use Rattle.std.specs.Prelude.{◌≡◌, ◌↔◌, IfOk, IsTrue, List, ℕ, map, option_map};
ghost use Rattle.class_rename.specs.Renamed.{renamed_base, renamed_field_text, renamed_method_text};
ghost use Rattle.class_rename.specs.Renamed.{renamed_method_type};
ghost use Rattle.class_rename.specs.Renamed.{renamed_type};
ghost use Rattle.jv_base.specs.declared.types.Base.TheVariants as base;
ghost use Rattle.new_names.specs.NewNames.{names_of};

use crate::NewNames;
use jv_base::{
    Base, FieldType, Items, M, MethodType, Name, Or, OutOfMemory, Text, field_text, method_text,
    read_field_type, read_method_type,
};
use std::alloc::Global;

// ---- what has its new name

/// Whether a name is that of a class.
pub fn is_mapped_class(names: &NewNames<'_>, old: &Name, new: &Name) -> bool
    ensures { IsTrue result ↔ ((names_of names.now).class old.now ≡ new.now) }
{
    *names.class(old) == *new
}

/// Whether names are those of classes, in their order.
pub fn are_mapped_classes(names: &NewNames<'_>, old: &[Name], new: &[Name]) -> bool
    ensures { IsTrue result ↔ (map (names_of names.now).class old.now ≡ new.now) }
{
    if old.len() != new.len() {
        return false;
    }
    for index in 0..old.len() {
        if !is_mapped_class(names, &old[index], &new[index]) {
            return false;
        }
    }
    true
}

/// Whether a class name that may be absent is that of a class.
pub(crate) fn is_mapped_option(names: &NewNames<'_>, old: &Option<Name>, new: &Option<Name>) -> bool
    ensures { IsTrue result ↔ (option_map (names_of names.now).class old.now ≡ new.now) }
{
    match (old, new) {
        (Some(old), Some(new)) => is_mapped_class(names, old, new),
        (None, None) => true,
        _ => false,
    }
}

/// Whether a base type is another one under new names.
pub(crate) fn is_mapped_base(names: &NewNames<'_>, old: &Base, new: &Base) -> bool
    ensures { IsTrue result ↔ (renamed_base (names_of names.now) old.now ≡ new.now) }
{
    match old {
        Base::Class(old) => is_mapped_class_base(names, old, new),
        _ => old == new,
    }
}

fn is_mapped_class_base(names: &NewNames<'_>, old: &Name, new: &Base) -> bool
    ensures { IsTrue result ↔ (base.Class ((names_of names.now).class old.now) ≡ new.now) }
{
    match new {
        Base::Class(new) => is_mapped_class(names, old, new),
        _ => false,
    }
}

/// Whether a type is another one under new names.
pub fn is_mapped_type(names: &NewNames<'_>, old: &FieldType, new: &FieldType) -> bool
    ensures { IsTrue result ↔ (renamed_type (names_of names.now) old.now ≡ new.now) }
{
    old.dims == new.dims && is_mapped_base(names, &old.base, &new.base)
}

fn are_mapped_types(names: &NewNames<'_>, old: &[FieldType], new: &[FieldType]) -> bool
    ensures { IsTrue result ↔ (map (renamed_type (names_of names.now)) old.now ≡ new.now) }
{
    if old.len() != new.len() {
        return false;
    }
    for index in 0..old.len() {
        if !is_mapped_type(names, &old[index], &new[index]) {
            return false;
        }
    }
    true
}

fn is_mapped_result(names: &NewNames<'_>, old: &Option<FieldType>, new: &Option<FieldType>) -> bool
    ensures { IsTrue result ↔ (option_map (renamed_type (names_of names.now)) old.now ≡ new.now) }
{
    match (old, new) {
        (Some(old), Some(new)) => is_mapped_type(names, old, new),
        (None, None) => true,
        _ => false,
    }
}

/// Whether a method's type is another one under new names.
pub fn is_mapped_method_type(names: &NewNames<'_>, old: &MethodType, new: &MethodType) -> bool
    ensures { IsTrue result ↔ (renamed_method_type (names_of names.now) old.now ≡ new.now) }
{
    are_mapped_types(names, old.args.as_slice(), new.args.as_slice())
        && is_mapped_result(names, &old.ret, &new.ret)
}

// ---- descriptors

/// No descriptor of this length is read; a class file has room for 65,535 bytes (JVMS 4.4.7).
const TOO_LONG: usize = 4_294_967_295;

/// The descriptor of a field under new names. One that is too long is answered as want of memory.
pub(crate) fn renamed_field_text(alloc: Global, names: &NewNames<'_>, text: &Text) -> M<Text>
    ensures { IfOk result (λ mapped. mapped ≡ renamed_field_text (names_of names.now) text.now) }
{
    if text.len() >= TOO_LONG {
        return Err(OutOfMemory);
    }
    match read_field_type(alloc, text) {
        Ok(ty) => field_text(alloc, &renamed_type(names, &ty)?),
        Err(Or::Fault(_)) => Ok(text.clone()?),
        Err(Or::OutOfMemory) => Err(OutOfMemory),
    }
}

/// The descriptor of a method under new names. One that is too long is answered as want of memory.
pub(crate) fn renamed_method_text(alloc: Global, names: &NewNames<'_>, text: &Text) -> M<Text>
    ensures { IfOk result (λ mapped. mapped ≡ renamed_method_text (names_of names.now) text.now) }
{
    if text.len() >= TOO_LONG {
        return Err(OutOfMemory);
    }
    match read_method_type(alloc, text) {
        Ok(ty) => method_text(alloc, &renamed_method_type(alloc, names, &ty)?),
        Err(Or::Fault(_)) => Ok(text.clone()?),
        Err(Or::OutOfMemory) => Err(OutOfMemory),
    }
}

fn renamed_base(names: &NewNames<'_>, base: &Base) -> M<Base>
    ensures { IfOk result (λ mapped. mapped ≡ renamed_base (names_of names.now) base.now) }
{
    match base {
        Base::Class(name) => Ok(Base::Class(names.class(name).clone()?)),
        _ => Ok(base.clone()?),
    }
}

fn renamed_type(names: &NewNames<'_>, ty: &FieldType) -> M<FieldType>
    ensures { IfOk result (λ mapped. mapped ≡ renamed_type (names_of names.now) ty.now) }
{
    let base = renamed_base(names, &ty.base)?;
    Ok(FieldType {
        dims: ty.dims,
        base,
    })
}

fn mapped_types(alloc: Global, names: &NewNames<'_>, types: &[FieldType]) -> M<Items<FieldType>>
    ensures { IfOk result (λ mapped. mapped ≡ map (renamed_type (names_of names.now)) types.now) }
{
    let mut mapped = Items::new(alloc);
    for ty in types {
        mapped.push(renamed_type(names, ty)?)?;
    }
    Ok(mapped)
}

fn mapped_result(names: &NewNames<'_>, ret: &Option<FieldType>) -> M<Option<FieldType>>
    ensures { IfOk result (λ mapped. mapped ≡ option_map (renamed_type (names_of names.now)) ret.now) }
{
    match ret {
        Some(ty) => Ok(Some(renamed_type(names, ty)?)),
        None => Ok(None),
    }
}

fn renamed_method_type(alloc: Global, names: &NewNames<'_>, ty: &MethodType) -> M<MethodType>
    ensures { IfOk result (λ mapped. mapped ≡ renamed_method_type (names_of names.now) ty.now) }
{
    let ret = mapped_result(names, &ty.ret)?;
    let args = mapped_types(alloc, names, ty.args.as_slice())?;
    Ok(MethodType { args, ret })
}
