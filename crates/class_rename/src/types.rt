// Names and types (JVMS 4.2, 4.3).
ghost use Rattle.std.specs.Prelude.{◌≡◌, IfOk, OnOk, map};
ghost use Rattle.jv_base.specs.declared.types.Base.TheVariants.{Class};
ghost use Rattle.class_rename.specs.Names.{Names, names_in, or_else};
ghost use Rattle.class_rename.specs.Renamed.{renamed_base, renamed_field_text, renamed_method_text};
ghost use Rattle.class_rename.specs.Renamed.{renamed_method_type, renamed_type, renamed_vtype};

use crate::NewNames;
use crate::each::{Rename, rename_each};
use class_model::VType;
use jv_base::{
    Base, FieldType, M, MethodType, Name, Or, OutOfMemory, Shared, Text, field_text, method_text,
    read_field_type, read_method_type,
};
use std::alloc::Global;

impl Rename for Name {
    ghost renamed = { λ names. names.class };

    fn rename(&mut self, _alloc: Global, names: &NewNames) -> M<()> {
        names.rename_class(self)
    }
}

impl Rename for Base {
    ghost renamed = { renamed_base };

    fn rename(&mut self, _alloc: Global, names: &NewNames) -> M<()> {
        match self {
            Base::Class(name) => names.rename_class(name),
            _ => Ok(()),
        }
    }
}

impl Rename for FieldType {
    ghost renamed = { renamed_type };

    fn rename(&mut self, alloc: Global, names: &NewNames) -> M<()> {
        self.base.rename(alloc, names)
    }
}

impl Rename for MethodType {
    ghost renamed = { renamed_method_type };

    fn rename(&mut self, alloc: Global, names: &NewNames) -> M<()> {
        rename_each(alloc, names, &mut self.args)?;
        if let Some(ty) = &mut self.ret {
            ty.rename(alloc, names)?;
        }
        Ok(())
    }
}

impl Rename for VType {
    ghost renamed = { renamed_vtype };

    fn rename(&mut self, alloc: Global, names: &NewNames) -> M<()> {
        match self {
            VType::Object(ty) => ty.rename(alloc, names),
            _ => Ok(()),
        }
    }
}

/// Puts a type of its own in place of one that others may share, if its class gets another name.
pub(crate) fn rename_shared_type(
    alloc: Global,
    names: &NewNames,
    ty: &mut Shared<FieldType>,
) -> M<()>
    ensures { OnOk result (ty.new ≡ renamed_type (names_in names.now) ty.old) }
{
    if let Some(new) = other_type(names, ty)? {
        *ty = Shared::new(alloc, new)?;
    }
    Ok(())
}

/// What becomes of a type whose class gets another name.
fn other_type(names: &NewNames, ty: &FieldType) -> M<Option<FieldType>>
    ensures { IfOk result (λ new. or_else new ty.now ≡ renamed_type (names_in names.now) ty.now) }
{
    match &ty.base {
        Base::Class(name) => match names.class(name)? {
            Some(name) => Ok(Some(class_type(ty.dims, name))),
            None => Ok(None),
        },
        _ => Ok(None),
    }
}

fn class_type(dims: u8, name: Name) -> FieldType
    ensures { result ≡ record { dims = dims; base = Class name } }
{
    FieldType {
        dims,
        base: Base::Class(name),
    }
}

/// A copy of a type with the new name of its class.
pub(crate) fn renamed_type(names: &NewNames, ty: &FieldType) -> M<FieldType>
    ensures { IfOk result (λ new. new ≡ renamed_type (names_in names.now) ty.now) }
{
    match other_type(names, ty)? {
        Some(new) => Ok(new),
        None => Ok(ty.clone()?),
    }
}

/// No descriptor of this length is read; a class file has room for 65,535 bytes (JVMS 4.4.7).
const TOO_LONG: usize = 4_294_967_295;

/// The descriptor of a field with new names. One that is too long is answered as want of memory.
pub(crate) fn renamed_field_text(alloc: Global, names: &NewNames, text: &Text) -> M<Text>
    ensures { IfOk result (λ new. new ≡ renamed_field_text (names_in names.now) text.now) }
{
    if text.len() >= TOO_LONG {
        return Err(OutOfMemory);
    }
    match read_field_type(alloc, text) {
        Ok(mut ty) => {
            ty.rename(alloc, names)?;
            field_text(alloc, &ty)
        }
        Err(Or::Fault(_)) => Ok(text.clone()?),
        Err(Or::OutOfMemory) => Err(OutOfMemory),
    }
}

/// The same of a method's descriptor.
pub(crate) fn renamed_method_text(alloc: Global, names: &NewNames, text: &Text) -> M<Text>
    ensures { IfOk result (λ new. new ≡ renamed_method_text (names_in names.now) text.now) }
{
    if text.len() >= TOO_LONG {
        return Err(OutOfMemory);
    }
    match read_method_type(alloc, text) {
        Ok(mut ty) => {
            ty.rename(alloc, names)?;
            method_text(alloc, &ty)
        }
        Err(Or::Fault(_)) => Ok(text.clone()?),
        Err(Or::OutOfMemory) => Err(OutOfMemory),
    }
}
