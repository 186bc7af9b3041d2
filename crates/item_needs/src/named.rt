// The classes that names, types and descriptors name (JVMS 4.2.1, 4.3).
#![tactic(auto, using(item_numbers::proofs::Gathering::in_turn, item_numbers::proofs::Gathering::nothing))]

ghost use Rattle.std.specs.Prelude.{◌≡◌, OnOk};
ghost use Rattle.std.specs.List.{flat_map};
ghost use Rattle.jv_base.specs.Descriptors.{read_field, read_method};
ghost use Rattle.require_sys.specs.Requires.{base_wants, field_text_wants, method_text_wants, method_type_wants};
ghost use Rattle.require_sys.specs.Requires.{name_wants, type_wants};
ghost use Rattle.item_numbers.specs.bodies.Wanting.{wanting};

use crate::known::TextKind;
use crate::wants::Wants;
use jv_base::{
    Base, FieldType, M, MethodType, Name, Or, OutOfMemory, Text, read_field_type, read_method_type,
};
use std::alloc::Global;

/// The class of a name, if there is one.
pub(crate) fn want_name(wants: &mut Wants<'_>, name: &Name) -> M<()>
    ensures { OnOk result (wants.new ≡ wanting wants.old (name_wants wants.old.classes name.now)) }
{
    if wants.want_known_text(TextKind::Name, name)? {
        return Ok(());
    }
    want_name_and_keep(wants, name)
}

/// The same, which is remembered.
fn want_name_and_keep(wants: &mut Wants<'_>, name: &Name) -> M<()>
    ensures { OnOk result (wants.new ≡ wanting wants.old (name_wants wants.old.classes name.now)) }
{
    let start = wants.count();
    want_class_named(wants, name)?;
    wants.keep_text(start, TextKind::Name, name)
}

fn want_class_named(wants: &mut Wants<'_>, name: &Name) -> M<()>
    ensures { OnOk result (wants.new ≡ wanting wants.old (name_wants wants.old.classes name.now)) }
{
    match wants.set().find(name) {
        Some(class) => wants.want_class(class),
        None => Ok(()),
    }
}

pub(crate) fn want_names(wants: &mut Wants<'_>, names: &[Name]) -> M<()>
    ensures { OnOk result (wants.new ≡ wanting wants.old (flat_map (name_wants wants.old.classes) names.now)) }
{
    for name in names {
        want_name(wants, name)?;
    }
    Ok(())
}

pub(crate) fn want_base(wants: &mut Wants<'_>, base: &Base) -> M<()>
    ensures { OnOk result (wants.new ≡ wanting wants.old (base_wants wants.old.classes base.now)) }
{
    match base {
        Base::Class(name) => want_name(wants, name),
        _ => Ok(()),
    }
}

/// The class of a type, or of the elements of an array type.
pub(crate) fn want_type(wants: &mut Wants<'_>, ty: &FieldType) -> M<()>
    ensures { OnOk result (wants.new ≡ wanting wants.old (type_wants wants.old.classes ty.now)) }
{
    want_base(wants, &ty.base)
}

fn want_types(wants: &mut Wants<'_>, types: &[FieldType]) -> M<()>
    ensures { OnOk result (wants.new ≡ wanting wants.old (flat_map (type_wants wants.old.classes) types.now)) }
{
    for ty in types {
        want_type(wants, ty)?;
    }
    Ok(())
}

/// The classes of the result and of the parameters of a method.
pub(crate) fn want_method_type(wants: &mut Wants<'_>, ty: &MethodType) -> M<()>
    ensures { OnOk result (wants.new ≡ wanting wants.old (method_type_wants wants.old.classes ty.now)) }
{
    if let Some(ret) = &ty.ret {
        want_type(wants, ret)?;
    }
    want_types(wants, ty.args.as_slice())
}

/// No descriptor of this length is read; a class file has room for 65,535 bytes (JVMS 4.4.7).
const TOO_LONG: usize = 4_294_967_295;

/// The class in the descriptor of a field. One that is too long is answered as want of memory.
pub(crate) fn want_field_text(alloc: Global, wants: &mut Wants<'_>, text: &Text) -> M<()>
    ensures { OnOk result (wants.new
        ≡ wanting wants.old (field_text_wants wants.old.classes (read_field text.now))) }
{
    if wants.want_known_text(TextKind::Field, text)? {
        return Ok(());
    }
    want_field_and_keep(alloc, wants, text)
}

/// The same, which is remembered.
fn want_field_and_keep(alloc: Global, wants: &mut Wants<'_>, text: &Text) -> M<()>
    ensures { OnOk result (wants.new
        ≡ wanting wants.old (field_text_wants wants.old.classes (read_field text.now))) }
{
    let start = wants.count();
    want_field_read(alloc, wants, text)?;
    wants.keep_text(start, TextKind::Field, text)
}

fn want_field_read(alloc: Global, wants: &mut Wants<'_>, text: &Text) -> M<()>
    ensures { OnOk result (wants.new
        ≡ wanting wants.old (field_text_wants wants.old.classes (read_field text.now))) }
{
    if text.len() >= TOO_LONG {
        return Err(OutOfMemory);
    }
    match read_field_type(alloc, text) {
        Ok(ty) => want_type(wants, &ty),
        Err(Or::Fault(_)) => Ok(()),
        Err(Or::OutOfMemory) => Err(OutOfMemory),
    }
}

/// The classes in the descriptor of a method.
pub(crate) fn want_method_text(alloc: Global, wants: &mut Wants<'_>, text: &Text) -> M<()>
    ensures { OnOk result (wants.new
        ≡ wanting wants.old (method_text_wants wants.old.classes (read_method text.now))) }
{
    if wants.want_known_text(TextKind::Method, text)? {
        return Ok(());
    }
    want_method_and_keep(alloc, wants, text)
}

/// The same, which is remembered.
fn want_method_and_keep(alloc: Global, wants: &mut Wants<'_>, text: &Text) -> M<()>
    ensures { OnOk result (wants.new
        ≡ wanting wants.old (method_text_wants wants.old.classes (read_method text.now))) }
{
    let start = wants.count();
    want_method_read(alloc, wants, text)?;
    wants.keep_text(start, TextKind::Method, text)
}

fn want_method_read(alloc: Global, wants: &mut Wants<'_>, text: &Text) -> M<()>
    ensures { OnOk result (wants.new
        ≡ wanting wants.old (method_text_wants wants.old.classes (read_method text.now))) }
{
    if text.len() >= TOO_LONG {
        return Err(OutOfMemory);
    }
    match read_method_type(alloc, text) {
        Ok(ty) => want_method_type(wants, &ty),
        Err(Or::Fault(_)) => Ok(()),
        Err(Or::OutOfMemory) => Err(OutOfMemory),
    }
}
