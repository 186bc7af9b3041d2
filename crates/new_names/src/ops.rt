// Instructions and handlers, and whether they are others under new names (JVMS 4.7.3, 6.5).
ghost use Rattle.std.specs.Prelude.{◌≡◌, ◌↔◌, IfOk, IsTrue, None, if◌then◌else◌, map};
ghost use Rattle.class_model.specs.declared.op.Op.TheVariants as op;
ghost use Rattle.class_rename.specs.Renamed.{renamed_base, renamed_field_ref, renamed_handler};
ghost use Rattle.new_names.specs.Mapped.{mapped_ins_if};
ghost use Rattle.class_rename.specs.Renamed.{renamed_method_ref, renamed_op, renamed_type};
ghost use Rattle.new_names.specs.NewNames.{names_of};

use crate::NewNames;
use crate::types::{
    is_mapped_base, is_mapped_class, is_mapped_option, is_mapped_type, renamed_field_text,
    renamed_method_text,
};
use class_model::{Handler, Ins, MemberRef, Op, same_op};
use jv_base::{Base, FieldType, M, Name, Text};
use std::alloc::Global;

// ---- codes

/// Whether instructions are others under new names, with their lines where these are kept and without any elsewhere.
pub fn is_mapped_code(
    alloc: Global,
    names: &NewNames<'_>,
    lines: bool,
    old: &[Ins],
    new: &[Ins],
) -> M<bool>
    ensures { IfOk result (λ same. IsTrue same
        ↔ (map (mapped_ins_if (names_of names.now) lines) old.now ≡ new.now)) }
{
    if old.len() != new.len() {
        return Ok(false);
    }
    for index in 0..old.len() {
        if !is_mapped_ins(alloc, names, lines, &old[index], &new[index])? {
            return Ok(false);
        }
    }
    Ok(true)
}

fn is_mapped_ins(alloc: Global, names: &NewNames<'_>, lines: bool, old: &Ins, new: &Ins) -> M<bool>
    ensures { IfOk result (λ same. IsTrue same ↔ (mapped_ins_if (names_of names.now) lines old.now ≡ new.now)) }
{
    if new.line != line_of(old, lines) {
        return Ok(false);
    }
    is_mapped_op(alloc, names, &old.op, &new.op)
}

/// The line of an instruction, where lines are kept.
fn line_of(ins: &Ins, lines: bool) -> Option<u16>
    ensures { result ≡ (if lines then ins.now.line else None) }
{
    if lines { ins.line } else { None }
}

/// Whether handlers are others under new names.
pub fn is_mapped_handlers(names: &NewNames<'_>, old: &[Handler], new: &[Handler]) -> bool
    ensures { IsTrue result ↔ (map (renamed_handler (names_of names.now)) old.now ≡ new.now) }
{
    if old.len() != new.len() {
        return false;
    }
    for index in 0..old.len() {
        if !is_mapped_handler(names, &old[index], &new[index]) {
            return false;
        }
    }
    true
}

fn is_mapped_handler(names: &NewNames<'_>, old: &Handler, new: &Handler) -> bool
    ensures { IsTrue result ↔ (renamed_handler (names_of names.now) old.now ≡ new.now) }
{
    old.from == new.from
        && old.to == new.to
        && old.entry == new.entry
        && is_mapped_option(names, &old.caught, &new.caught)
}

// ---- instructions

fn is_mapped_op(alloc: Global, names: &NewNames<'_>, old: &Op, new: &Op) -> M<bool>
    ensures { IfOk result (λ same. IsTrue same ↔ (renamed_op (names_of names.now) old.now ≡ new.now)) }
{
    match old {
        Op::GetStatic(old) => is_get_static(alloc, names, old, new),
        Op::PutStatic(old) => is_put_static(alloc, names, old, new),
        Op::GetField(old) => is_get_field(alloc, names, old, new),
        Op::PutField(old) => is_put_field(alloc, names, old, new),
        Op::InvokeVirtual(old) => is_invoke_virtual(alloc, names, old, new),
        Op::InvokeSpecial(old) => is_invoke_special(alloc, names, old, new),
        Op::InvokeStatic(old) => is_invoke_static(alloc, names, old, new),
        Op::InvokeInterface(old) => is_invoke_interface(alloc, names, old, new),
        Op::New(old) => Ok(is_new(names, old, new)),
        Op::NewArray(old) => Ok(is_new_array(names, old, new)),
        Op::ANewArray(old) => Ok(is_a_new_array(names, old, new)),
        Op::CheckCast(old) => Ok(is_check_cast(names, old, new)),
        Op::InstanceOf(old) => Ok(is_instance_of(names, old, new)),
        Op::MultiNewArray(old, dims) => Ok(is_multi_new_array(names, old, *dims, new)),
        _ => Ok(same_op(old, new)),
    }
}

fn is_get_static(alloc: Global, names: &NewNames<'_>, old: &MemberRef, new: &Op) -> M<bool>
    ensures { IfOk result (λ same. IsTrue same
        ↔ (op.GetStatic (renamed_field_ref (names_of names.now) old.now) ≡ new.now)) }
{
    match new {
        Op::GetStatic(new) => is_mapped_field_ref(alloc, names, old, new),
        _ => Ok(false),
    }
}

fn is_put_static(alloc: Global, names: &NewNames<'_>, old: &MemberRef, new: &Op) -> M<bool>
    ensures { IfOk result (λ same. IsTrue same
        ↔ (op.PutStatic (renamed_field_ref (names_of names.now) old.now) ≡ new.now)) }
{
    match new {
        Op::PutStatic(new) => is_mapped_field_ref(alloc, names, old, new),
        _ => Ok(false),
    }
}

fn is_get_field(alloc: Global, names: &NewNames<'_>, old: &MemberRef, new: &Op) -> M<bool>
    ensures { IfOk result (λ same. IsTrue same
        ↔ (op.GetField (renamed_field_ref (names_of names.now) old.now) ≡ new.now)) }
{
    match new {
        Op::GetField(new) => is_mapped_field_ref(alloc, names, old, new),
        _ => Ok(false),
    }
}

fn is_put_field(alloc: Global, names: &NewNames<'_>, old: &MemberRef, new: &Op) -> M<bool>
    ensures { IfOk result (λ same. IsTrue same
        ↔ (op.PutField (renamed_field_ref (names_of names.now) old.now) ≡ new.now)) }
{
    match new {
        Op::PutField(new) => is_mapped_field_ref(alloc, names, old, new),
        _ => Ok(false),
    }
}

fn is_invoke_virtual(alloc: Global, names: &NewNames<'_>, old: &MemberRef, new: &Op) -> M<bool>
    ensures { IfOk result (λ same. IsTrue same
        ↔ (op.InvokeVirtual (renamed_method_ref (names_of names.now) old.now) ≡ new.now)) }
{
    match new {
        Op::InvokeVirtual(new) => is_mapped_method_ref(alloc, names, old, new),
        _ => Ok(false),
    }
}

fn is_invoke_special(alloc: Global, names: &NewNames<'_>, old: &MemberRef, new: &Op) -> M<bool>
    ensures { IfOk result (λ same. IsTrue same
        ↔ (op.InvokeSpecial (renamed_method_ref (names_of names.now) old.now) ≡ new.now)) }
{
    match new {
        Op::InvokeSpecial(new) => is_mapped_method_ref(alloc, names, old, new),
        _ => Ok(false),
    }
}

fn is_invoke_static(alloc: Global, names: &NewNames<'_>, old: &MemberRef, new: &Op) -> M<bool>
    ensures { IfOk result (λ same. IsTrue same
        ↔ (op.InvokeStatic (renamed_method_ref (names_of names.now) old.now) ≡ new.now)) }
{
    match new {
        Op::InvokeStatic(new) => is_mapped_method_ref(alloc, names, old, new),
        _ => Ok(false),
    }
}

fn is_invoke_interface(alloc: Global, names: &NewNames<'_>, old: &MemberRef, new: &Op) -> M<bool>
    ensures { IfOk result (λ same. IsTrue same
        ↔ (op.InvokeInterface (renamed_method_ref (names_of names.now) old.now) ≡ new.now)) }
{
    match new {
        Op::InvokeInterface(new) => is_mapped_method_ref(alloc, names, old, new),
        _ => Ok(false),
    }
}

fn is_new(names: &NewNames<'_>, old: &Name, new: &Op) -> bool
    ensures { IsTrue result ↔ (op.New ((names_of names.now).class old.now) ≡ new.now) }
{
    match new {
        Op::New(new) => is_mapped_class(names, old, new),
        _ => false,
    }
}

fn is_new_array(names: &NewNames<'_>, old: &Base, new: &Op) -> bool
    ensures { IsTrue result ↔ (op.NewArray (renamed_base (names_of names.now) old.now) ≡ new.now) }
{
    match new {
        Op::NewArray(new) => is_mapped_base(names, old, new),
        _ => false,
    }
}

fn is_a_new_array(names: &NewNames<'_>, old: &FieldType, new: &Op) -> bool
    ensures { IsTrue result ↔ (op.ANewArray (renamed_type (names_of names.now) old.now) ≡ new.now) }
{
    match new {
        Op::ANewArray(new) => is_mapped_type(names, old, new),
        _ => false,
    }
}

fn is_check_cast(names: &NewNames<'_>, old: &FieldType, new: &Op) -> bool
    ensures { IsTrue result ↔ (op.CheckCast (renamed_type (names_of names.now) old.now) ≡ new.now) }
{
    match new {
        Op::CheckCast(new) => is_mapped_type(names, old, new),
        _ => false,
    }
}

fn is_instance_of(names: &NewNames<'_>, old: &FieldType, new: &Op) -> bool
    ensures { IsTrue result ↔ (op.InstanceOf (renamed_type (names_of names.now) old.now) ≡ new.now) }
{
    match new {
        Op::InstanceOf(new) => is_mapped_type(names, old, new),
        _ => false,
    }
}

fn is_multi_new_array(names: &NewNames<'_>, old: &FieldType, dims: u8, new: &Op) -> bool
    ensures { IsTrue result ↔ (op.MultiNewArray (renamed_type (names_of names.now) old.now) dims ≡ new.now) }
{
    match new {
        Op::MultiNewArray(new, new_dims) => dims == *new_dims && is_mapped_type(names, old, new),
        _ => false,
    }
}

// ---- references

fn is_mapped_field_ref(
    alloc: Global,
    names: &NewNames<'_>,
    old: &MemberRef,
    new: &MemberRef,
) -> M<bool>
    ensures { IfOk result (λ same. IsTrue same ↔ (renamed_field_ref (names_of names.now) old.now ≡ new.now)) }
{
    let ty = renamed_field_text(alloc, names, &old.ty)?;
    Ok(is_same_ref(names, old, names.field(&old.name), &ty, new))
}

fn is_mapped_method_ref(
    alloc: Global,
    names: &NewNames<'_>,
    old: &MemberRef,
    new: &MemberRef,
) -> M<bool>
    ensures { IfOk result (λ same. IsTrue same ↔ (renamed_method_ref (names_of names.now) old.now ≡ new.now)) }
{
    let ty = renamed_method_text(alloc, names, &old.ty)?;
    let method = (old.name.clone()?, old.ty.clone()?);
    Ok(is_same_ref(names, old, names.method(&method), &ty, new))
}

/// Whether a reference names the class of another one under its new name, a member of this name and descriptor.
fn is_same_ref(
    names: &NewNames<'_>,
    old: &MemberRef,
    name: &Name,
    ty: &Text,
    new: &MemberRef,
) -> bool
    ensures { IsTrue result ↔ ((record {
      class = renamed_type (names_of names.now) old.now.class;
      name = name.now;
      ty = ty.now;
      of_interface = old.now.of_interface;
    }) ≡ new.now) }
{
    is_mapped_type(names, &old.class, &new.class)
        && *name == new.name
        && *ty == new.ty
        && old.of_interface == new.of_interface
}
