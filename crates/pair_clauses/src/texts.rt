// Members as a mapping file has them.
ghost use Rattle.std.specs.Prelude.{◌≡◌, ◌++◌, codes, IfOk, OnOk, string_bytes};
ghost use Rattle.std.specs.List.{flat_map};
ghost use Rattle.jv_base.specs.Descriptors.{read_method};
ghost use Rattle.text_lines.specs.Members.{arguments_text, method_text, result_text};
ghost use Rattle.pair_clauses.specs.Places.{described_text, field_text};

use jv_base::{FieldType, M, MethodType, Name, Or, OutOfMemory, Text, read_method_type};
use report_text::{push_type, push_types};
use std::alloc::Global;

/// A field, as `int x`.
pub(crate) fn field_text(alloc: Global, ty: &FieldType, name: &Name) -> M<Text>
    ensures { IfOk result (λ text. text ≡ field_text ty.now name.now) }
{
    let mut text = String::new(alloc);
    push_type(alloc, &mut text, ty)?;
    text.push_str(" ")?;
    text.push_str(name.as_str())?;
    Ok(Text::from_string(alloc, text)?)
}

/// A method, as `int twice(int)`.
pub(crate) fn method_text(alloc: Global, ty: &MethodType, name: &Name) -> M<Text>
    ensures { IfOk result (λ text. text ≡ method_text ty.now name.now) }
{
    let mut text = String::new(alloc);
    push_result(alloc, &mut text, ty)?;
    text.push_str(name.as_str())?;
    push_arguments(alloc, &mut text, ty.args.as_slice())?;
    Ok(Text::from_string(alloc, text)?)
}

/// No descriptor of this length is read; a class file has room for 65,535 bytes (JVMS 4.4.7).
const TOO_LONG: usize = 4_294_967_295;

/// A method by its descriptor; a text that is none stands behind the name. One that is too long is answered as want of
/// memory.
pub fn described_text(alloc: Global, name: &Name, ty: &Text) -> M<Text>
    ensures { IfOk result (λ text. text ≡ described_text name.now ty.now (read_method ty.now)) }
{
    if ty.len() >= TOO_LONG {
        return Err(OutOfMemory);
    }
    match read_method_type(alloc, ty) {
        Ok(ty) => method_text(alloc, &ty, name),
        Err(Or::Fault(_)) => joined(alloc, name, ty),
        Err(Or::OutOfMemory) => Err(OutOfMemory),
    }
}

fn joined(alloc: Global, name: &Name, ty: &Text) -> M<Text>
    ensures { IfOk result (λ text. text ≡ name.now ++ ty.now) }
{
    let mut text = String::new(alloc);
    text.push_str(name.as_str())?;
    text.push_str(ty.as_str())?;
    Ok(Text::from_string(alloc, text)?)
}

fn push_result(alloc: Global, text: &mut String, ty: &MethodType) -> M<()>
    ensures { OnOk result (string_bytes text.new ≡ string_bytes text.old ++ (result_text ty.now.ret ++ codes " ")) }
{
    match &ty.ret {
        Some(ty) => push_type(alloc, text, ty)?,
        None => text.push_str("void")?,
    }
    text.push_str(" ")?;
    Ok(())
}

fn push_arguments(alloc: Global, text: &mut String, types: &[FieldType]) -> M<()>
    ensures { OnOk result (string_bytes text.new
        ≡ string_bytes text.old ++ (codes "(" ++ (arguments_text types.now ++ codes ")"))) }
{
    text.push_str("(")?;
    push_types(alloc, text, types)?;
    text.push_str(")")?;
    Ok(())
}
