// The texts of classes and members.
ghost use Rattle.std.specs.Prelude.{◌≡◌, ◌+◌, ◌<◌, ◌++◌, IfOk, OnOk, Some, codes, length, slice_get, string_bytes};
ghost use Rattle.std.specs.List.{flat_map, join_by};
ghost use Rattle.jv_base.specs.External.{dotted, external_text};
ghost use Rattle.report_text.specs.Spelled.{class_text, field_text, member_texts, method_text, result_text};

use class_model::{Class, Field, Method};
use jv_base::{Base, FieldType, M, Name, Text, external};
use std::alloc::Global;

/// A class name in internal form with dots, as `java.lang.String` (JLS 13.1).
#[tactic(auto, using(crate::proofs::ClassNames::class_spelled))]
pub fn name_text(alloc: Global, name: &Name) -> M<Text>
    ensures { IfOk result (λ text. text ≡ dotted name.now) }
{
    let base = Base::Class(name.clone()?);
    external(alloc, &FieldType { dims: 0, base })
}

/// The name of a class with dots (JLS 13.1).
pub fn class_text(alloc: Global, class: &Class) -> M<Text>
    ensures { IfOk result (λ text. text ≡ class_text class.now) }
{
    name_text(alloc, &class.name)
}

/// The text of a member as a mapping file of ProGuard has it: `int x` of a field, `void main(java.lang.String[])` of a
/// method. The fields are numbered first, then the methods.
pub fn member_text(alloc: Global, class: &Class, member: u32) -> M<Text>
    requires { member < length class.now.fields + length class.now.methods }
    ensures { IfOk result (λ text. slice_get (member_texts class.now) member ≡ Some text) }
{
    let index = member as usize;
    let fields = class.fields.len();
    if index < fields {
        field_text(alloc, &class.fields[index])
    } else {
        method_text(alloc, &class.methods[index - fields])
    }
}

fn field_text(alloc: Global, field: &Field) -> M<Text>
    ensures { IfOk result (λ text. text ≡ field_text field.now) }
{
    let ty = external(alloc, &field.ty)?;
    let (ty, name) = (ty.as_str(), field.name.as_str());
    Ok(Text::from_string(alloc, format!(in alloc; "{ty} {name}")?)?)
}

fn method_text(alloc: Global, method: &Method) -> M<Text>
    ensures { IfOk result (λ text. text ≡ method_text method.now) }
{
    let ret = result_text(alloc, &method.ty.ret)?;
    let args = types_text(alloc, method.ty.args.as_slice())?;
    let (ret, name, args) = (ret.as_str(), method.name.as_str(), args.as_str());
    Ok(Text::from_string(alloc, format!(in alloc; "{ret} {name}({args})")?)?)
}

fn result_text(alloc: Global, ret: &Option<FieldType>) -> M<Text>
    ensures { IfOk result (λ text. text ≡ result_text ret.now) }
{
    match ret {
        Some(ty) => external(alloc, ty),
        None => Ok(Text::from_str(alloc, "void")?),
    }
}

/// The types with commas between them.
fn types_text(alloc: Global, types: &[FieldType]) -> M<String>
    ensures { IfOk result (λ text. string_bytes text ≡ join_by external_text (codes ",") types.now) }
{
    let mut text = String::new(alloc);
    push_types(alloc, &mut text, types)?;
    Ok(text)
}

/// Appends the types with commas between them.
pub fn push_types(alloc: Global, text: &mut String, types: &[FieldType]) -> M<()>
    ensures { OnOk result (string_bytes text.new ≡ string_bytes text.old
        ++ join_by external_text (codes ",") types.now) }
{
    let [first, rest @ ..] = types else {
        return Ok(());
    };
    push_type(alloc, text, first)?;
    for ty in rest {
        text.push_str(",")?;
        push_type(alloc, text, ty)?;
    }
    Ok(())
}

/// Appends a type as Java source spells it.
pub fn push_type(alloc: Global, text: &mut String, ty: &FieldType) -> M<()>
    ensures { OnOk result (string_bytes text.new ≡ string_bytes text.old ++ external_text ty.now) }
{
    let spelled = external(alloc, ty)?;
    text.push_str(spelled.as_str())?;
    Ok(())
}
