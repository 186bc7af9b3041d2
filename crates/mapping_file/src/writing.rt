// Writing a mapping file.
ghost use Rattle.std.specs.Prelude.{◌≡◌, ℕ, List, [], ◌∷◌, ◌++◌, codes, IfOk, OnOk, Ok};
ghost use Rattle.std.specs.List.{flat_map};
ghost use Rattle.mapping_file.specs.Limited.{text_within};
ghost use Rattle.mapping_file.specs.bodies.Pushed.{IsPushed};
ghost use Rattle.mapping_file.specs.MapLines.{class_line_text, field_line_text, method_line_text, range_text};
ghost use Rattle.mapping_file.specs.MapReading.{read_mapping};
ghost use Rattle.mapping_file.specs.Mappings.{IsMapping, Reading, class_lines, ended_line, mapping_text};

use crate::{MapClass, MapField, MapMethod, Mapping, Range};
use jv_base::{Bytes, Items, M, Name};
use std::alloc::Global;
use text_lines::{push_class, push_method, push_number, push_type};

/// The text of a mapping: for each class its line, then those of its fields, then those of its methods.
pub fn write_mapping(alloc: Global, map: &Mapping) -> M<Bytes>
    ensures written { IfOk result (λ bytes. bytes ≡ mapping_text map.now) }
    ensures read_back { IsMapping map.now → IfOk result (λ bytes. read_mapping bytes ≡ Ok map.now) }
    ensures again { (text : List ℕ) → Reading text map.now → IfOk result (λ bytes. read_mapping bytes ≡ Ok map.now) }
{
    let mut out = Vec::new(alloc);
    push_mapping(&mut out, map)?;
    Ok(Items::from_vec(out))
}

#[tactic(auto, unfolding(crate::specs::Mappings::mapping_text))]
fn push_mapping(out: &mut Vec<u8>, map: &Mapping) -> M<()>
    ensures { OnOk result (out.new.items ≡ out.old.items ++ mapping_text map.now) }
{
    for class in map.classes.as_slice() {
        push_class_lines(out, class)?;
    }
    Ok(())
}

fn push_class_lines(out: &mut Vec<u8>, class: &MapClass) -> M<()>
    ensures { OnOk result (out.new.items ≡ out.old.items ++ flat_map ended_line (class_lines class.now)) }
{
    push_class_line(out, &class.old, &class.new)?;
    push_field_lines(out, class.fields.as_slice())?;
    push_method_lines(out, class.methods.as_slice())
}

/// The text of a mapping, if it has at most so many bytes; no more is made of a longer one than its first line too
/// many.
pub fn write_mapping_within(alloc: Global, map: &Mapping, limit: usize) -> M<Option<Bytes>>
    ensures { IfOk result (λ text. text ≡ text_within limit map.now) }
{
    let mut out = Vec::new(alloc);
    push_within(&mut out, map, limit)?;
    if out.len() > limit {
        return Ok(None);
    }
    Ok(Some(Items::from_vec(out)))
}

/// Appends the lines of a mapping, up to the first one with which the text is longer than the limit.
#[tactic(auto, unfolding(crate::specs::Mappings::mapping_text))]
fn push_within(out: &mut Vec<u8>, map: &Mapping, limit: usize) -> M<()>
    ensures { OnOk result (IsPushed limit out.old.items (mapping_text map.now) out.new.items) }
{
    for class in map.classes.as_slice() {
        if out.len() > limit {
            return Ok(());
        }
        push_class_within(out, class, limit)?;
    }
    Ok(())
}

/// The same of the lines of a class.
fn push_class_within(out: &mut Vec<u8>, class: &MapClass, limit: usize) -> M<()>
    ensures { OnOk result (IsPushed limit out.old.items (flat_map ended_line (class_lines class.now)) out.new.items) }
{
    push_class_line(out, &class.old, &class.new)?;
    push_fields_within(out, class.fields.as_slice(), limit)?;
    push_methods_within(out, class.methods.as_slice(), limit)
}

/// The same of the lines of fields.
fn push_fields_within(out: &mut Vec<u8>, fields: &[MapField], limit: usize) -> M<()>
    ensures { OnOk result (IsPushed limit out.old.items (flat_map (λ f. field_line_text f ++ 10 ∷ []) fields.now)
        out.new.items) }
{
    for field in fields {
        if out.len() > limit {
            return Ok(());
        }
        push_field_line(out, field)?;
    }
    Ok(())
}

/// The same of the lines of methods.
fn push_methods_within(out: &mut Vec<u8>, methods: &[MapMethod], limit: usize) -> M<()>
    ensures { OnOk result (IsPushed limit out.old.items (flat_map (λ m. method_line_text m ++ 10 ∷ []) methods.now)
        out.new.items) }
{
    for method in methods {
        if out.len() > limit {
            return Ok(());
        }
        push_method_line(out, method)?;
    }
    Ok(())
}

fn push_class_line(out: &mut Vec<u8>, old: &Name, new: &Name) -> M<()>
    ensures { OnOk result (out.new.items ≡ out.old.items ++ (class_line_text old.now new.now ++ 10 ∷ [])) }
{
    push_class(out, old)?;
    out.extend_from_slice(b" -> ")?;
    push_class(out, new)?;
    out.extend_from_slice(b":\n")?;
    Ok(())
}

fn push_field_lines(out: &mut Vec<u8>, fields: &[MapField]) -> M<()>
    ensures { OnOk result (out.new.items ≡ out.old.items ++ flat_map (λ f. field_line_text f ++ 10 ∷ []) fields.now) }
{
    for field in fields {
        push_field_line(out, field)?;
    }
    Ok(())
}

fn push_field_line(out: &mut Vec<u8>, field: &MapField) -> M<()>
    ensures { OnOk result (out.new.items ≡ out.old.items ++ (field_line_text field.now ++ 10 ∷ [])) }
{
    out.extend_from_slice(b"    ")?;
    push_type(out, &field.ty)?;
    out.extend_from_slice(b" ")?;
    out.extend_from_slice(field.old.as_bytes())?;
    push_new_name(out, &field.new)
}

fn push_new_name(out: &mut Vec<u8>, new: &Name) -> M<()>
    ensures { OnOk result (out.new.items ≡ out.old.items ++ (codes " -> " ++ (new.now ++ 10 ∷ []))) }
{
    out.extend_from_slice(b" -> ")?;
    out.extend_from_slice(new.as_bytes())?;
    out.extend_from_slice(b"\n")?;
    Ok(())
}

fn push_method_lines(out: &mut Vec<u8>, methods: &[MapMethod]) -> M<()>
    ensures { OnOk result (out.new.items ≡ out.old.items ++ flat_map (λ m. method_line_text m ++ 10 ∷ []) methods.now) }
{
    for method in methods {
        push_method_line(out, method)?;
    }
    Ok(())
}

fn push_method_line(out: &mut Vec<u8>, method: &MapMethod) -> M<()>
    ensures { OnOk result (out.new.items ≡ out.old.items ++ (method_line_text method.now ++ 10 ∷ [])) }
{
    out.extend_from_slice(b"    ")?;
    push_range(out, method.lines)?;
    push_method(out, &method.ty, &method.old)?;
    push_new_name(out, &method.new)
}

fn push_range(out: &mut Vec<u8>, lines: Option<Range>) -> M<()>
    ensures { OnOk result (out.new.items ≡ out.old.items ++ range_text lines) }
{
    let Some(range) = lines else {
        return Ok(());
    };
    push_number(out, range.first as u64)?;
    out.extend_from_slice(b":")?;
    push_number(out, range.last as u64)?;
    out.extend_from_slice(b":")?;
    Ok(())
}
