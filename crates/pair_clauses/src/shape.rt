// The lines of a mapping, and classes without one.
ghost use Rattle.std.specs.Prelude.{◌≡◌, [], ◌∷◌, ◌++◌, ◌||◌, false, not, None, IfOk, OnOk, List, ℕ, map};
ghost use Rattle.mapping_file.specs.declared.mapping.MapClass.{MapClass};
ghost use Rattle.mapping_file.specs.declared.mapping.MapField.{MapField};
ghost use Rattle.mapping_file.specs.declared.mapping.MapMethod.{MapMethod};
ghost use Rattle.new_names.specs.NewNames.{NameAndType, field_names};
ghost use Rattle.pair_clauses.specs.Finding.{first_place};
ghost use Rattle.pair_clauses.specs.Shape.{field_named, fields_fault, has_class, has_member, is_field_wrong};
ghost use Rattle.pair_clauses.specs.Shape.{is_line_at_fault};
ghost use Rattle.pair_clauses.specs.Shape.{is_method_wrong, is_stray, line_fault, lines_fault, method_named, method_pairs};
ghost use Rattle.pair_clauses.specs.Shape.{methods_fault, shape_fault};
ghost use Rattle.pair_clauses.specs.Shape.{unlined_fault};
ghost use Rattle.pair_clauses.specs.bodies.Lines.{HasLines, SeenFields, SeenMethods};
ghost use Rattle.pair_clauses.specs.bodies.Seen.{HasMembers, HasNames, TellsMethods, TellsPairs};

use crate::place::{Place, class_place, field_place, method_place};
use crate::seen::{SeenMembers, SeenMethodPairs, SeenNames, SeenPairs, name_and_type};
use class_pool::{ClassId, ClassSet};
use jv_base::{M, Name, Text, field_text, method_text};
use mapping_file::{MapClass, MapField, MapMethod, Mapping};
use std::alloc::Global;

/// What the lines that were gone over have told.
#[derive(Drop)]
pub(crate) struct SeenLines {
    old_classes: SeenNames,
    new_classes: SeenNames,
    fields: SeenPairs,
    methods: SeenMethodPairs,
}

/// The first place of MapShape.
pub fn shape_fault(
    alloc: Global,
    input: &ClassSet,
    output: &ClassSet,
    mapping: &Mapping,
) -> M<Option<Place>>
    ensures { IfOk result (λ found. found ≡ shape_fault input.now output.now mapping.now) }
{
    let mut seen = SeenLines {
        old_classes: SeenNames::new(alloc),
        new_classes: SeenNames::new(alloc),
        fields: SeenPairs::new(alloc),
        methods: SeenMethodPairs::new(alloc),
    };
    let found = lines_fault(alloc, input, output, &mut seen, mapping.classes.as_slice())?;
    if found.is_some() {
        return Ok(found);
    }
    unlined_fault(alloc, output, &seen.new_classes)
}

/// The first class without a line.
fn unlined_fault(alloc: Global, output: &ClassSet, seen: &SeenNames) -> M<Option<Place>>
    ensures { (lines : List MapClass) → HasNames seen.now (map (λ l. l.new) lines)
        → IfOk result (λ found. found ≡ first_place (unlined_fault lines) output.now) }
{
    for number in 0..output.len() {
        let class = output.class(number);
        if !seen.has(&class.name) {
            return Ok(Some(class_place(alloc, &class.name)?));
        }
    }
    Ok(None)
}

// ---- lines of classes

/// The first class line that is at fault, by itself, with a line of a member or with the lines before it.
fn lines_fault(
    alloc: Global,
    input: &ClassSet,
    output: &ClassSet,
    seen: &mut SeenLines,
    lines: &[MapClass],
) -> M<Option<Place>>
    ensures found { HasLines seen.old []
        → IfOk result (λ found. found ≡ lines_fault input.now output.now [] lines.now) }
    ensures seen { HasLines seen.old [] → IfOk result (λ found. found ≡ None → HasLines seen.new lines.now) }
{
    for line in lines {
        let found = line_fault(alloc, input, output, seen, line)?;
        if found.is_some() {
            return Ok(found);
        }
    }
    Ok(None)
}

/// A class line and the lines of its members, behind those that were gone over.
fn line_fault(
    alloc: Global,
    input: &ClassSet,
    output: &ClassSet,
    seen: &mut SeenLines,
    line: &MapClass,
) -> M<Option<Place>>
    ensures found { (before : List MapClass) → HasLines seen.old before
        → IfOk result (λ found. found ≡ line_fault input.now output.now before line.now) }
    ensures seen { (before : List MapClass) → HasLines seen.old before
        → IfOk result (λ found. found ≡ None → HasLines seen.new (before ++ line.now ∷ [])) }
{
    if is_line_at_fault(input, output, seen, line)? {
        return Ok(Some(class_place(alloc, &line.old)?));
    }
    let class = &line.old;
    let found = fields_fault(
        alloc,
        input,
        class,
        &mut seen.fields,
        line.fields.as_slice(),
    )?;
    if found.is_some() {
        return Ok(found);
    }
    methods_fault(
        alloc,
        input,
        class,
        &mut seen.methods,
        line.methods.as_slice(),
    )
}

/// Whether a class line names no class of the input or the output, or one that a line before names.
fn is_line_at_fault(
    input: &ClassSet,
    output: &ClassSet,
    seen: &mut SeenLines,
    line: &MapClass,
) -> M<bool>
    ensures fault { (before : List MapClass) → HasLines seen.old before
        → IfOk result (λ fault. fault ≡ is_line_at_fault input.now output.now before line.now) }
    ensures seen { (before : List MapClass) → HasLines seen.old before
        → OnOk result (HasNames seen.new.old_classes (map (λ l. l.old) (before ++ line.now ∷ []))
        × HasNames seen.new.new_classes (map (λ l. l.new) (before ++ line.now ∷ []))) }
    ensures others { OnOk result ((seen.new.fields ≡ seen.old.fields) × (seen.new.methods ≡ seen.old.methods)) }
{
    let is_new_old = seen.old_classes.put(&line.old)?;
    let is_new_new = seen.new_classes.put(&line.new)?;
    let is_old_wrong = is_class_wrong(input, &line.old, is_new_old);
    let is_new_wrong = is_class_wrong(output, &line.new, is_new_new);
    Ok(is_old_wrong || is_new_wrong)
}

/// Whether a set has no class of a name, or the name isn't new.
fn is_class_wrong(set: &ClassSet, name: &Name, is_new: bool) -> bool
    ensures { result ≡ (not (has_class set.now name.now) || not is_new) }
{
    !has_class(set, name) || !is_new
}

/// Whether a set has a class of its own with a name.
fn has_class(set: &ClassSet, name: &Name) -> bool
    ensures { result ≡ has_class set.now name.now }
{
    matches!(set.find(name), Some(ClassId::Prog(_)))
}

// ---- lines of members

/// Whether the class of a name declares a member.
fn has_member(set: &ClassSet, class: &Name, name: &Name, ty: &Text) -> bool
    ensures { result ≡ has_member set.now class.now (name.now, ty.now) }
{
    match set.find(class) {
        Some(ClassId::Prog(number)) => set.declares(ClassId::Prog(number), name, ty).is_some(),
        _ => false,
    }
}

/// Whether a member is none of the class, or one that was seen.
fn is_stray(
    input: &ClassSet,
    class: &Name,
    own: &mut SeenMembers,
    name: &Name,
    ty: &Text,
) -> M<bool>
    ensures stray { (members : List NameAndType) → HasMembers own.old members
        → IfOk result (λ stray. stray ≡ is_stray input.now class.now members (name.now, ty.now)) }
    ensures seen { (members : List NameAndType) → HasMembers own.old members
        → OnOk result (HasMembers own.new (members ++ (name.now, ty.now) ∷ [])) }
{
    let is_new = own.put(name, ty)?;
    Ok(!has_member(input, class, name, ty) || !is_new)
}

/// The first of a class's lines of fields that is at fault.
fn fields_fault(
    alloc: Global,
    input: &ClassSet,
    class: &Name,
    seen: &mut SeenPairs,
    lines: &[MapField],
) -> M<Option<Place>>
    ensures found { (before : List (List ℕ × List ℕ)) → TellsPairs seen.old before
        → IfOk result (λ found. found ≡ fields_fault input.now class.now before [] lines.now) }
    ensures seen { (before : List (List ℕ × List ℕ)) → TellsPairs seen.old before
        → IfOk result (λ found. found ≡ None → TellsPairs seen.new (before ++ field_names lines.now)) }
{
    let mut own = SeenMembers::new(alloc);
    for line in lines {
        if is_field_at_fault(alloc, input, class, seen, &mut own, line)? {
            return Ok(Some(field_place(alloc, class, &line.ty, &line.old)?));
        }
    }
    Ok(None)
}

fn is_field_at_fault(
    alloc: Global,
    input: &ClassSet,
    class: &Name,
    seen: &mut SeenPairs,
    own: &mut SeenMembers,
    line: &MapField,
) -> M<bool>
    ensures wrong { (before : List (List ℕ × List ℕ)) (lines : List MapField)
        → TellsPairs seen.old (before ++ field_names lines) → HasMembers own.old (map field_named lines)
        → IfOk result (λ wrong. wrong ≡ is_field_wrong input.now class.now before lines line.now) }
    ensures seen { (before : List (List ℕ × List ℕ)) (lines : List MapField)
        → TellsPairs seen.old (before ++ field_names lines) → HasMembers own.old (map field_named lines)
        → IfOk result (λ wrong. wrong ≡ false → SeenFields seen.new own.new before (lines ++ line.now ∷ [])) }
{
    let ty = field_text(alloc, &line.ty)?;
    if is_stray(input, class, own, &line.old, &ty)? || seen.clashes(&line.old, &line.new) {
        return Ok(true);
    }
    seen.put(&line.old, &line.new)?;
    Ok(false)
}

/// The first of a class's lines of methods that is at fault.
fn methods_fault(
    alloc: Global,
    input: &ClassSet,
    class: &Name,
    seen: &mut SeenMethodPairs,
    lines: &[MapMethod],
) -> M<Option<Place>>
    ensures found { (before : List (NameAndType × NameAndType)) → TellsMethods seen.old before
        → IfOk result (λ found. found ≡ methods_fault input.now class.now before [] lines.now) }
    ensures seen { (before : List (NameAndType × NameAndType)) → TellsMethods seen.old before
        → IfOk result (λ found. found ≡ None → TellsMethods seen.new (before ++ method_pairs lines.now)) }
{
    let mut own = SeenMembers::new(alloc);
    for line in lines {
        if is_method_at_fault(alloc, input, class, seen, &mut own, line)? {
            return Ok(Some(method_place(alloc, class, &line.ty, &line.old)?));
        }
    }
    Ok(None)
}

fn is_method_at_fault(
    alloc: Global,
    input: &ClassSet,
    class: &Name,
    seen: &mut SeenMethodPairs,
    own: &mut SeenMembers,
    line: &MapMethod,
) -> M<bool>
    ensures wrong { (before : List (NameAndType × NameAndType)) (lines : List MapMethod)
        → TellsMethods seen.old (before ++ method_pairs lines) → HasMembers own.old (map method_named lines)
        → IfOk result (λ wrong. wrong ≡ is_method_wrong input.now class.now before lines line.now) }
    ensures seen { (before : List (NameAndType × NameAndType)) (lines : List MapMethod)
        → TellsMethods seen.old (before ++ method_pairs lines) → HasMembers own.old (map method_named lines)
        → IfOk result (λ wrong. wrong ≡ false → SeenMethods seen.new own.new before (lines ++ line.now ∷ [])) }
{
    let ty = method_text(alloc, &line.ty)?;
    if is_stray(input, class, own, &line.old, &ty)? {
        return Ok(true);
    }
    let old = name_and_type(&line.old, &ty)?;
    let new = name_and_type(&line.new, &ty)?;
    if seen.clashes(&old, &new) {
        return Ok(true);
    }
    seen.put(&old, &new)?;
    Ok(false)
}
