// Names that stay by rules (ProGuard manual, "-keepnames", "includedescriptorclasses", "-dontobfuscate").
ghost use Rattle.std.specs.Prelude.{◌≡◌, ◌++◌, ℕ, List, IfOk, OnOk};
ghost use Rattle.std.specs.List.{list_all};
ghost use Rattle.jv_base.specs.Names.{is_text};
ghost use Rattle.keep_match.specs.Fixed.{fixed_rows};
ghost use Rattle.keep_match.specs.declared.fixed.Fixes.TheVariants as fixes;
ghost use Rattle.fresh_names.specs.Given.{stays_for};
ghost use Rattle.fresh_names.specs.Reserved.{reserved};
ghost use Rattle.fresh_names.specs.declared.taken.Named.TheVariants as named;
ghost use Rattle.rename_map.specs.Fixed.{methods_of_each, names_that_stay, of_each};
ghost use Rattle.rename_map.specs.Names.{AreFixed, AreSame};
ghost use Rattle.rename_map.specs.bodies.Adding.{Adds};
ghost use Rattle.rename_map.specs.bodies.Kinds.{is_for_classes, is_undescribed};
ghost use Rattle.rename_map.specs.declared.gathering.Chosen.TheVariants as choose;

use crate::gathering::{Chosen, gather};
use crate::methods::gather_methods;
use class_pool::ClassSet;
use fresh_names::{Named, TakenMethods, TakenNames, TakenSet};
use jv_base::{Items, M, Name};
use keep_match::{Fixes, fixed_rows};
use keep_rules::{Keep, KeepKind, Rules};
use key_table::KeySet;
use std::alloc::Global;

/// The names that stay by rules, whatever is kept of a set; with `-dontobfuscate` all stay, which is told by none. A
/// class stays that a rule matches which isn't on members alone; a field's name stays everywhere where a rule matches a
/// field of this name, and a method's where one matches a method of this name and descriptor; with
/// includedescriptorclasses so do the classes in its descriptor. A rule with allowobfuscation makes nothing stay.
pub fn fixed_names(alloc: Global, rules: &Rules, input: &ClassSet) -> M<Option<TakenNames>>
    ensures { IfOk result (AreFixed rules.now input.now) }
{
    if !rules.obfuscate {
        return Ok(None);
    }
    let rows = fixed_rows(alloc, rules, input, Fixes::Members)?;
    let classes = fixed_classes(alloc, rules, input, rows.as_slice())?;
    let fields = fixed_fields(alloc, input, rows.as_slice())?;
    let methods = fixed_methods(alloc, input, rows.as_slice())?;
    Ok(Some(TakenNames {
        classes,
        fields,
        methods,
    }))
}

/// The names of classes that stay, by the marks of the members that do.
fn fixed_classes(
    alloc: Global,
    rules: &Rules,
    input: &ClassSet,
    rows: &[Items<bool>],
) -> M<TakenSet>
    requires { rows.now ≡ fixed_rows fixes.Members rules.now input.now }
    ensures { IfOk result (λ taken. AreSame taken (names_that_stay rules.now input.now).classes) }
{
    let mut names = KeySet::new(alloc);
    gather_classes(alloc, rules, input, rows, &mut names)?;
    gather_described(alloc, rules, input, &mut names)?;
    Ok(TakenSet::new(names, Named::Class))
}

/// Adds the names of the classes that rules match. Where no rule is on members alone, these are the classes whose
/// members are marked, and nothing is matched again.
fn gather_classes(
    alloc: Global,
    rules: &Rules,
    input: &ClassSet,
    rows: &[Items<bool>],
    names: &mut KeySet<Name>,
) -> M<()>
    requires { rows.now ≡ fixed_rows fixes.Members rules.now input.now }
    ensures { OnOk result (Adds is_text names.old
        (of_each choose.Class (fixed_rows fixes.Classes rules.now input.now) input.now) names.new) }
{
    if are_on_classes(rules.keeps.as_slice()) {
        return gather(input, rows, Chosen::Class, names);
    }
    let own = fixed_rows(alloc, rules, input, Fixes::Classes)?;
    gather(input, own.as_slice(), Chosen::Class, names)
}

/// Adds the names of the classes in the descriptors of members that rules with includedescriptorclasses match. Where
/// there is no such rule nothing is looked at.
fn gather_described(
    alloc: Global,
    rules: &Rules,
    input: &ClassSet,
    names: &mut KeySet<Name>,
) -> M<()>
    ensures { OnOk result (Adds is_text names.old
        (of_each choose.Described (fixed_rows fixes.DescriptorClasses rules.now input.now) input.now) names.new) }
{
    if are_undescribed(rules.keeps.as_slice()) {
        return Ok(());
    }
    let rows = fixed_rows(alloc, rules, input, Fixes::DescriptorClasses)?;
    gather(input, rows.as_slice(), Chosen::Described, names)
}

/// Whether no rule has includedescriptorclasses.
fn are_undescribed(keeps: &[Keep]) -> bool
    ensures { result ≡ list_all is_undescribed keeps.now }
{
    keeps.iter().all(|keep| is_undescribed(keep))
}

fn is_undescribed(keep: &Keep) -> bool
    ensures { result ≡ is_undescribed keep.now }
{
    !keep.descriptor_classes
}

/// Whether no rule is on members alone.
fn are_on_classes(keeps: &[Keep]) -> bool
    ensures { result ≡ list_all is_for_classes keeps.now }
{
    keeps.iter().all(|keep| is_on_classes(keep))
}

fn is_on_classes(keep: &Keep) -> bool
    ensures { result ≡ is_for_classes keep.now }
{
    match keep.kind {
        KeepKind::Keep | KeepKind::WithMembers => true,
        KeepKind::Members => false,
    }
}

/// The names of fields that stay by marks.
fn fixed_fields(alloc: Global, input: &ClassSet, rows: &[Items<bool>]) -> M<TakenSet>
    ensures { IfOk result (λ taken. AreSame taken (of_each choose.Fields rows.now input.now ++ reserved named.Field)) }
{
    let mut names = KeySet::new(alloc);
    gather(input, rows, Chosen::Fields, &mut names)?;
    Ok(TakenSet::new(names, Named::Field))
}

/// The methods whose names stay by marks.
fn fixed_methods(alloc: Global, input: &ClassSet, rows: &[Items<bool>]) -> M<TakenMethods>
    ensures { IfOk result (λ taken. (d : List ℕ)
        → AreSame (stays_for taken d) (stays_for (methods_of_each rows.now input.now) d)) }
{
    let mut methods = KeySet::new(alloc);
    gather_methods(alloc, input, rows, &mut methods)?;
    Ok(TakenMethods::new(methods))
}
