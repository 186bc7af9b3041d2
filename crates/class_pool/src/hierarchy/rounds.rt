// The rounds of tests.
ghost use Rattle.std.specs.Prelude.{◌≡◌, ◌++◌, IfOk, codes};
ghost use Rattle.std.specs.List.{list_any};
ghost use Rattle.std.specs.Option.{is_none};
ghost use Rattle.jv_base.specs.Names.{is_text};
ghost use Rattle.jv_base.specs.Outcome.{IsDue};
ghost use Rattle.class_pool.specs.Faults.{is_super_missing, is_super_wrong, is_wrong_interface, is_wrong_superclass};
ghost use Rattle.class_pool.specs.Faults.{name_fault, name_faults, super_fault, super_faults};
ghost use Rattle.class_pool.specs.Hierarchy.{class_named};

use crate::set::kind::kind_in;
use crate::set::lookup::ClassesByName;
use crate::{NamedClass, PoolFault, PoolKind};
use bitflags::Flags;
use class_model::Class;
use jv_base::{Access, Items, M, Name, Or, Text};
use lib_table::LibKind;

/// The first round: names.
pub(crate) fn check_names(files: &Items<NamedClass>) -> Result<(), Or<PoolFault>>
    ensures { IsDue result (name_faults files.now) }
{
    for file in files.as_slice() {
        if let Some(kind) = name_kind(file) {
            return Err(Or::Fault(fault_at(&file.class, kind)?));
        }
    }
    Ok(())
}

/// The second round: direct supertypes.
pub(crate) fn check_supertypes(set: &ClassesByName) -> Result<(), Or<PoolFault>>
    ensures { IsDue result (super_faults set.now) }
{
    for class in set.classes.as_slice() {
        if let Some(kind) = super_kind(set, class) {
            return Err(Or::Fault(fault_at(class, kind)?));
        }
    }
    Ok(())
}

pub(crate) fn fault_at(class: &Class, kind: PoolKind) -> M<PoolFault>
    ensures { IfOk result (λ f. f ≡ record { class = class.now.name; kind = kind }) }
{
    Ok(PoolFault {
        class: class.name.clone()?,
        kind,
    })
}

fn name_kind(file: &NamedClass) -> Option<PoolKind>
    ensures { result ≡ name_fault file.now }
{
    if !is_path_of(&file.path, &file.class.name) {
        return Some(PoolKind::NameMismatch);
    }
    if file.class.name.as_bytes().starts_with(b"java/") {
        return Some(PoolKind::LibraryName);
    }
    None
}

fn is_path_of(path: &Text, name: &Name) -> bool
    ensures { result ≡ is_text path.now (name.now ++ codes ".class") }
{
    match path.as_bytes().strip_prefix(name.as_bytes()) {
        Some(rest) => rest == b".class".as_slice(),
        None => false,
    }
}

fn super_kind(set: &ClassesByName, class: &Class) -> Option<PoolKind>
    ensures { result ≡ super_fault set.now class.now }
{
    if lacks_supertype(set, class) {
        return Some(PoolKind::SuperMissing);
    }
    if has_wrong_supertype(set, class) {
        return Some(PoolKind::SuperKind);
    }
    None
}

fn lacks_supertype(set: &ClassesByName, class: &Class) -> bool
    ensures { result ≡ is_super_missing set.now class.now }
{
    is_missing(set, &class.super_name) || some_missing(set, class.interfaces.as_slice())
}

fn some_missing(set: &ClassesByName, names: &[Name]) -> bool
    ensures { result ≡ list_any (λ name. is_none (class_named set.now name)) names.now }
{
    names.iter().any(|name| is_missing(set, name))
}

fn is_missing(set: &ClassesByName, name: &Name) -> bool
    ensures { result ≡ is_none (class_named set.now name.now) }
{
    set.find(name).is_none()
}

fn has_wrong_supertype(set: &ClassesByName, class: &Class) -> bool
    ensures { result ≡ is_super_wrong set.now class.now }
{
    has_wrong_superclass(set, class)
        || some_is_no_interface(set, class.interfaces.as_slice())
        || class.flags.contains(Access::INTERFACE)
            && class.super_name.as_str() != "java/lang/Object"
}

fn has_wrong_superclass(set: &ClassesByName, class: &Class) -> bool
    ensures { result ≡ is_wrong_superclass set.now class.now }
{
    match set.find(&class.super_name) {
        Some(id) => !matches!(kind_in(set, id), LibKind::Open),
        None => false,
    }
}

fn some_is_no_interface(set: &ClassesByName, names: &[Name]) -> bool
    ensures { result ≡ list_any (is_wrong_interface set.now) names.now }
{
    names.iter().any(|name| is_no_interface(set, name))
}

fn is_no_interface(set: &ClassesByName, name: &Name) -> bool
    ensures { result ≡ is_wrong_interface set.now name.now }
{
    match set.find(name) {
        Some(id) => !matches!(kind_in(set, id), LibKind::Interface),
        None => false,
    }
}
