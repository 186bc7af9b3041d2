// What names and references mean, by what is kept, or else found out.
ghost use Rattle.std.specs.Prelude.{◌≡◌, IfOk, IfSome, option_copied};
ghost use Rattle.std.specs.Option.{option_and_then, option_map};
ghost use Rattle.class_pool.specs.Hierarchy.{IsClass, class_named};
ghost use Rattle.run_heap.specs.Targets.{IsTarget, key_found};
ghost use Rattle.jvm_model.specs.Types.{argument_kinds};
ghost use Rattle.run_steps.specs.Arguments.{kinds_told, operand_kinds};
ghost use Rattle.set_program.specs.bodies.Links.{AreLinks, IsKindsRow};
ghost use Rattle.set_program.specs.bodies.Rows.{AllHold};
ghost use Rattle.set_view.specs.ViewOf.{code_at, member_of, shape_of};

use crate::links::{Links, call_row, class_row, code_row, field_row, kinds_row, static_row};
use class_model::{Code, Kind, MemberRef};
use class_pool::{ClassId, ClassSet};
use jv_base::{Items, M, Name, Text};
use link_check::is_below;
use run_heap::{Found, Key, Target};
use run_steps::Kinds;
use std::alloc::Global;

/// The class of a name.
pub(crate) fn class_of(set: &ClassSet, links: &Links, name: &Name) -> Option<ClassId>
    requires { AreLinks set.now links.now }
    ensures is { result ≡ class_named set.now name.now }
    ensures there { IfSome result (IsClass set.now) }
{
    match class_row(links.classes.as_slice(), name) {
        Some(row) => Some(row.id),
        None => set.find(name),
    }
}

/// Whether a class is another one or one of its supertypes is.
pub(crate) fn is_sub(set: &ClassSet, links: &Links, class: &Name, other: &Name) -> bool
    requires { AreLinks set.now links.now }
    ensures { result ≡ (shape_of set.now).is_sub class.now other.now }
{
    match class_of(set, links, class) {
        Some(below) => match class_of(set, links, other) {
            Some(above) => is_below(set, below, above),
            None => false,
        },
        None => false,
    }
}

/// Whether a class is one of the library.
pub(crate) fn is_library(set: &ClassSet, links: &Links, class: &Name) -> bool
    requires { AreLinks set.now links.now }
    ensures { result ≡ (shape_of set.now).is_library class.now }
{
    match class_of(set, links, class) {
        Some(ClassId::Lib(_)) => true,
        Some(ClassId::Prog(_)) => false,
        None => false,
    }
}

/// The field that a reference means.
pub(crate) fn field<'a>(
    alloc: Global,
    set: &ClassSet,
    links: &'a Links,
    r: &MemberRef,
) -> M<Option<Found<'a>>>
    requires { AreLinks set.now links.now }
    ensures { IfOk result (λ found. option_map key_found found ≡ (shape_of set.now).field r.now) }
{
    match field_row(links.fields.as_slice(), r) {
        Some(row) => Ok(kept_key(&row.key)),
        None => Ok(made_key(set_meanings::field(alloc, set, r)?)),
    }
}

fn kept_key(key: &Option<Key>) -> Option<Found<'_>>
    ensures { option_map key_found result ≡ key.now }
{
    match key {
        Some(key) => Some(Found::Kept(key)),
        None => None,
    }
}

fn made_key<'a>(key: Option<Key>) -> Option<Found<'a>>
    ensures { option_map key_found result ≡ key }
{
    match key {
        Some(key) => Some(Found::Made(key)),
        None => None,
    }
}

/// What invokestatic runs.
pub(crate) fn static_target(
    alloc: Global,
    set: &ClassSet,
    links: &Links,
    r: &MemberRef,
) -> M<Option<Target>>
    requires { AreLinks set.now links.now }
    ensures { IfOk result (λ target. IsTarget target ((shape_of set.now).static_target r.now)) }
{
    match static_row(links.statics.as_slice(), r) {
        Some(row) => copied(&row.target),
        None => set_meanings::static_target(alloc, set, r),
    }
}

fn copied(target: &Option<Target>) -> M<Option<Target>>
    ensures { IfOk result (λ copy. copy ≡ target.now) }
{
    match target {
        Some(target) => Ok(Some(target.clone()?)),
        None => Ok(None),
    }
}

/// What invokespecial runs in a class.
pub(crate) fn special_target(
    alloc: Global,
    set: &ClassSet,
    links: &Links,
    from: &Name,
    r: &MemberRef,
) -> M<Option<Target>>
    requires { AreLinks set.now links.now }
    ensures { IfOk result (λ target. IsTarget target ((shape_of set.now).special_target from.now r.now)) }
{
    match call_row(links.specials.as_slice(), from, r) {
        Some(row) => copied(&row.target),
        None => set_meanings::special_target(alloc, set, from, r),
    }
}

/// What invokevirtual and invokeinterface run on a receiver of a class.
pub(crate) fn selected_target(
    alloc: Global,
    set: &ClassSet,
    links: &Links,
    class: &Name,
    r: &MemberRef,
) -> M<Option<Target>>
    requires { AreLinks set.now links.now }
    ensures { IfOk result (λ target. IsTarget target ((shape_of set.now).selected_target class.now r.now)) }
{
    match call_row(links.selections.as_slice(), class, r) {
        Some(row) => copied(&row.target),
        None => set_meanings::selected_target(alloc, set, class, r),
    }
}

/// The code of a method, if it has one.
pub(crate) fn code<'a>(set: &'a ClassSet, links: &Links, key: &Key) -> Option<&'a Code>
    requires { AreLinks set.now links.now }
    ensures { option_copied result ≡ option_and_then (code_at set.now) (member_of set.now key.now) }
{
    match code_row(links.codes.as_slice(), key) {
        Some(row) => set_meanings::code_at(set, &row.member),
        None => set_meanings::code(set, key),
    }
}

/// The computational types of the operands that a descriptor tells.
pub(crate) fn operand_kinds<'a>(
    alloc: Global,
    links: &'a Links,
    has_receiver: bool,
    descriptor: &Text,
) -> M<Option<Kinds<'a>>>
    requires { AllHold IsKindsRow links.now.kinds.items }
    ensures { IfOk result (λ kinds. option_map kinds_told kinds
        ≡ operand_kinds has_receiver (argument_kinds descriptor.now)) }
{
    match kinds_row(links.kinds.as_slice(), descriptor) {
        Some(row) => {
            if has_receiver {
                Ok(kept_kinds(&row.operands))
            } else {
                Ok(kept_kinds(&row.arguments))
            }
        }
        None => Ok(made_kinds(run_steps::operand_kinds(alloc, has_receiver, descriptor)?)),
    }
}

fn kept_kinds(kinds: &Option<Items<Kind>>) -> Option<Kinds<'_>>
    ensures { option_map kinds_told result ≡ kinds.now }
{
    match kinds {
        Some(kinds) => Some(Kinds::Kept(kinds.as_slice())),
        None => None,
    }
}

fn made_kinds<'a>(kinds: Option<Items<Kind>>) -> Option<Kinds<'a>>
    ensures { option_map kinds_told result ≡ kinds }
{
    match kinds {
        Some(kinds) => Some(Kinds::Made(kinds)),
        None => None,
    }
}
