// What rules match whose names are to stay (ProGuard manual, "Keep Options").
ghost use Rattle.std.specs.Prelude.{◌≡◌, IfOk};
ghost use Rattle.keep_match.specs.Fixed.{fixed_rows, fixes_names, is_for};
ghost use Rattle.keep_match.specs.bodies.AsFixing.{as_fixing, as_fixings, kind_of};

use crate::as_keeps::as_keep;
use crate::seeds::rows_of;
use class_pool::ClassSet;
use jv_base::{Items, M};
use keep_rules::{Keep, KeepKind, Rules};
use std::alloc::Global;

/// Names that a rule makes stay: those of the classes that it matches, those of the members, or those of the classes in
/// the descriptors of these members.
#[derive(Clone, Copy)]
pub enum Fixes {
    Classes,
    Members,
    DescriptorClasses,
}

/// For each class of a set whether such names of it stay by a rule, and behind this the same for its fields and for its
/// methods. A rule with allowobfuscation makes no name stay; allowshrinking doesn't matter.
///
/// A rule whose class names have no wildcards looks its classes up; another one goes over all classes.
pub fn fixed_rows(
    alloc: Global,
    rules: &Rules,
    set: &ClassSet,
    what: Fixes,
) -> M<Items<Items<bool>>>
    ensures { IfOk result (λ rows. rows ≡ fixed_rows what rules.now set.now) }
{
    let keeps = as_fixings(alloc, rules.keeps.as_slice(), what)?;
    let rows = rows_of(alloc, keeps.as_slice(), set)?;
    Ok(Items::from_vec(rows))
}

/// Those rules by which such names stay, as rules that keep classes.
fn as_fixings(alloc: Global, keeps: &[Keep], what: Fixes) -> M<Items<Keep>>
    ensures { IfOk result (λ copies. copies ≡ as_fixings what keeps.now) }
{
    let mut copies = Items::new(alloc);
    for keep in keeps {
        if fixes_names(what, keep) {
            copies.push(as_fixing(alloc, keep)?)?;
        }
    }
    Ok(copies)
}

fn fixes_names(what: Fixes, keep: &Keep) -> bool
    ensures { result ≡ fixes_names what keep.now }
{
    !keep.allow_obfuscation && is_for(what, keep)
}

fn is_for(what: Fixes, keep: &Keep) -> bool
    ensures { result ≡ is_for what keep.now }
{
    match what {
        Fixes::Classes => !matches!(keep.kind, KeepKind::Members),
        Fixes::Members => true,
        Fixes::DescriptorClasses => keep.descriptor_classes,
    }
}

fn as_fixing(alloc: Global, keep: &Keep) -> M<Keep>
    ensures { IfOk result (λ copy. copy ≡ as_fixing keep.now) }
{
    let mut copy = as_keep(alloc, keep)?;
    copy.kind = kind_of(keep.kind);
    Ok(copy)
}

fn kind_of(kind: KeepKind) -> KeepKind
    ensures { result ≡ kind_of kind }
{
    match kind {
        KeepKind::Keep | KeepKind::Members => KeepKind::Keep,
        KeepKind::WithMembers => KeepKind::WithMembers,
    }
}
