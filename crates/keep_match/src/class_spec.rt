// Class specifications (ProGuard manual, "Class Specifications").
ghost use Rattle.std.specs.Prelude.{◌≡◌, ◌<◌, IfOk, length};
ghost use Rattle.std.specs.List.{All, list_any};
ghost use Rattle.class_pool.specs.declared.id.ClassId.TheVariants.{Prog};
ghost use Rattle.class_pool.specs.Found.{name_of};
ghost use Rattle.class_pool.specs.Hierarchy.{IsClass};
ghost use Rattle.class_pool.specs.Walk.{same_class, supers};
ghost use Rattle.keep_match.specs.bodies.Above.{AreKnown, is_met_at, is_other_met};
ghost use Rattle.keep_match.specs.Matches.{class_matches, is_kind_met, matches_but_name, matches_class};
ghost use Rattle.keep_match.specs.Matches.{matches_class_name};

use crate::above::is_above_met;
use crate::filter::{accepts_class, matches_class_name};
use crate::flag_word::{FlagsOf, flags_met};
use bitflags::Flags;
use class_model::Class;
use class_pool::{ClassId, ClassSet, Superclasses};
use jv_base::{Access, M, Text};
use keep_rules::ClassSpec;
use lib_table::lib_name;

/// Whether a class specification matches the class of a number, its members aside (ProGuard manual, "Class
/// Specifications"). A set that was read has no enums, so `enum` matches none.
pub fn class_matches(spec: &ClassSpec, set: &ClassSet, class: u32) -> M<bool>
    requires { class < length set.now }
    ensures { IfOk result (λ matched. matched ≡ class_matches spec.now set.now class) }
{
    Ok(matches_class(spec, set, class, set.class(class)))
}

/// The same of a class and its number.
#[tactic(auto, unfolding(crate::specs::Matches::matches_class))]
pub(crate) fn matches_class(spec: &ClassSpec, set: &ClassSet, number: u32, class: &Class) -> bool
    requires { number < length set.now }
    ensures { result ≡ matches_class spec.now set.now number class.now }
{
    accepts_class(spec.names.as_slice(), class.name.as_str())
        && matches_but_name(spec, set, &[], number, class)
}

/// Whether a specification matches a class but for its name, by what is known of the names above classes.
pub(crate) fn matches_but_name(
    spec: &ClassSpec,
    set: &ClassSet,
    known: &[Option<bool>],
    number: u32,
    class: &Class,
) -> bool
    requires there { number < length set.now }
    requires known { AreKnown spec.now.above set.now known.now }
    ensures { result ≡ matches_but_name spec.now set.now number class.now }
{
    flags_met(FlagsOf::Class, class.flags, spec.flags.as_slice())
        && is_kind_met(spec.kind.as_str(), class.flags)
        && is_above_met(&spec.above, set, known, number)
}

#[tactic(auto, unfolding(crate::specs::Matches::is_kind_met))]
fn is_kind_met(kind: &str, flags: Access) -> bool
    ensures { result ≡ is_kind_met kind.now flags.0 }
{
    match kind {
        "class" => true,
        "interface" => flags.contains(Access::INTERFACE),
        "!interface" => !flags.contains(Access::INTERFACE),
        _ => false,
    }
}

/// Whether the name of a class above this one is matched. The superclasses are gone over upwards, each with its own
/// superinterfaces; no memory is taken.
pub(crate) fn has_above(pattern: &Text, set: &ClassSet, number: u32) -> bool
    requires { number < length set.now }
    ensures { result ≡ list_any (λ id. matches_class_name pattern.now (name_of set.now id))
        (supers set.now (Prog number)) }
{
    for class in Superclasses::of(set, ClassId::Prog(number)) {
        if is_met_at(pattern, set, number, &class) {
            return true;
        }
    }
    false
}

/// Whether a class, or one of its own superinterfaces, is another one and has a name that is matched.
#[tactic(auto, using(crate::proofs::AboveLaw::own_once))]
pub(crate) fn is_met_at(pattern: &Text, set: &ClassSet, number: u32, class: &ClassId) -> bool
    requires { IsClass set.now class.now }
    ensures { result ≡ is_met_at pattern.now set.now number class.now }
{
    is_other_met(pattern, set, number, class)
        || is_one_met(pattern, set, number, set.own_superinterfaces(*class))
}

fn is_one_met(pattern: &Text, set: &ClassSet, number: u32, ids: &[ClassId]) -> bool
    requires { All (IsClass set.now) ids.now }
    ensures { result ≡ list_any (is_other_met pattern.now set.now number) ids.now }
{
    for id in ids {
        if is_other_met(pattern, set, number, id) {
            return true;
        }
    }
    false
}

fn is_other_met(pattern: &Text, set: &ClassSet, number: u32, class: &ClassId) -> bool
    requires { IsClass set.now class.now }
    ensures { result ≡ is_other_met pattern.now set.now number class.now }
{
    !is_program(class, number) && matches_class_name(pattern, name_of(set, class))
}

fn is_program(class: &ClassId, number: u32) -> bool
    ensures { result ≡ same_class class.now (Prog number) }
{
    match class {
        ClassId::Prog(other) => *other == number,
        ClassId::Lib(_) => false,
    }
}

pub(crate) fn name_of<'a>(set: &'a ClassSet, class: &ClassId) -> &'a str
    requires { IsClass set.now class.now }
    ensures { result.now ≡ name_of set.now class.now }
{
    match class {
        ClassId::Prog(number) => set.class(*number).name.as_str(),
        ClassId::Lib(id) => lib_name(*id),
    }
}
