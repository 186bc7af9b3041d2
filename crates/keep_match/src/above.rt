// Which classes have a class above them whose name a specification matches, found once for each class (`known` of
// `class_pool`).
ghost use Rattle.std.specs.Prelude.{◌≡◌, ◌<◌, ◌||◌, IfOk, Some, length};
ghost use Rattle.std.specs.List.{All};
ghost use Rattle.class_pool.specs.declared.id.ClassId.TheVariants.{Prog};
ghost use Rattle.class_pool.specs.Found.{name_of};
ghost use Rattle.class_pool.specs.Hierarchy.{superclass};
ghost use Rattle.keep_match.specs.bodies.Above.{AreKnown, is_met_at};
ghost use Rattle.keep_match.specs.Matches.{is_above_met, matches_class_name};

use crate::class_spec::{has_above, is_met_at, name_of};
use crate::filter::matches_class_name;
use crate::named::are_literal;
use class_pool::{ClassId, ClassSet, known_at, superclass_number, unknown_from};
use jv_base::{M, Text};
use keep_rules::ClassSpec;
use std::alloc::Global;

/// Of so many classes each is asked by itself.
const FEW: usize = 16;

/// What is known of the classes of a set, by their numbers, for a specification. Where that names few classes, nothing
/// is.
pub(crate) fn known_above(alloc: Global, spec: &ClassSpec, set: &ClassSet) -> M<Vec<Option<bool>>>
    ensures { IfOk result (λ known. AreKnown spec.now.above set.now known.items) }
{
    match &spec.above {
        Some(pattern) if names_many(spec) => known_of_all(alloc, pattern, set),
        _ => Ok(Vec::new(alloc)),
    }
}

fn names_many(spec: &ClassSpec) -> bool {
    FEW < spec.names.len() || !are_literal(spec.names.as_slice())
}

fn known_of_all(alloc: Global, pattern: &Text, set: &ClassSet) -> M<Vec<Option<bool>>>
    ensures { IfOk result (λ known. AreKnown (Some pattern.now) set.now known.items) }
{
    let mut known = vec![in alloc; None; set.len() as usize]?;
    for number in 0..set.len() {
        let unknown = unknown_from(alloc, set, known.as_slice(), number)?;
        know(pattern, set, &mut known, unknown.as_slice());
    }
    Ok(known)
}

/// Looks at these classes, the last one first.
fn know(pattern: &Text, set: &ClassSet, known: &mut Vec<Option<bool>>, numbers: &[u32])
    requires there { All (λ n. n < length set.now) numbers.now }
    requires count { length known.old.items ≡ length set.now }
    requires known { AreKnown (Some pattern.now) set.now known.old.items }
    ensures count { length known.new.items ≡ length set.now }
    ensures known { AreKnown (Some pattern.now) set.now known.new.items }
{
    let count = numbers.len();
    for at in 0..count {
        let number = numbers[count - 1 - at];
        let is_met = has_above_by(pattern, set, known.as_slice(), number);
        known[number as usize] = Some(is_met);
    }
}

/// Whether the name of a class above this one is matched, by what is known of its superclass.
fn has_above_by(pattern: &Text, set: &ClassSet, known: &[Option<bool>], number: u32) -> bool
    requires there { number < length set.now }
    requires known { AreKnown (Some pattern.now) set.now known.now }
    ensures { result ≡ is_above_met (Some pattern.now) set.now number }
{
    let Some(above) = superclass_number(set, number) else {
        return has_above(pattern, set, number);
    };
    match known_at(known, above) {
        Some(is_met) => is_met_by(pattern, set, number, above, is_met),
        None => has_above(pattern, set, number),
    }
}

/// The same, where the superclass and what is known of it are given.
fn is_met_by(pattern: &Text, set: &ClassSet, number: u32, above: u32, is_met: bool) -> bool
    requires there { number < length set.now }
    requires superclass { superclass set.now (Prog number) ≡ Some (Prog above) }
    requires known { is_met ≡ is_above_met (Some pattern.now) set.now above }
    ensures { result ≡ is_above_met (Some pattern.now) set.now number }
{
    set.has_ranks();
    let _count = set.len();
    is_met || is_met_next(pattern, set, number, above)
}

/// Whether the name of the superclass is matched, or that of one of the superinterfaces that the class has itself.
fn is_met_next(pattern: &Text, set: &ClassSet, number: u32, above: u32) -> bool
    requires there { number < length set.now }
    requires above { above < length set.now }
    ensures { result ≡ (matches_class_name pattern.now (name_of set.now (Prog above))
        || is_met_at pattern.now set.now number (Prog number)) }
{
    matches_class_name(pattern, name_of(set, &ClassId::Prog(above)))
        || is_met_at(pattern, set, number, &ClassId::Prog(number))
}

/// Whether the name of a class above this one is matched, if a specification asks for one.
pub(crate) fn is_above_met(
    above: &Option<Text>,
    set: &ClassSet,
    known: &[Option<bool>],
    number: u32,
) -> bool
    requires there { number < length set.now }
    requires known { AreKnown above.now set.now known.now }
    ensures { result ≡ is_above_met above.now set.now number }
{
    match above {
        None => true,
        Some(pattern) => is_known_met(pattern, set, known, number),
    }
}

fn is_known_met(pattern: &Text, set: &ClassSet, known: &[Option<bool>], number: u32) -> bool
    requires there { number < length set.now }
    requires known { AreKnown (Some pattern.now) set.now known.now }
    ensures { result ≡ is_above_met (Some pattern.now) set.now number }
{
    match known_at(known, number) {
        Some(is_met) => is_met,
        None => has_above(pattern, set, number),
    }
}
