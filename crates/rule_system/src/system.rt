// The system of requirements.
ghost use Rattle.std.specs.Prelude.{◌≤◌, IfOk, Ok, length};
ghost use Rattle.jv_base.specs.Outcome.{IsDue};
ghost use Rattle.mark_core.specs.Valid.{Valid};
ghost use Rattle.class_pool.specs.Count.{item_count};
ghost use Rattle.require_sys.specs.Limits.{limited_lists, need_count, within_limit};
ghost use Rattle.rule_system.specs.Required.{system_due};
ghost use Rattle.require_sys.specs.Requires.{requires};
ghost use Rattle.method_places.specs.bodies.Alike.{AreRows};
ghost use Rattle.item_needs.specs.bodies.Asked.{AreMembers};
ghost use Rattle.item_numbers.specs.bodies.Selecting.{all_pairs};
ghost use Rattle.require_sys.specs.declared.limits.Counted.TheVariants as counted;

use crate::kept::kept_by_rules;
use crate::seeds::seeds_of;
use class_pool::ClassSet;
use item_needs::needs_of;
use item_numbers::Numbered;
use jv_base::{Items, Or};
use keep_rules::Rules;
use mark_core::{Pair, System};
use method_places::{Methods, methods_of};
use override_pairs::pairs_of;
use require_sys::{Counted, KeptByRules, TooMany};
use std::alloc::Global;

/// What has to be kept of a set of classes by the rules of a config, as a system of requirements; or the first of the
/// counts of items, of needs and of pairs that passes its limit. The items are each class in the order of the set, then
/// its fields, then its methods. Seeds are what the rules keep, and under `-dontshrink` all items (ProGuard manual,
/// "Keep Options"). What each item needs, and what a class and a method above it need together, is as JVMS 4 to 6 have
/// it. No list is made that passes its limit.
pub fn system_of(alloc: Global, set: &ClassSet, rules: &Rules) -> Result<System, Or<TooMany>>
    ensures exact { IsDue result (system_due set.now rules.now) }
    ensures valid { IfOk result Valid }
{
    let object = set.object();
    let methods = methods_of(alloc, set, &object)?;
    let numbered = Numbered::of(alloc, set, object, methods.declared.as_slice())?;
    within(Counted::Items, u64::from(numbered.count()))?;
    let kept = kept_by_rules(alloc, set, rules)?;
    limited_system(alloc, &numbered, &methods, &kept)
}

/// The system, where it has no more needs and pairs than it may.
fn limited_system(
    alloc: Global,
    numbered: &Numbered,
    methods: &Methods,
    kept: &KeptByRules,
) -> Result<System, Or<TooMany>>
    requires methods { AreRows numbered.now.set.now methods.now.of_classes }
    requires few { item_count numbered.now.set.now ≤ 1048576 }
    requires members { AreMembers numbered.now.set.now kept.now.members }
    ensures { IsDue result (limited_lists (requires numbered.now.set.now kept.now)) }
{
    let needs = limited_needs(alloc, numbered, kept)?;
    let pairs = limited_pairs(alloc, numbered, methods)?;
    let seeds = seeds_of(alloc, numbered, kept)?;
    Ok(System {
        n: numbered.count(),
        seeds,
        needs,
        pairs,
    })
}

fn limited_needs(
    alloc: Global,
    numbered: &Numbered,
    kept: &KeptByRules,
) -> Result<Items<Items<u32>>, Or<TooMany>>
    requires few { item_count numbered.now.set.now ≤ 1048576 }
    requires members { AreMembers numbered.now.set.now kept.now.members }
    ensures { IsDue result (within_limit counted.Needs (need_count (requires numbered.now.set.now kept.now))
        (Ok (requires numbered.now.set.now kept.now).needs)) }
{
    let needs = needs_of(alloc, numbered, kept)?;
    within(Counted::Needs, needs.count)?;
    Ok(needs.lists)
}

fn limited_pairs(
    alloc: Global,
    numbered: &Numbered,
    methods: &Methods,
) -> Result<Items<Pair>, Or<TooMany>>
    requires methods { AreRows numbered.now.set.now methods.now.of_classes }
    requires few { item_count numbered.now.set.now ≤ 1048576 }
    ensures { IsDue result (within_limit counted.Pairs (length (all_pairs numbered.now.set.now))
        (Ok (all_pairs numbered.now.set.now))) }
{
    let pairs = pairs_of(alloc, numbered, methods)?;
    within(Counted::Pairs, pairs.count)?;
    Ok(pairs.pairs)
}

/// Whether a count is within its limit.
fn within(what: Counted, count: u64) -> Result<(), Or<TooMany>>
    ensures { IsDue result (within_limit what count (Ok tt)) }
{
    if count > what.limit() {
        return Err(Or::Fault(TooMany { what, count }));
    }
    Ok(())
}
