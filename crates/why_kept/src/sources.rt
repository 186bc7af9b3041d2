//! By what each item is kept, where levels are known.
ghost use Rattle.std.specs.Prelude.{◌≡◌, ◌<◌, ◌==◌, ◌&&◌, ◌+◌, IfOk, length};
ghost use Rattle.std.specs.List.{All, list_any};
ghost use Rattle.mark_core.specs.Valid.{PairBelow, Valid};
ghost use Rattle.why_kept.specs.Levels.{level_of};
ghost use Rattle.why_kept.specs.Steps.{by_of, follows_from, is_needed_by};
ghost use Rattle.why_kept.specs.bodies.Noting.{AreNoted, is_seed, note_if, noted_at};
ghost use Rattle.why_kept.specs.declared.reasons.By.TheVariants.{Need as need_of, Pair as pair_of};

use crate::reasons::By;
use jv_base::{Items, M};
use mark_core::{Pair, System};
use std::alloc::Global;
use std::cmp;

/// For each item that has a level by what it is kept: the least item of the level before that needs it, else the first
/// pair of which it is the consequence and whose greater level is the one before, else it is a seed.
pub(crate) fn sources_of(alloc: Global, sys: &System, levels: &[u32]) -> M<Vec<By>>
    requires valid { Valid sys.now }
    requires count { length levels.now ≡ sys.now.n }
    ensures { IfOk result (λ sources. AreNoted sys.now.n (by_of sys.now levels.now) sources.items) }
{
    let mut sources = vec![in alloc; By::Seed; sys.n as usize]?;
    for item in 0..sys.n {
        note_needs(sys, levels, &mut sources, item);
    }
    for pair in sys.pairs.as_slice() {
        note_pair(sys, levels, &mut sources, *pair);
    }
    Ok(sources)
}

/// Notes the item for those of its needs that have the level behind its own.
fn note_needs(sys: &System, levels: &[u32], sources: &mut Vec<By>, item: u32)
    requires valid { Valid sys.now }
    requires count { length levels.now ≡ sys.now.n }
    requires sources { length sources.old.items ≡ sys.now.n }
    requires item { item < sys.now.n }
    ensures { AreNoted sys.now.n (λ x. note_if (is_needed_by sys.now levels.now x item) (need_of item)
        (noted_at sources.old.items x)) sources.new.items }
{
    let level = u64::from(levels[item as usize]) + 1;
    for need in sys.needs[item as usize].as_slice() {
        let is_behind = u64::from(levels[*need as usize]) == level;
        note(sources, *need, is_behind, By::Need(item));
    }
}

/// Notes a pair for its consequence, where that has the level behind the greater one of its items.
fn note_pair(sys: &System, levels: &[u32], sources: &mut Vec<By>, pair: Pair)
    requires count { length levels.now ≡ sys.now.n }
    requires sources { length sources.old.items ≡ sys.now.n }
    requires pair { PairBelow sys.now.n pair }
    ensures { AreNoted sys.now.n (λ x. note_if (follows_from sys.now levels.now x pair) (pair_of pair.one pair.two)
        (noted_at sources.old.items x)) sources.new.items }
{
    let level = u64::from(cmp::max(levels[pair.one as usize], levels[pair.two as usize])) + 1;
    let is_behind = u64::from(levels[pair.derived as usize]) == level;
    note(
        sources,
        pair.derived,
        is_behind,
        By::Pair(pair.one, pair.two),
    );
}

/// Notes by what an item is kept, where a test holds and nothing is noted yet.
fn note(sources: &mut Vec<By>, item: u32, test: bool, by: By)
    requires { item < length sources.old.items }
    ensures { AreNoted (length sources.old.items) (λ x. note_if (test && (item == x)) by (noted_at sources.old.items x))
        sources.new.items }
{
    sources[item as usize] = noted(test, by, sources[item as usize]);
}

/// What is noted of an item for which this was.
fn noted(test: bool, new: By, old: By) -> By
    ensures { result ≡ note_if test new old }
{
    if test && is_seed(old) { new } else { old }
}

fn is_seed(by: By) -> bool
    ensures { result ≡ is_seed by }
{
    matches!(by, By::Seed)
}
