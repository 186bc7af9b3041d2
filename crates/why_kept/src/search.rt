//! The levels by a search in breadth, one level after the other.
ghost use Rattle.std.specs.Prelude.{ℕ, ◌≡◌, ◌≤◌, ◌<◌, ◌+◌, ◌++◌, IfOk, OnOk, length};
ghost use Rattle.std.specs.List.{All, Contains};
ghost use Rattle.mark_core.specs.Marks.{needs_of};
ghost use Rattle.mark_core.specs.Valid.{PairBelow, Valid};
ghost use Rattle.why_kept.specs.Derivations.{IsDerivedAt};
ghost use Rattle.why_kept.specs.Levels.{HasLevel, IsCertified, level_of};
ghost use Rattle.why_kept.specs.bodies.ByItem.{IsByItem};
ghost use Rattle.why_kept.specs.bodies.Searching.{AreNear, ArePairsNear, ArePresent, Grows, IsNearBy, IsNext};
ghost use Rattle.why_kept.specs.bodies.Searching.{IsOpen, IsSound, left, level_in};

use crate::by_item::pairs_by_item;
use jv_base::{Items, M};
use mark_core::{Pair, System};
use std::alloc::Global;
use std::mem;

/// The levels that are known, and the items that were found last.
#[derive(Drop)]
struct Search {
    /// For each item its level, the number of items where it has none yet.
    levels: Vec<u32>,
    /// The items of the greatest level, which are still to be taken.
    found: Vec<u32>,
}

/// For each item the least depth of a derivation, the number of items where it has none.
pub(crate) fn levels_of(alloc: Global, sys: &System) -> M<Items<u32>>
    requires { Valid sys.now }
    ensures certified { IfOk result (IsCertified sys.now) }
    ensures most { IfOk result (λ levels. All (λ level. level ≤ sys.now.n) levels) }
    ensures reached { IfOk result (λ levels. (x : ℕ) → HasLevel sys.now levels x
        → IsDerivedAt sys.now x (level_of sys.now levels x)) }
{
    let pairs = pairs_by_item(alloc, sys)?;
    let mut search = Search {
        levels: vec![in alloc; sys.n; sys.n as usize]?,
        found: Vec::new(alloc),
    };
    find_all(sys, &mut search, sys.seeds.as_slice(), 0)?;
    let mut level = 0;
    'rounds: while !search.found.is_empty() {
        level += 1;
        let present = mem::replace(&mut search.found, Vec::new(alloc));
        take_all(sys, pairs.as_slice(), &mut search, present, level)?;
    }
    Ok(Items::from_vec(search.levels))
}

/// Takes the items of the level before this one.
fn take_all(
    sys: &System,
    pairs: &[Items<Pair>],
    search: &mut Search,
    mut present: Vec<u32>,
    level: u32,
) -> M<()>
    requires valid { Valid sys.now }
    requires index { IsByItem sys.now pairs.now }
    requires opened { IsOpen sys.now level (present.items ++ search.old.found.items) search.old }
    requires present { ArePresent sys.now level present.items search.old }
    requires few { level + left sys.now search.old + length present.items ≤ sys.now.n + 1 }
    ensures opened { OnOk result (IsOpen sys.now level search.new.found.items search.new) }
    ensures left { OnOk result (left sys.now search.new ≡ left sys.now search.old) }
{
    while let Some(item) = present.pop() {
        take(sys, pairs, search, item, level)?;
    }
    Ok(())
}

/// Finds what an item of the level before this one makes due by its needs and by its pairs.
fn take(sys: &System, pairs: &[Items<Pair>], search: &mut Search, item: u32, level: u32) -> M<()>
    requires valid { Valid sys.now }
    requires index { IsByItem sys.now pairs.now }
    requires sound { IsSound sys.now level search.old }
    requires item { item < sys.now.n }
    requires before { level_in sys.now search.old item + 1 ≡ level }
    requires few { level + left sys.now search.old ≤ sys.now.n }
    ensures sound { OnOk result (IsSound sys.now level search.new) }
    ensures grows { OnOk result (Grows sys.now search.old search.new) }
    ensures needs { OnOk result (AreNear sys.now search.new level (needs_of sys.now item)) }
    ensures pairs { OnOk result (ArePairsNear sys.now search.new level item) }
{
    find_all(sys, search, sys.needs[item as usize].as_slice(), level)?;
    find_derived(sys, search, pairs[item as usize].as_slice(), level)?;
    Ok(())
}

/// Finds the consequence of each of the pairs whose items both have a level before this one.
fn find_derived(sys: &System, search: &mut Search, pairs: &[Pair], level: u32) -> M<()>
    requires valid { Valid sys.now }
    requires sound { IsSound sys.now level search.old }
    requires few { level + left sys.now search.old ≤ sys.now.n }
    requires listed { All (Contains sys.now.pairs) pairs.now }
    requires next { All (IsNext sys.now search.old level) pairs.now }
    ensures sound { OnOk result (IsSound sys.now level search.new) }
    ensures grows { OnOk result (Grows sys.now search.old search.new) }
    ensures near { OnOk result (All (IsNearBy sys.now search.new level) pairs.now) }
{
    for pair in pairs {
        find_by_pair(sys, search, *pair, level)?;
    }
    Ok(())
}

/// Finds the consequence of a pair whose items both have a level before this one.
fn find_by_pair(sys: &System, search: &mut Search, pair: Pair, level: u32) -> M<()>
    requires sound { IsSound sys.now level search.old }
    requires few { level + left sys.now search.old ≤ sys.now.n }
    requires below { PairBelow sys.now.n pair }
    requires listed { Contains sys.now.pairs pair }
    requires next { IsNext sys.now search.old level pair }
    ensures sound { OnOk result (IsSound sys.now level search.new) }
    ensures grows { OnOk result (Grows sys.now search.old search.new) }
    ensures near { OnOk result (IsNearBy sys.now search.new level pair) }
{
    if search.levels[pair.one as usize] < level && search.levels[pair.two as usize] < level {
        find(sys, search, pair.derived, level)?;
    }
    Ok(())
}

/// Finds each of the items.
fn find_all(sys: &System, search: &mut Search, items: &[u32], level: u32) -> M<()>
    requires sound { IsSound sys.now level search.old }
    requires below { All (λ x. x < sys.now.n) items.now }
    requires due { All (λ x. IsDerivedAt sys.now x level) items.now }
    requires few { level + left sys.now search.old ≤ sys.now.n }
    ensures sound { OnOk result (IsSound sys.now level search.new) }
    ensures grows { OnOk result (Grows sys.now search.old search.new) }
    ensures near { OnOk result (AreNear sys.now search.new level items.now) }
{
    for item in items {
        find(sys, search, *item, level)?;
    }
    Ok(())
}

/// Gives an item that has no level yet this one.
fn find(sys: &System, search: &mut Search, item: u32, level: u32) -> M<()>
    requires sound { IsSound sys.now level search.old }
    requires item { item < sys.now.n }
    requires due { IsDerivedAt sys.now item level }
    requires few { level + left sys.now search.old ≤ sys.now.n }
    ensures sound { OnOk result (IsSound sys.now level search.new) }
    ensures grows { OnOk result (Grows sys.now search.old search.new) }
    ensures near { OnOk result (level_in sys.now search.new item ≤ level) }
{
    if search.levels[item as usize] == sys.n {
        search.levels[item as usize] = level;
        search.found.push(item)?;
    }
    Ok(())
}
