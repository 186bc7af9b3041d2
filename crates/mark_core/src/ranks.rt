//! Ranks of items, so that each item stands above those that it needs.
//!
//! How the ranks are found is not proved. Whether they are such ranks is tested, and that test is.
ghost use Rattle.std.specs.Prelude.{◌≡◌, ◌<◌, ◌≤◌, ◌↔◌, IfNone, IfSome, IsTrue, length};
ghost use Rattle.std.specs.List.{All};
ghost use Rattle.mark_core.specs.Ranks.{IsRanked, IsRankedBefore, IsUnrankedAt, NoneRises, rank_of};

use crate::System;
use jv_base::{Items, M};
use std::alloc::Global;

/// Whether no rank is higher than there are items, and each item's needs have lower ranks than it.
pub fn are_ranked(needs: &[Items<u32>], ranks: &[usize]) -> bool
    ensures { IsTrue result ↔ IsRanked needs.now ranks.now }
{
    let mut number = 0;
    for list in needs {
        let bound = rank(ranks, number);
        if bound > needs.len() || !all_lower(ranks, list.as_slice(), bound) {
            return false;
        }
        number += 1;
    }
    true
}

/// Whether no item's needs have higher ranks than it.
pub fn none_rises(needs: &[Items<u32>], ranks: &[usize]) -> bool
    ensures { IsTrue result ↔ NoneRises needs.now ranks.now }
{
    let mut number = 0;
    for list in needs {
        if !none_higher(ranks, list.as_slice(), rank(ranks, number)) {
            return false;
        }
        number += 1;
    }
    true
}

/// The first item that has a need of no lower rank.
pub fn first_unranked(sys: &System, ranks: &[usize]) -> Option<u32>
    requires { sys.now.n ≡ length sys.now.needs }
    ensures there { IfSome result (λ first. first < sys.now.n) }
    ensures before { IfSome result (λ first. IsRankedBefore first sys.now.needs ranks.now) }
    ensures first { IfSome result (λ first. IsUnrankedAt first sys.now.needs ranks.now) }
    ensures none { IfNone result (IsRankedBefore sys.now.n sys.now.needs ranks.now) }
{
    for number in 0..sys.n {
        let index = number as usize;
        if !all_lower(ranks, sys.needs[index].as_slice(), rank(ranks, index)) {
            return Some(number);
        }
    }
    None
}

fn none_higher(ranks: &[usize], items: &[u32], bound: usize) -> bool
    ensures { IsTrue result ↔ All (λ m. rank_of ranks.now m ≤ bound) items.now }
{
    items
        .iter()
        .all(|item| rank(ranks, *item as usize) <= bound)
}

fn all_lower(ranks: &[usize], items: &[u32], bound: usize) -> bool
    ensures { IsTrue result ↔ All (λ m. rank_of ranks.now m < bound) items.now }
{
    items.iter().all(|item| rank(ranks, *item as usize) < bound)
}

fn rank(ranks: &[usize], number: usize) -> usize
    ensures { result ≡ rank_of ranks.now number }
{
    match ranks.get(number) {
        Some(rank) => *rank,
        None => 0,
    }
}

/// For each item the items that need it, as lists in one vector: `first` has for each item where its list begins,
/// and `next` where it goes on, one more than the place, 0 at its end.
#[derive(Drop)]
pub(crate) struct Needing {
    pub(crate) first: Vec<usize>,
    pub(crate) next: Vec<usize>,
    pub(crate) items: Vec<usize>,
}

/// What is left to be ranked.
#[derive(Drop)]
struct Unranked {
    /// For each item how many of its needs aren't ranked yet.
    left: Vec<usize>,
    /// The items whose needs are all ranked.
    ready: Vec<usize>,
}

/// Ranks by counting: an item is ranked when all its needs are.
pub fn ranks_of(alloc: Global, needs: &[Items<u32>]) -> M<Vec<usize>> {
    let needing = needing_of(alloc, needs)?;
    let mut unranked = unranked_of(alloc, needs)?;
    ranks_by_counting(alloc, &needing, &mut unranked)
}

fn unranked_of(alloc: Global, needs: &[Items<u32>]) -> M<Unranked> {
    let mut unranked = Unranked {
        left: Vec::new(alloc),
        ready: Vec::new(alloc),
    };
    for (number, list) in needs.iter().enumerate() {
        note_unranked(&mut unranked, number, list.len())?;
    }
    Ok(unranked)
}

fn note_unranked(unranked: &mut Unranked, number: usize, needs: usize) -> M<()> {
    unranked.left.push(needs)?;
    if needs == 0 {
        unranked.ready.push(number)?;
    }
    Ok(())
}

fn ranks_by_counting(alloc: Global, needing: &Needing, unranked: &mut Unranked) -> M<Vec<usize>> {
    let mut ranks = vec![in alloc; 0usize; needing.first.len()]?;
    for rank in 0..needing.first.len() {
        if let Some(item) = unranked.ready.pop() {
            if item < ranks.len() {
                ranks[item] = rank + 1;
            }
            settle(needing, unranked, item)?;
        }
    }
    Ok(ranks)
}

/// One need less is left of each item that needs this one.
fn settle(needing: &Needing, unranked: &mut Unranked, item: usize) -> M<()> {
    let mut place = entry(needing.first.as_slice(), item);
    for _ in 0..needing.items.len() {
        if place == 0 {
            return Ok(());
        }
        settle_one(unranked, entry(needing.items.as_slice(), place - 1))?;
        place = entry(needing.next.as_slice(), place - 1);
    }
    Ok(())
}

fn settle_one(unranked: &mut Unranked, item: usize) -> M<()> {
    if item < unranked.left.len() {
        unranked.left[item] = unranked.left[item].saturating_sub(1);
        if unranked.left[item] == 0 {
            unranked.ready.push(item)?;
        }
    }
    Ok(())
}

pub(crate) fn needing_of(alloc: Global, needs: &[Items<u32>]) -> M<Needing> {
    let mut needing = Needing {
        first: vec![in alloc; 0usize; needs.len()]?,
        next: Vec::new(alloc),
        items: Vec::new(alloc),
    };
    for (number, list) in needs.iter().enumerate() {
        note_needs(&mut needing, list.as_slice(), number)?;
    }
    Ok(needing)
}

fn note_needs(needing: &mut Needing, list: &[u32], number: usize) -> M<()> {
    for need in list {
        let need = *need as usize;
        if need < needing.first.len() {
            needing.items.push(number)?;
            needing.next.push(needing.first[need])?;
            needing.first[need] = needing.items.len();
        }
    }
    Ok(())
}

/// The entry at a place, 0 where there is none.
pub(crate) fn entry(entries: &[usize], place: usize) -> usize {
    match entries.get(place) {
        Some(entry) => *entry,
        None => 0,
    }
}
