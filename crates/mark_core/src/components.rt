//! Ranks of items that may need each other in a circle: the items of a strongly connected component have one rank, and
//! each other item that they need has a lower one.
//!
//! None of it is proved. What is said of the ranks is tested by those who use them.

use crate::ranks::{Needing, entry, needing_of};
use jv_base::{Items, M};
use std::alloc::Global;

/// A search in depth along `Needing`.
#[derive(Drop)]
struct Search {
    /// Which items were come to.
    seen: Vec<bool>,
    /// For each item where the list of those that need it goes on, one more than the place, 0 at its end.
    places: Vec<usize>,
    /// The items on the way to the present one.
    path: Vec<usize>,
    /// The items that were left, in that order.
    left: Vec<usize>,
}

/// Ranks by components, in two searches: one along those that need an item, and then, from the item that the first left
/// last, one along the needs.
pub fn component_ranks(alloc: Global, needs: &[Items<u32>]) -> M<Vec<usize>> {
    let mut order = order_left(alloc, &needing_of(alloc, needs)?)?;
    let mut ranks = vec![in alloc; 0usize; needs.len()]?;
    let mut open = Vec::new(alloc);
    for rank in 0..needs.len() {
        if let Some(item) = order.pop() {
            give_rank(&mut ranks, &mut open, item, rank + 1)?;
            give_on(needs, &mut ranks, &mut open, rank + 1)?;
        }
    }
    Ok(ranks)
}

/// Gives the rank to all that the open items lead to, and that have none.
fn give_on(
    needs: &[Items<u32>],
    ranks: &mut Vec<usize>,
    open: &mut Vec<usize>,
    rank: usize,
) -> M<()> {
    for _ in 0..needs.len() {
        match open.pop() {
            Some(item) => give_needs(needs, ranks, open, item, rank)?,
            None => return Ok(()),
        }
    }
    Ok(())
}

fn give_needs(
    needs: &[Items<u32>],
    ranks: &mut Vec<usize>,
    open: &mut Vec<usize>,
    item: usize,
    rank: usize,
) -> M<()> {
    if let Some(list) = needs.get(item) {
        for need in list.as_slice() {
            give_rank(ranks, open, *need as usize, rank)?;
        }
    }
    Ok(())
}

fn give_rank(ranks: &mut Vec<usize>, open: &mut Vec<usize>, item: usize, rank: usize) -> M<()> {
    if item < ranks.len() && ranks[item] == 0 {
        ranks[item] = rank;
        open.push(item)?;
    }
    Ok(())
}

/// The items in the order in which the search leaves them: each when all that need it were come to.
fn order_left(alloc: Global, needing: &Needing) -> M<Vec<usize>> {
    let mut search = Search {
        seen: vec![in alloc; false; needing.first.len()]?,
        places: needing.first.clone()?,
        path: Vec::new(alloc),
        left: Vec::new(alloc),
    };
    for item in 0..needing.first.len() {
        come_to(&mut search, item)?;
        walk(&mut search, needing)?;
    }
    Ok(search.left)
}

/// Walks until the path is empty. A step comes to the end of an item's list or goes on in it.
fn walk(search: &mut Search, needing: &Needing) -> M<()> {
    for _ in 0..needing.items.len().saturating_add(needing.first.len()) {
        match search.path.pop() {
            Some(item) => step(search, needing, item)?,
            None => return Ok(()),
        }
    }
    Ok(())
}

fn step(search: &mut Search, needing: &Needing, item: usize) -> M<()> {
    let place = entry(search.places.as_slice(), item);
    if place == 0 {
        search.left.push(item)?;
        return Ok(());
    }
    if item < search.places.len() {
        search.places[item] = entry(needing.next.as_slice(), place - 1);
    }
    search.path.push(item)?;
    come_to(search, entry(needing.items.as_slice(), place - 1))
}

fn come_to(search: &mut Search, item: usize) -> M<()> {
    if item < search.seen.len() && !search.seen[item] {
        search.seen[item] = true;
        search.path.push(item)?;
    }
    Ok(())
}
