//! The least closed set by a worklist. Each item is taken once; its needs are looked at then, and each
//! pair in which it stands.
ghost use Rattle.std.specs.Prelude.{◌≡◌, ◌<◌, IfOk, OnOk, length};
ghost use Rattle.std.specs.List.{All, Contains};
ghost use Rattle.mark_core.specs.Marks.{IsMarked, Marks, needs_of};
ghost use Rattle.mark_core.specs.bodies.PairIndex.{IsIndex};
ghost use Rattle.mark_core.specs.Valid.{PairBelow, Valid};
ghost use Rattle.mark_core.specs.bodies.Worklist.{AllPairsDone, Grows, Has, IsDone, IsOpen, IsSound};

use crate::pair_index::{PairIndex, index_of};
use crate::system::{Pair, System};
use jv_base::{Items, M};
use std::alloc::Global;

/// Which items are marked, and which of these are still to be taken.
#[derive(Drop)]
struct Worklist {
    marks: Vec<bool>,
    waiting: Vec<u32>,
}

/// The least closed set: for each item whether it is marked.
///
/// With three items, the seeds 0 and 1, no needs and the pair (0, 1, 2), all three are marked; with the
/// seed 0 alone only 0 is.
pub fn plain_marks(alloc: Global, sys: &System) -> M<Items<bool>>
    requires { Valid sys.now }
    ensures { IfOk result (Marks sys.now) }
{
    let index = index_of(alloc, sys)?;
    let mut work = Worklist {
        marks: vec![in alloc; false; sys.n as usize]?,
        waiting: Vec::new(alloc),
    };
    mark_all(sys, &mut work, sys.seeds.as_slice())?;
    take_all(sys, &index, &mut work)?;
    Ok(Items::from_vec(work.marks))
}

/// Takes the items that wait, until none does.
fn take_all(sys: &System, index: &PairIndex, work: &mut Worklist) -> M<()>
    requires valid { Valid sys.now }
    requires index { IsIndex sys.now index.now }
    requires open { IsOpen sys.now work.old }
    ensures open { OnOk result (IsOpen sys.now work.new) }
    ensures empty { OnOk result (length work.new.waiting.items ≡ 0) }
{
    while let Some(item) = work.waiting.pop() {
        take(sys, index, work, item)?;
    }
    Ok(())
}

/// Marks what a marked item requires by its needs and by its pairs.
fn take(sys: &System, index: &PairIndex, work: &mut Worklist, item: u32) -> M<()>
    requires valid { Valid sys.now }
    requires index { IsIndex sys.now index.now }
    requires sound { IsSound sys.now work.old }
    requires item { item < sys.now.n }
    requires due { IsMarked sys.now item }
    ensures sound { OnOk result (IsSound sys.now work.new) }
    ensures grows { OnOk result (Grows work.old work.new) }
    ensures needs { OnOk result (All (Has work.new) (needs_of sys.now item)) }
    ensures pairs { OnOk result (AllPairsDone sys.now work.new item) }
{
    mark_all(sys, work, sys.needs[item as usize].as_slice())?;
    mark_pairs(sys, index, work, item)?;
    Ok(())
}

/// Marks the derived item of each pair that has `item` and whose items are both marked.
fn mark_pairs(sys: &System, index: &PairIndex, work: &mut Worklist, item: u32) -> M<()>
    requires valid { Valid sys.now }
    requires index { IsIndex sys.now index.now }
    requires sound { IsSound sys.now work.old }
    requires item { item < sys.now.n }
    ensures sound { OnOk result (IsSound sys.now work.new) }
    ensures grows { OnOk result (Grows work.old work.new) }
    ensures done { OnOk result (AllPairsDone sys.now work.new item) }
{
    let mut front = index.fronts[item as usize];
    while front > 0 {
        let place = front - 1;
        mark_pair(sys, work, sys.pairs[place / 2])?;
        front = index.links[place];
    }
    Ok(())
}

/// Marks the derived item of a pair whose items are both marked.
fn mark_pair(sys: &System, work: &mut Worklist, pair: Pair) -> M<()>
    requires sound { IsSound sys.now work.old }
    requires below { PairBelow sys.now.n pair }
    requires listed { Contains sys.now.pairs pair }
    ensures sound { OnOk result (IsSound sys.now work.new) }
    ensures grows { OnOk result (Grows work.old work.new) }
    ensures done { OnOk result (IsDone work.new pair) }
{
    if work.marks[pair.one as usize] && work.marks[pair.two as usize] {
        mark(sys, work, pair.derived)?;
    }
    Ok(())
}

/// Marks each of the items.
fn mark_all(sys: &System, work: &mut Worklist, items: &[u32]) -> M<()>
    requires sound { IsSound sys.now work.old }
    requires below { All (λ x. x < sys.now.n) items.now }
    requires due { All (IsMarked sys.now) items.now }
    ensures sound { OnOk result (IsSound sys.now work.new) }
    ensures grows { OnOk result (Grows work.old work.new) }
    ensures has { OnOk result (All (Has work.new) items.now) }
{
    for item in items {
        mark(sys, work, *item)?;
    }
    Ok(())
}

/// Marks an item; one that wasn't marked waits then.
fn mark(sys: &System, work: &mut Worklist, item: u32) -> M<()>
    requires sound { IsSound sys.now work.old }
    requires item { item < sys.now.n }
    requires due { IsMarked sys.now item }
    ensures sound { OnOk result (IsSound sys.now work.new) }
    ensures grows { OnOk result (Grows work.old work.new) }
    ensures has { OnOk result (Has work.new item) }
{
    if !work.marks[item as usize] {
        work.marks[item as usize] = true;
        work.waiting.push(item)?;
    }
    Ok(())
}
