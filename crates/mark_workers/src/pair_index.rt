//! For each item the pairs in which it stands, in two flat lists that one pass over the pairs builds: the index that
//! `plain_marks` has, which `mark_core` keeps to itself.
//!
//! Pair `k` has the places `2 * k` for its item `one` and `2 * k + 1` for its item `two`.
ghost use Rattle.std.specs.Prelude.{◌<◌, IfOk, OnOk, length};
ghost use Rattle.mark_core.specs.Valid.{Valid};
ghost use Rattle.mark_core.specs.bodies.PairIndex.{LinksNext};
ghost use Rattle.mark_workers.specs.Index.{core_index, IsIndex};

use jv_base::M;
use mark_core::System;
use std::alloc::Global;

/// A front of the places is told by its length.
#[derive(Drop)]
pub(crate) struct PairIndex {
    /// For each item the shortest front of the places that has all places of the item.
    pub fronts: Vec<usize>,
    /// For each place the shortest front of the places before it that has all other such places of its item.
    pub links: Vec<usize>,
}

/// Makes the next place one of `item`.
fn link(index: &mut PairIndex, item: u32) -> M<()>
    requires { item < length index.old.fronts.items }
    ensures { OnOk result (LinksNext (core_index index.old) (core_index index.new) item) }
{
    let front = index.fronts[item as usize];
    index.links.push(front)?;
    index.fronts[item as usize] = index.links.len();
    Ok(())
}

/// The index of all pairs of the system.
pub(crate) fn index_of(alloc: Global, sys: &System) -> M<PairIndex>
    requires { Valid sys.now }
    ensures { IfOk result (IsIndex sys.now) }
{
    let pairs = sys.pairs.as_slice();
    let mut index = PairIndex {
        fronts: vec![in alloc; 0usize; sys.n as usize]?,
        links: Vec::with_capacity(alloc, 2 * pairs.len())?,
    };
    for pair in pairs {
        link(&mut index, pair.one)?;
        link(&mut index, pair.two)?;
    }
    Ok(index)
}
