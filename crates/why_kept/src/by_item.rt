//! For each item the pairs in which it stands.
ghost use Rattle.std.specs.Prelude.{◌≡◌, ◌<◌, IfOk, List, OnOk, [], length};
ghost use Rattle.std.specs.List.{All, Contains};
ghost use Rattle.mark_core.specs.Valid.{PairBelow, Valid};
ghost use Rattle.mark_core.specs.declared.system.Pair.{Pair as PairValue};
ghost use Rattle.why_kept.specs.bodies.ByItem.{Adds, HasItem, IsByItem, pairs_at};

use jv_base::{Items, M};
use mark_core::{Pair, System};
use std::alloc::Global;

/// For each item the pairs in which it stands.
pub(crate) fn pairs_by_item(alloc: Global, sys: &System) -> M<Vec<Items<Pair>>>
    requires { Valid sys.now }
    ensures { IfOk result (λ pairs. IsByItem sys.now pairs.items) }
{
    let mut lists = empty_lists(alloc, sys.n)?;
    for pair in sys.pairs.as_slice() {
        add_pair(&mut lists, *pair)?;
    }
    Ok(lists)
}

fn empty_lists(alloc: Global, count: u32) -> M<Vec<Items<Pair>>>
    ensures count { IfOk result (λ lists. length lists.items ≡ count) }
    ensures empty { IfOk result (λ lists. All (λ (list : List PairValue). list ≡ []) lists.items) }
{
    let mut lists = Vec::with_capacity(alloc, count as usize)?;
    'fill: while lists.len() < count as usize {
        lists.push(Items::new(alloc))?;
    }
    Ok(lists)
}

/// Adds a pair to the lists of both of its items.
fn add_pair(lists: &mut Vec<Items<Pair>>, pair: Pair) -> M<()>
    requires { PairBelow (length lists.old.items) pair }
    ensures adds { OnOk result (Adds pair lists.old.items lists.new.items) }
    ensures one { OnOk result (Contains (pairs_at lists.new.items pair.one) pair) }
    ensures two { OnOk result (Contains (pairs_at lists.new.items pair.two) pair) }
{
    add(lists, pair.one, pair)?;
    add(lists, pair.two, pair)?;
    Ok(())
}

/// Adds a pair to the list of an item.
fn add(lists: &mut Vec<Items<Pair>>, item: u32, pair: Pair) -> M<()>
    requires item { item < length lists.old.items }
    requires has { HasItem item pair }
    ensures adds { OnOk result (Adds pair lists.old.items lists.new.items) }
    ensures there { OnOk result (Contains (pairs_at lists.new.items item) pair) }
{
    lists[item as usize].push(pair)?;
    Ok(())
}
