//! Whether levels are certified.
ghost use Rattle.std.specs.Prelude.{◌≡◌, ◌≤◌, ◌<◌, ◌+◌, ◌↔◌, IsTrue};
ghost use Rattle.std.specs.List.{All};
ghost use Rattle.mark_core.specs.Marks.{needs_of};
ghost use Rattle.mark_core.specs.Valid.{Valid};
ghost use Rattle.why_kept.specs.Levels.{AreNear, AreNeedsNear, HasLevel, IsCertified, IsPairNear, level_of};

use jv_base::Items;
use mark_core::{Pair, System};
use std::cmp;

/// Whether there is a level for each item, and they are certified: then no derivation of an item has a depth below its
/// level, and an item whose level is the number of items has none.
pub fn levels_ok(sys: &System, levels: &Items<u32>) -> bool
    requires { Valid sys.now }
    ensures { IsTrue result ↔ IsCertified sys.now levels.now }
{
    let levels = levels.as_slice();
    levels.len() == sys.n as usize
        && sys
            .seeds
            .as_slice()
            .iter()
            .all(|seed| level(sys, levels, *seed) == 0)
        && are_needs_near(sys, levels)
        && sys
            .pairs
            .as_slice()
            .iter()
            .all(|pair| is_pair_near(sys, levels, pair))
}

/// The level of an item, the number of items where it has none.
fn level(sys: &System, levels: &[u32], item: u32) -> u32
    ensures { result ≡ level_of sys.now levels.now item }
{
    match levels.get(item as usize) {
        Some(level) => *level,
        None => sys.n,
    }
}

/// Whether each need of an item that has a level has at most one more.
fn are_needs_near(sys: &System, levels: &[u32]) -> bool
    requires { Valid sys.now }
    ensures { IsTrue result ↔ AreNeedsNear sys.now levels.now sys.now.n }
{
    for item in 0..sys.n {
        if !is_item_near(sys, levels, item) {
            return false;
        }
    }
    true
}

fn is_item_near(sys: &System, levels: &[u32], item: u32) -> bool
    requires valid { Valid sys.now }
    requires item { item < sys.now.n }
    ensures { IsTrue result ↔ (HasLevel sys.now levels.now item
        → AreNear sys.now levels.now (level_of sys.now levels.now item + 1) (needs_of sys.now item)) }
{
    let level = level(sys, levels, item);
    level >= sys.n || are_near(sys, levels, sys.needs[item as usize].as_slice(), level + 1)
}

fn are_near(sys: &System, levels: &[u32], items: &[u32], bound: u32) -> bool
    ensures { IsTrue result ↔ AreNear sys.now levels.now bound items.now }
{
    items.iter().all(|item| level(sys, levels, *item) <= bound)
}

/// Whether the consequence of a pair whose items have levels has at most one more than the greater one.
fn is_pair_near(sys: &System, levels: &[u32], pair: &Pair) -> bool
    ensures { IsTrue result ↔ IsPairNear sys.now levels.now pair.now }
{
    let (one, two) = (level(sys, levels, pair.one), level(sys, levels, pair.two));
    one >= sys.n || two >= sys.n || level(sys, levels, pair.derived) <= cmp::max(one, two) + 1
}
