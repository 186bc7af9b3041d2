//! A system of requirements on items.
ghost use Rattle.std.specs.Prelude.{◌<◌, ◌↔◌, IsTrue};
ghost use Rattle.std.specs.List.{All};
ghost use Rattle.mark_core.specs.Valid.{PairBelow, Valid};

use jv_base::Items;

/// Where the items `one` and `two` are both marked, so is `derived`. The two may be the same item.
#[derive(Clone, Copy)]
pub struct Pair {
    pub one: u32,
    pub two: u32,
    pub derived: u32,
}

/// The items are the numbers below `n`. A seed is marked; the list at `x` in `needs` holds the items
/// that are marked where `x` is; and a pair marks its derived item where both of its items are marked.
#[derive(Drop)]
pub struct System {
    pub n: u32,
    pub seeds: Items<u32>,
    pub needs: Items<Items<u32>>,
    pub pairs: Items<Pair>,
}

/// Whether each item that the system names is below `n`, and each item has its list of needs.
pub fn valid(sys: &System) -> bool
    ensures { IsTrue result ↔ Valid sys.now }
{
    sys.needs.len() == sys.n as usize
        && all_below(sys.n, &sys.seeds)
        && lists_below(sys.n, &sys.needs)
        && pairs_below(sys.n, &sys.pairs)
}

fn all_below(n: u32, items: &Items<u32>) -> bool
    ensures { IsTrue result ↔ All (λ x. x < n) items.now }
{
    items.as_slice().iter().all(|x| *x < n)
}

fn lists_below(n: u32, lists: &Items<Items<u32>>) -> bool
    ensures { IsTrue result ↔ All (λ items. All (λ x. x < n) items) lists.now }
{
    lists.as_slice().iter().all(|items| all_below(n, items))
}

fn pairs_below(n: u32, pairs: &Items<Pair>) -> bool
    ensures { IsTrue result ↔ All (PairBelow n) pairs.now }
{
    pairs
        .as_slice()
        .iter()
        .all(|pair| pair.one < n && pair.two < n && pair.derived < n)
}
