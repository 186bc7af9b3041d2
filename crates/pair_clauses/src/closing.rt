// What has to be kept has a line.
ghost use Rattle.std.specs.Prelude.{◌≡◌, IfOk, fold, not, ◌&&◌};
ghost use Rattle.std.specs.List.{filter, flat_map};
ghost use Rattle.mark_core.specs.Valid.{Valid};
ghost use Rattle.class_pool.specs.Count.{item_count};
ghost use Rattle.pair_clauses.specs.Closing.{has_line, lacking, lesser, lost_seed};
ghost use Rattle.pair_clauses.specs.Closing.{needed_together, place_of_item};

use crate::lined::item_place;
use crate::place::Place;
use class_pool::ClassSet;
use jv_base::M;
use mark_core::{Pair, System};
use std::alloc::Global;

/// The first place of SeedLost.
pub fn seed_fault(alloc: Global, input: &ClassSet, lined: &[bool], sys: &System) -> M<Option<Place>>
    requires valid { Valid sys.now }
    requires items { sys.now.n ≡ item_count input.now }
    ensures { IfOk result (λ found. found ≡ place_of_item input.now (lost_seed sys.now lined.now)) }
{
    for seed in sys.seeds.as_slice() {
        if !has_line(lined, *seed) {
            return Ok(Some(item_place(alloc, input, *seed)?));
        }
    }
    Ok(None)
}

/// The first place of NotClosed.
pub fn closed_fault(
    alloc: Global,
    input: &ClassSet,
    lined: &[bool],
    sys: &System,
) -> M<Option<Place>>
    requires valid { Valid sys.now }
    requires items { sys.now.n ≡ item_count input.now }
    ensures { IfOk result (λ found. found ≡ place_of_item input.now (lacking sys.now lined.now)) }
{
    match lacking(lined, sys) {
        Some(item) => Ok(Some(item_place(alloc, input, item)?)),
        None => Ok(None),
    }
}

/// Whether an item has a line.
fn has_line(lined: &[bool], item: u32) -> bool
    ensures { result ≡ has_line lined.now item }
{
    match lined.get(item as usize) {
        Some(has) => *has,
        None => false,
    }
}

/// The first item that is needed and has no line.
fn lacking(lined: &[bool], sys: &System) -> Option<u32>
    ensures { result ≡ lacking sys.now lined.now }
{
    let mut least = None;
    for item in 0..sys.needs.len() {
        let needs = &sys.needs[item];
        if has_line_at(lined, item) {
            least = least_lacking(lined, least, needs.as_slice());
        }
    }
    lacking_together(lined, least, sys.pairs.as_slice())
}

fn has_line_at(lined: &[bool], item: usize) -> bool
    ensures { result ≡ has_line lined.now item }
{
    match lined.get(item) {
        Some(has) => *has,
        None => false,
    }
}

/// The least of those found before and of these items that have no line.
fn least_lacking(lined: &[bool], before: Option<u32>, items: &[u32]) -> Option<u32>
    ensures { result ≡ fold lesser before (filter (λ x. not (has_line lined.now x)) items.now) }
{
    let mut least = before;
    for item in items {
        if !has_line(lined, *item) {
            least = lesser(least, *item);
        }
    }
    least
}

/// The same of what pairs need together.
fn lacking_together(lined: &[bool], before: Option<u32>, pairs: &[Pair]) -> Option<u32>
    ensures { result ≡ fold lesser before
        (filter (λ x. not (has_line lined.now x)) (flat_map (needed_together lined.now) pairs.now)) }
{
    let mut least = before;
    for pair in pairs {
        if is_lacking(lined, *pair) {
            least = lesser(least, pair.derived);
        }
    }
    least
}

/// Whether two items have lines, and what they need together has none.
fn is_lacking(lined: &[bool], pair: Pair) -> bool
    ensures { result ≡ (has_line lined.now pair.one && has_line lined.now pair.two
        && not (has_line lined.now pair.derived)) }
{
    has_line(lined, pair.one) && has_line(lined, pair.two) && !has_line(lined, pair.derived)
}

fn lesser(least: Option<u32>, item: u32) -> Option<u32>
    ensures { result ≡ lesser least item }
{
    match least {
        Some(least) => Some(least.min(item)),
        None => Some(item),
    }
}
