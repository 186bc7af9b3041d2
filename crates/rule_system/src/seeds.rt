// The seeds.
ghost use Rattle.std.specs.Prelude.{◌≡◌, IfOk};
ghost use Rattle.std.specs.List.{range_with_len};
ghost use Rattle.require_sys.specs.Requires.{seeds_of};

use item_numbers::Numbered;
use jv_base::{Items, M};
use require_sys::KeptByRules;
use std::alloc::Global;

/// The items that rules keep, and where nothing is to be dropped all items; ascending and each once.
pub(crate) fn seeds_of(alloc: Global, numbered: &Numbered, kept: &KeptByRules) -> M<Items<u32>>
    ensures { IfOk result (λ seeds. seeds ≡ seeds_of numbered.now.set.now kept.now) }
{
    if kept.shrink {
        copied(alloc, kept.seeds.as_slice())
    } else {
        all_below(alloc, numbered.count())
    }
}

fn copied(alloc: Global, items: &[u32]) -> M<Items<u32>>
    ensures { IfOk result (λ copies. copies ≡ items.now) }
{
    Ok(Items::from_vec(items.to_vec(alloc)?))
}

fn all_below(alloc: Global, count: u32) -> M<Items<u32>>
    ensures { IfOk result (λ items. items ≡ range_with_len 0 count) }
{
    let mut items = Items::new(alloc);
    for item in 0..count {
        items.push(item)?;
    }
    Ok(items)
}
