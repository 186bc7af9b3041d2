//! Why an item is kept.
ghost use Rattle.std.specs.Prelude.{◌<◌, ◌↔◌, IfOk};
ghost use Rattle.mark_core.specs.Marks.{IsMarked};
ghost use Rattle.mark_core.specs.Valid.{Valid};
ghost use Rattle.why_kept.specs.Levels.{AreLeast, HasLevel, IsCertified};
ghost use Rattle.why_kept.specs.Steps.{AreSteps};

use crate::explain::steps_to;
use crate::search::levels_of;
use crate::sources::sources_of;
use jv_base::{Items, M};
use mark_core::System;
use std::alloc::Global;

/// By what an item is kept.
#[derive(Clone, Copy)]
pub enum By {
    /// It is a seed.
    Seed,
    /// This item needs it.
    Need(u32),
    /// It is the consequence of these two items of a pair.
    Pair(u32, u32),
}

/// An item, and by what it is kept.
#[derive(Clone, Copy)]
pub struct WhyStep {
    pub id: u32,
    pub by: By,
}

/// Why an item is kept.
#[derive(Drop)]
pub struct Reasons {
    /// For each item the least depth of a derivation, the number of items where it has none.
    pub levels: Items<u32>,
    /// A derivation of least depth, each item once, what an item is kept by before it; none where the item isn't kept.
    pub steps: Items<WhyStep>,
}

/// Why an item is kept: a derivation of least depth, and the least depths of all items.
///
/// With three items, the seed 0, the need 1 of 0 and the pair (0, 1, 2), the levels are 0, 1 and 2, and 2 is kept by
/// three steps: 0 is a seed, 1 is a need of 0, 2 is the consequence of 0 and 1.
pub fn why(alloc: Global, sys: &System, id: u32) -> M<Reasons>
    requires valid { Valid sys.now }
    requires below { id < sys.now.n }
    ensures certified { IfOk result (λ r. IsCertified sys.now r.levels) }
    ensures least { IfOk result (λ r. AreLeast sys.now r.levels) }
    ensures marked { IfOk result (λ r. HasLevel sys.now r.levels id ↔ IsMarked sys.now id) }
    ensures steps { IfOk result (λ r. AreSteps sys.now r.levels id r.steps) }
{
    let levels = levels_of(alloc, sys)?;
    let sources = sources_of(alloc, sys, levels.as_slice())?;
    let steps = steps_to(alloc, sys, levels.as_slice(), sources.as_slice(), id)?;
    Ok(Reasons { levels, steps })
}
