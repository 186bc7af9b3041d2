//! The steps of a derivation.
ghost use Rattle.std.specs.Prelude.{◌≡◌, ◌∷◌, ◌<◌, [], IfOk, OnOk, length};
ghost use Rattle.std.specs.List.{All};
ghost use Rattle.mark_core.specs.Valid.{Valid};
ghost use Rattle.why_kept.specs.Levels.{AreLeast, HasLevel, IsCertified, level_of};
ghost use Rattle.why_kept.specs.Steps.{AreSteps, by_of, key_cmp, sources_of};
ghost use Rattle.why_kept.specs.bodies.Noting.{AreNoted};
ghost use Rattle.why_kept.specs.bodies.Telling.{key, with_keys};

use crate::reasons::{By, WhyStep};
use jv_base::{Items, M};
use mark_core::System;
use std::alloc::Global;
use std::collections::BTreeSet;

/// The steps of the derivation of an item, in the order of levels and then of items; none where it has no level.
pub(crate) fn steps_to(
    alloc: Global,
    sys: &System,
    levels: &[u32],
    sources: &[By],
    id: u32,
) -> M<Items<WhyStep>>
    requires valid { Valid sys.now }
    requires id { id < sys.now.n }
    requires certified { IsCertified sys.now levels.now }
    requires least { AreLeast sys.now levels.now }
    requires noted { AreNoted sys.now.n (by_of sys.now levels.now) sources.now }
    ensures { IfOk result (AreSteps sys.now levels.now id) }
{
    if levels[id as usize] >= sys.n {
        return Ok(Items::new(alloc));
    }
    let mut waiting = BTreeSet::new(alloc);
    wait(&mut waiting, levels, id)?;
    let mut steps = Vec::new(alloc);
    'tell: while let Some((_, item)) = waiting.pop_last() {
        let by = sources[item as usize];
        steps.push(WhyStep { id: item, by })?;
        wait_for(&mut waiting, levels, by)?;
    }
    steps.reverse();
    Ok(Items::from_vec(steps))
}

/// What something is kept by waits, each item with its level.
fn wait_for(waiting: &mut BTreeSet<(u32, u32)>, levels: &[u32], by: By) -> M<()>
    requires { All (λ x. x < length levels.now) (sources_of by) }
    ensures { OnOk result (waiting.new.keys ≡ with_keys levels.now (sources_of by) waiting.old.keys) }
{
    match by {
        By::Seed => {}
        By::Need(item) => wait(waiting, levels, item)?,
        By::Pair(one, two) => {
            wait(waiting, levels, one)?;
            wait(waiting, levels, two)?;
        }
    }
    Ok(())
}

fn wait(waiting: &mut BTreeSet<(u32, u32)>, levels: &[u32], item: u32) -> M<()>
    requires { item < length levels.now }
    ensures { OnOk result (waiting.new.keys ≡ with_keys levels.now (item ∷ []) waiting.old.keys) }
{
    waiting.insert((levels[item as usize], item))?;
    Ok(())
}
