//! The calls of `why_kept` under their own contracts, for edits that put wrong bodies in place of the calls.
#![tactic(auto)]

ghost use Rattle.std.specs.Prelude.{◌<◌, ◌↔◌, IfOk, IsTrue};
ghost use Rattle.mark_core.specs.Marks.{IsMarked};
ghost use Rattle.mark_core.specs.Valid.{Valid};
ghost use Rattle.why_kept.specs.Levels.{AreLeast, HasLevel, IsCertified};
ghost use Rattle.why_kept.specs.Steps.{AreSteps};

use jv_base::{Items, M};
use mark_core::System;
use std::alloc::Global;
use why_kept::Reasons;

/// `why` of `why_kept`.
pub fn why(alloc: Global, sys: &System, id: u32) -> M<Reasons>
    requires valid { Valid sys.now }
    requires below { id < sys.now.n }
    ensures certified { IfOk result (λ r. IsCertified sys.now r.levels) }
    ensures least { IfOk result (λ r. AreLeast sys.now r.levels) }
    ensures marked { IfOk result (λ r. HasLevel sys.now r.levels id ↔ IsMarked sys.now id) }
    ensures steps { IfOk result (λ r. AreSteps sys.now r.levels id r.steps) }
{
    why_kept::why(alloc, sys, id)
}

/// `levels_ok` of `why_kept`.
pub fn levels_ok(sys: &System, levels: &Items<u32>) -> bool
    requires { Valid sys.now }
    ensures { IsTrue result ↔ IsCertified sys.now levels.now }
{
    why_kept::levels_ok(sys, levels)
}
