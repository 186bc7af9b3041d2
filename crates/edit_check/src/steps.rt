// The code after the acts of a step.
ghost use Rattle.std.specs.Prelude.{◌≡◌, ◌<◌, IfOk, length};
ghost use Rattle.code_edit.specs.Applied.{applied};
ghost use Rattle.code_edit.specs.Constants.{AreLegalConst, folded_code};
ghost use Rattle.code_edit.specs.Jumps.{AreLegalJumps, jumped_code};
ghost use Rattle.code_edit.specs.Legal.{AreRightActs};
ghost use Rattle.code_edit.specs.Reach.{AreLegalDrops, left_code};
ghost use Rattle.code_edit.specs.Slots.{slotted_code};
ghost use Rattle.code_edit.specs.SoundCode.{IsSound};

use crate::changing::changed;
use crate::tables::{const_tables, jumps_tables, reach_tables, slots_tables};
use class_model::Code;
use code_edit::{Act, Pass, PassEdits};
use jv_base::M;
use std::alloc::Global;

#[tactic(auto, using(crate::proofs::Stepping::reach_after, crate::proofs::Stepping::reach_few))]
fn left_code(alloc: Global, code: &Code, acts: &[Act]) -> M<Code>
    requires few { length code.now.ins < 4294967295 }
    requires sound { IsSound code.now }
    requires right { AreLegalDrops acts.now code.now }
    ensures { IfOk result (λ after. after ≡ left_code acts.now code.now) }
{
    let tables = reach_tables(alloc, acts, code.ins.len())?;
    let after = changed(alloc, &tables, code)?;
    Ok(after)
}

#[tactic(auto, using(crate::proofs::Stepping::const_after, crate::proofs::Stepping::const_few))]
fn folded_code(alloc: Global, code: &Code, acts: &[Act]) -> M<Code>
    requires few { length code.now.ins < 4294967295 }
    requires sound { IsSound code.now }
    requires right { AreLegalConst acts.now code.now }
    ensures { IfOk result (λ after. after ≡ folded_code acts.now code.now) }
{
    let tables = const_tables(alloc, acts, code)?;
    let after = changed(alloc, &tables, code)?;
    Ok(after)
}

#[tactic(auto, using(crate::proofs::Stepping::slots_after, crate::proofs::Stepping::slots_few))]
fn slotted_code(alloc: Global, code: &Code, acts: &[Act]) -> M<Code>
    requires few { length code.now.ins < 4294967295 }
    requires sound { IsSound code.now }
    ensures { IfOk result (λ after. after ≡ slotted_code acts.now code.now) }
{
    let tables = slots_tables(alloc, acts, code)?;
    let after = changed(alloc, &tables, code)?;
    Ok(after)
}

#[tactic(auto, using(crate::proofs::Stepping::jumps_after, crate::proofs::Stepping::jumps_few))]
fn jumped_code(alloc: Global, code: &Code, acts: &[Act]) -> M<Code>
    requires few { length code.now.ins < 4294967295 }
    requires sound { IsSound code.now }
    requires right { AreLegalJumps acts.now code.now }
    ensures { IfOk result (λ after. after ≡ jumped_code acts.now code.now) }
{
    let tables = jumps_tables(alloc, acts, code)?;
    let after = changed(alloc, &tables, code)?;
    Ok(after)
}

/// The code after the acts of a step, without frames: what goes is left out, targets and handlers
/// move, and lines stay. Each instruction that stays is copied once, in one pass over the code; what
/// the acts do at an index is read off tables, so the time grows with the code, its targets and
/// handlers, and with the acts, but for aims, which are found in a tree.
pub fn apply(alloc: Global, code: &Code, edits: &PassEdits) -> M<Code>
    requires few { length code.now.ins < 4294967295 }
    requires sound { IsSound code.now }
    requires right { AreRightActs edits.now.pass edits.now.acts code.now }
    ensures { IfOk result (λ after. after ≡ applied edits.now.pass edits.now.acts code.now) }
{
    let acts = edits.acts.as_slice();
    match edits.pass {
        Pass::Reach => left_code(alloc, code, acts),
        Pass::Const => folded_code(alloc, code, acts),
        Pass::Slots => slotted_code(alloc, code, acts),
        Pass::Jumps => jumped_code(alloc, code, acts),
    }
}
