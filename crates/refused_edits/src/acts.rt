// Which acts passes find, and which acts are legal.
ghost use Rattle.std.specs.Prelude.{◌≡◌, ◌<◌, IfOk, OnOk, length};
ghost use Rattle.code_edit.specs.declared.act.Pass.TheVariants as pass;
ghost use Rattle.code_edit.specs.Legal.{AreRightActs};
ghost use Rattle.code_edit.specs.Passes.{IsJumpsEdits, IsReachEdits, slots_edits};
ghost use Rattle.code_edit.specs.SoundCode.{IsSound};
ghost use Rattle.edit_legal.specs.Fault.{Judges};

use class_model::Code;
use code_edit::PassEdits;
use edit_legal::Bad;
use jv_base::{M, Or};
use std::alloc::Global;

/// Has the contract of the call that is its body.
pub fn reach_edits(alloc: Global, code: &Code) -> M<PassEdits>
    requires few { length code.now.ins < 4294967295 }
    requires sound { IsSound code.now }
    ensures pass { IfOk result (λ edits. edits.pass ≡ pass.Reach) }
    ensures acts { IfOk result (λ edits. IsReachEdits code.now edits.acts) }
{
    edit_passes::reach_edits(alloc, code)
}

/// Has the contract of the call that is its body.
pub fn slots_edits(alloc: Global, code: &Code) -> M<PassEdits>
    requires { length code.now.ins < 4294967295 }
    ensures pass { IfOk result (λ edits. edits.pass ≡ pass.Slots) }
    ensures acts { IfOk result (λ edits. edits.acts ≡ slots_edits code.now) }
{
    edit_passes::slots_edits(alloc, code)
}

/// Has the contract of the call that is its body.
pub fn jumps_edits(alloc: Global, code: &Code) -> M<PassEdits>
    requires few { length code.now.ins < 4294967295 }
    requires sound { IsSound code.now }
    ensures pass { IfOk result (λ edits. edits.pass ≡ pass.Jumps) }
    ensures acts { IfOk result (λ edits. IsJumpsEdits code.now edits.acts) }
{
    edit_passes::jumps_edits(alloc, code)
}

/// Has the contract of the call that is its body.
pub fn legal(alloc: Global, code: &Code, edits: &PassEdits) -> Result<(), Or<Bad>>
    requires few { length code.now.ins < 4294967295 }
    requires sound { IsSound code.now }
    ensures judged { Judges result edits.now.pass edits.now.acts code.now }
    ensures right { OnOk result (AreRightActs edits.now.pass edits.now.acts code.now) }
{
    edit_legal::legal(alloc, code, edits)
}
