// The code after the acts of a step, with its frames.
ghost use Rattle.std.specs.Prelude.{◌≡◌, ◌<◌, IfOk, length};
ghost use Rattle.class_model.specs.WellFormed.{IsGoodCode};
ghost use Rattle.code_edit.specs.Legal.{AreRightActs};
ghost use Rattle.code_edit.specs.SoundCode.{IsSound};
ghost use Rattle.frame_rebuild.specs.Rebuilt.{frames_after, rebuilt};
ghost use Rattle.frame_rebuild.specs.bodies.Told.{TellsMoves};

use crate::moves::Moves;
use crate::slots::slots_of;
use crate::walking::carried;
use class_model::{Code, Frames};
use code_edit::PassEdits;
use edit_check::{apply, lives_after};
use edit_tables::marks::target_marks;
use edit_tables::places::places;
use jv_base::M;
use std::alloc::Global;

/// What stays after the acts of a step.
fn moves_of(alloc: Global, code: &Code, edits: &PassEdits) -> M<Moves>
    requires { length code.now.ins < 4294967295 }
    ensures { IfOk result (TellsMoves edits.now.pass edits.now.acts code.now) }
{
    let lives = lives_after(alloc, code, edits)?;
    let places = places(alloc, &lives)?;
    let targets = target_marks(alloc, code)?;
    let cut = slots_of(alloc, code, edits.acts.as_slice())?;
    Ok(Moves {
        lives,
        places,
        targets,
        cut,
    })
}

/// The frames of the code after the acts of a step, at their new places. An instruction that stays has its own frame,
/// or else that of the nearest target which was left out directly before it. A local of which a store or increment was
/// cut becomes Top, and so does what isn't initialised where its new was left out. Frames go on sharing their locals:
/// the time grows with the code, the acts and with what each frame doesn't share with the one before.
pub fn carry(alloc: Global, code: &Code, edits: &PassEdits) -> M<Frames>
    requires few { length code.now.ins < 4294967295 }
    requires good { IsGoodCode code.now }
    ensures { IfOk result (λ frames. frames ≡ frames_after edits.now.pass edits.now.acts code.now) }
{
    frames_after(alloc, code, edits, code.max_locals)
}

/// The same, where the locals of a frame take so many words at most.
fn frames_after(alloc: Global, code: &Code, edits: &PassEdits, max_locals: u16) -> M<Frames>
    requires few { length code.now.ins < 4294967295 }
    requires good { IsGoodCode code.now }
    requires locals { max_locals ≡ code.now.max_locals }
    ensures { IfOk result (λ frames. frames ≡ frames_after edits.now.pass edits.now.acts code.now) }
{
    let moves = moves_of(alloc, code, edits)?;
    let frames = carried(alloc, &moves, &code.frames)?;
    Ok(frames)
}

/// The code after the acts of a step, with its frames.
pub fn rebuild(alloc: Global, code: &Code, edits: &PassEdits) -> M<Code>
    requires few { length code.now.ins < 4294967295 }
    requires good { IsGoodCode code.now }
    requires sound { IsSound code.now }
    requires right { AreRightActs edits.now.pass edits.now.acts code.now }
    ensures { IfOk result (λ after. after ≡ rebuilt edits.now.pass edits.now.acts code.now) }
{
    let mut after = apply(alloc, code, edits)?;
    after.frames = carry(alloc, code, edits)?;
    Ok(after)
}
