// Which instructions stay after the acts of a step.
ghost use Rattle.std.specs.Prelude.{◌<◌, IfOk, length};
ghost use Rattle.code_edit.specs.declared.act.Pass.TheVariants.{Const, Jumps, Reach, Slots};
ghost use Rattle.edit_check.specs.Lives.{TellsLives};

use crate::tables::uncut;
use class_model::Code;
use code_edit::{Act, Pass, PassEdits};
use const_tables::folding::{folds_of, unfolded};
use edit_tables::dropping::left_by;
use edit_tables::marks::{cut_marks, skip_marks, target_marks};
use edit_tables::skipping::unskipped;
use jv_base::M;
use std::alloc::Global;

fn lives_after_drops(alloc: Global, code: &Code, acts: &[Act]) -> M<Vec<bool>>
    ensures { IfOk result (λ lives. TellsLives Reach acts.now code.now lives.items) }
{
    let lives = left_by(alloc, acts, code.ins.len())?;
    Ok(lives)
}

fn lives_after_folds(alloc: Global, code: &Code, acts: &[Act]) -> M<Vec<bool>>
    requires { length code.now.ins < 4294967295 }
    ensures { IfOk result (λ lives. TellsLives Const acts.now code.now lives.items) }
{
    let folds = folds_of(alloc, acts, code.ins.len())?;
    let lives = unfolded(alloc, &folds, code)?;
    Ok(lives)
}

fn lives_after_cuts(alloc: Global, code: &Code, acts: &[Act]) -> M<Vec<bool>>
    requires { length code.now.ins < 4294967295 }
    ensures { IfOk result (λ lives. TellsLives Slots acts.now code.now lives.items) }
{
    let targets = target_marks(alloc, code)?;
    let cuts = cut_marks(alloc, acts, code.ins.len())?;
    let lives = uncut(alloc, &cuts, &targets, code)?;
    Ok(lives)
}

fn lives_after_skips(alloc: Global, code: &Code, acts: &[Act]) -> M<Vec<bool>>
    ensures { IfOk result (λ lives. TellsLives Jumps acts.now code.now lives.items) }
{
    let skips = skip_marks(alloc, acts, code.ins.len())?;
    let lives = unskipped(alloc, &skips, code)?;
    Ok(lives)
}

/// Of each index, whether the instruction stays after the acts of a step.
pub fn lives_after(alloc: Global, code: &Code, edits: &PassEdits) -> M<Vec<bool>>
    requires { length code.now.ins < 4294967295 }
    ensures { IfOk result (λ lives. TellsLives edits.now.pass edits.now.acts code.now lives.items) }
{
    let acts = edits.acts.as_slice();
    match edits.pass {
        Pass::Reach => lives_after_drops(alloc, code, acts),
        Pass::Const => lives_after_folds(alloc, code, acts),
        Pass::Slots => lives_after_cuts(alloc, code, acts),
        Pass::Jumps => lives_after_skips(alloc, code, acts),
    }
}
