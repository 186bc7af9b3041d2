// The acts of the pass.
ghost use Rattle.std.specs.Prelude.{◌≡◌, ◌<◌, ◌≤◌, true, IfOk, length};
ghost use Rattle.code_edit.specs.declared.act.Pass.TheVariants.{Const};
ghost use Rattle.code_edit.specs.ConstEdits.{AreConstActs, IsConstEdits, is_beyond};
ghost use Rattle.code_edit.specs.Facts.{IsAllReached};
ghost use Rattle.code_edit.specs.SoundCode.{IsSound};
ghost use Rattle.const_facts.specs.Marked.{AreMarks};
ghost use Rattle.pass_const.specs.Taking.{asked_marks};

use crate::folds::{fold_targets, push_folds, taken_marks};
use crate::known::known_slots;
use crate::runs::push_all_runs;
use crate::slots::{asked_marks, count_marks};
use class_model::Code;
use code_edit::{Act, Pass, PassEdits};
use edit_tables::marks::target_marks;
use jv_base::{Items, M};
use std::alloc::Global;

/// The acts of const on a code of which control may reach each instruction: the facts of the local
/// variables that its folds load, and the folds. Where the local variables from which int branches
/// and switches take operands, times the instructions, are above 1,048,576, there is no act. So the
/// time is bounded by that number and by what is linear in the code.
pub fn edits(alloc: Global, code: &Code) -> M<PassEdits>
    requires sound { IsSound code.now }
    requires few { length code.now.ins < 4294967295 }
    requires reached { IsAllReached code.now }
    ensures pass { IfOk result (λ edits. edits.pass ≡ Const) }
    ensures acts { IfOk result (λ edits. IsConstEdits code.now edits.acts) }
{
    let acts = const_acts(alloc, code)?;
    Ok(PassEdits {
        pass: Pass::Const,
        acts: Items::from_vec(acts),
    })
}

fn const_acts(alloc: Global, code: &Code) -> M<Vec<Act>>
    requires sound { IsSound code.now }
    requires few { length code.now.ins < 4294967295 }
    requires reached { IsAllReached code.now }
    ensures { IfOk result (λ acts. IsConstEdits code.now acts.items) }
{
    let asked = asked_marks(alloc, code)?;
    if is_beyond(count_marks(&asked), code.ins.len()) {
        return Ok(Vec::new(alloc));
    }
    let acts = listed_acts(alloc, code, &asked)?;
    Ok(acts)
}

/// Whether so many asked slots in a code of so many instructions are too many.
fn is_beyond(asked: usize, count: usize) -> bool
    requires asked { asked ≤ 65536 }
    requires count { count < 4294967295 }
    ensures { result ≡ is_beyond asked count }
{
    asked * count > 1_048_576
}

fn listed_acts(alloc: Global, code: &Code, asked: &[bool]) -> M<Vec<Act>>
    requires sound { IsSound code.now }
    requires few { length code.now.ins < 4294967295 }
    requires reached { IsAllReached code.now }
    requires asked { asked.now ≡ asked_marks code.now }
    requires slots { length asked.now ≤ 65536 }
    ensures { IfOk result (λ acts. AreConstActs code.now acts.items) }
{
    let marks = target_marks(alloc, code)?;
    let lists = known_slots(alloc, code, &marks, asked)?;
    let targets = fold_targets(alloc, code, &marks, &lists)?;
    let taken = taken_marks(alloc, code, &targets)?;
    let mut acts = Vec::new(alloc);
    push_all_runs(&lists, &taken, &mut acts)?;
    push_folds(&targets, &mut acts)?;
    Ok(acts)
}
