// What the acts of a step do at each index.
ghost use Rattle.std.specs.Prelude.{◌≡◌, ◌<◌, IfOk, length};
ghost use Rattle.code_edit.specs.Flow.{of_ins};
ghost use Rattle.code_edit.specs.Slots.{is_inc, is_push, is_store};
ghost use Rattle.edit_check.specs.StepTables.{IsConstTables, IsJumpsTables, IsReachTables};
ghost use Rattle.edit_check.specs.StepTables.{IsSlotsTables};
ghost use Rattle.edit_check.specs.Uncut.{is_uncut, takes, uncut};

use class_model::{Code, Op};
use code_edit::Act;
use const_tables::folding::{folds_of, unfolded};
use edit_tables::aims::{Aims, aims_of, no_aims};
use edit_tables::dropping::left_by;
use edit_tables::marks::{cut_marks, has, skip_marks, target_marks};
use edit_tables::skipping::unskipped;
use jv_base::M;
use std::alloc::Global;

/// What the acts of a step do at each index. An index outside a table stays as it is.
#[derive(Drop)]
pub(crate) struct Tables {
    /// Whether the instruction stays.
    pub(crate) lives: Vec<bool>,
    /// Whether a store becomes what takes its value from the stack.
    pub(crate) pops: Vec<bool>,
    /// Whether a branch becomes what takes its operands from the stack.
    pub(crate) skips: Vec<bool>,
    /// Where a branch or switch leads that becomes a goto.
    pub(crate) folds: Vec<Option<u32>>,
    pub(crate) aims: Aims,
}

/// Acts of reach, on so many instructions.
pub(crate) fn reach_tables(alloc: Global, acts: &[Act], count: usize) -> M<Tables>
    ensures { IfOk result (IsReachTables acts.now count) }
{
    Ok(Tables {
        lives: left_by(alloc, acts, count)?,
        pops: Vec::new(alloc),
        skips: Vec::new(alloc),
        folds: Vec::new(alloc),
        aims: no_aims(alloc),
    })
}

/// Acts of const.
pub(crate) fn const_tables(alloc: Global, acts: &[Act], code: &Code) -> M<Tables>
    requires { length code.now.ins < 4294967295 }
    ensures { IfOk result (IsConstTables acts.now code.now) }
{
    let folds = folds_of(alloc, acts, code.ins.len())?;
    let lives = unfolded(alloc, &folds, code)?;
    Ok(Tables {
        lives,
        pops: Vec::new(alloc),
        skips: Vec::new(alloc),
        folds,
        aims: no_aims(alloc),
    })
}

/// Acts of slots.
pub(crate) fn slots_tables(alloc: Global, acts: &[Act], code: &Code) -> M<Tables>
    requires { length code.now.ins < 4294967295 }
    ensures { IfOk result (IsSlotsTables acts.now code.now) }
{
    let targets = target_marks(alloc, code)?;
    let cuts = cut_marks(alloc, acts, code.ins.len())?;
    let lives = uncut(alloc, &cuts, &targets, code)?;
    Ok(Tables {
        lives,
        pops: cuts,
        skips: Vec::new(alloc),
        folds: Vec::new(alloc),
        aims: no_aims(alloc),
    })
}

/// Acts of jumps.
pub(crate) fn jumps_tables(alloc: Global, acts: &[Act], code: &Code) -> M<Tables>
    ensures { IfOk result (IsJumpsTables acts.now code.now) }
{
    let skips = skip_marks(alloc, acts, code.ins.len())?;
    let lives = unskipped(alloc, &skips, code)?;
    Ok(Tables {
        lives,
        pops: Vec::new(alloc),
        skips,
        folds: Vec::new(alloc),
        aims: aims_of(alloc, acts)?,
    })
}

// ---- which instructions stay

fn is_store_at(code: &Code, at: usize) -> bool
    ensures { result ≡ of_ins is_store code.now at }
{
    match code.ins.get(at) {
        Some(ins) => matches!(ins.op, Op::Store(..)),
        None => false,
    }
}

fn is_push_at(code: &Code, at: usize) -> bool
    ensures { result ≡ of_ins is_push code.now at }
{
    match code.ins.get(at) {
        Some(ins) => matches!(
            ins.op,
            Op::PushNull | Op::PushInt(_) | Op::PushLong(_) | Op::PushText(_) | Op::Load(..)
        ),
        None => false,
    }
}

fn is_inc_at(code: &Code, at: usize) -> bool
    ensures { result ≡ of_ins is_inc code.now at }
{
    match code.ins.get(at) {
        Some(ins) => matches!(ins.op, Op::Inc(..)),
        None => false,
    }
}

/// Whether a store goes together with the push before it.
fn takes(cuts: &[bool], targets: &[bool], code: &Code, at: usize) -> bool
    ensures { result ≡ takes cuts.now targets.now code.now at }
{
    has(cuts, at)
        && is_store_at(code, at)
        && is_push_at(code, at.saturating_sub(1))
        && !has(targets, at)
}

fn is_uncut(cuts: &[bool], targets: &[bool], code: &Code, at: usize) -> bool
    requires { at < 4294967295 }
    ensures { result ≡ is_uncut cuts.now targets.now code.now at }
{
    !(takes(cuts, targets, code, at + 1)
        || takes(cuts, targets, code, at)
        || has(cuts, at) && is_inc_at(code, at))
}

/// Of each index, whether no cut makes the instruction go.
pub(crate) fn uncut(alloc: Global, cuts: &[bool], targets: &[bool], code: &Code) -> M<Vec<bool>>
    requires { length code.now.ins < 4294967295 }
    ensures { IfOk result (λ lives. lives.items ≡ uncut cuts.now targets.now code.now) }
{
    let mut lives = Vec::with_capacity(alloc, code.ins.len())?;
    let mut at = 0;
    for _ in code.ins.as_slice() {
        lives.push(is_uncut(cuts, targets, code, at))?;
        at += 1;
    }
    Ok(lives)
}
