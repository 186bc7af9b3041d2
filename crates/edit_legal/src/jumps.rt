// Which acts of jumps are legal.
ghost use Rattle.std.specs.Prelude.{◌≡◌, ◌<◌, [], IfOk, length};
ghost use Rattle.edit_tables.specs.declared.aims.Aims.{Aims};
ghost use Rattle.code_edit.specs.Jumps.{skip_target};
ghost use Rattle.edit_legal.specs.Movable.{is_skippable, may_jump, skippable, skippable_by};
ghost use Rattle.edit_tables.specs.Aimed.{TellsAims};
ghost use Rattle.edit_tables.specs.Marks.{none, with_skip, with_skips};

use crate::aiming::{end_of, follows_from, still_aimed};
use crate::marking::mark;
use crate::rules::Rules;
use class_model::{Code, Ins, Op};
use code_edit::Act;
use edit_tables::aims::{Aims, aimed, aims_of, is_kept, keep_act, no_aims};
use edit_tables::marks::{has, skip_marks};
use edit_tables::skipping::unskipped;
use jv_base::M;
use std::alloc::Global;

/// What jumps asks: an aim follows gotos, a skip names what may be skipped, no two acts name one
/// place.
#[derive(Drop)]
pub(crate) struct Jumps<'a> {
    code: &'a Code,
    /// Of each index, whether it may be skipped.
    skippable: Vec<bool>,
    /// The aims that were noted.
    aims: Aims,
    /// Of each index, whether an act that was noted skips it.
    skipped: Vec<bool>,
}

/// The one target of a branch that may be skipped.
fn skip_target(op: &Op) -> Option<u32>
    ensures { result ≡ skip_target op.now }
{
    match op {
        Op::Goto(to)
        | Op::IfZero(_, to)
        | Op::IfCmp(_, to)
        | Op::IfRef { to, .. }
        | Op::IfNull { to, .. } => Some(*to),
        _ => None,
    }
}

/// Whether a branch may be skipped: after the aims it leads to the next index, and nothing that
/// lives leads to it where nothing lives behind it.
fn is_skippable(aims: &Aims, end: usize, marks: &[bool], at: usize, ins: &Ins) -> bool
    requires { at < 4294967295 }
    ensures { result ≡ is_skippable aims.now end marks.now at ins.now }
{
    match skip_target(&ins.op) {
        Some(to) => { aimed(aims, at, 0, to) as usize == at + 1 && !(end <= at && has(marks, at)) }
        None => false,
    }
}

/// Of each index, whether it may be skipped, where these are skipped and these live.
fn skippable_by(
    alloc: Global,
    aims: &Aims,
    skips: &[bool],
    lives: &[bool],
    code: &Code,
) -> M<Vec<bool>>
    requires few { length code.now.ins < 4294967295 }
    requires lives { length lives.now < 4294967295 }
    ensures { IfOk result (λ marks. marks.items
        ≡ skippable_by aims.now skips.now lives.now code.now) }
{
    let end = end_of(lives);
    let aimed = still_aimed(alloc, aims, skips, lives, code)?;
    let mut marks = Vec::with_capacity(alloc, code.ins.len())?;
    let mut at = 0;
    for ins in code.ins.as_slice() {
        marks.push(is_skippable(aims, end, &aimed, at, ins))?;
        at += 1;
    }
    Ok(marks)
}

fn skippable(alloc: Global, aims: &Aims, acts: &[Act], code: &Code) -> M<Vec<bool>>
    requires { length code.now.ins < 4294967295 }
    ensures { IfOk result (λ marks. marks.items ≡ skippable aims.now acts.now code.now) }
{
    let skips = skip_marks(alloc, acts, code.ins.len())?;
    let lives = unskipped(alloc, &skips, code)?;
    skippable_by(alloc, aims, &skips, &lives, code)
}

/// What jumps asks of acts, of which none was noted.
pub(crate) fn jumps_of<'a>(alloc: Global, acts: &[Act], code: &'a Code) -> M<Jumps<'a>>
    requires { length code.now.ins < 4294967295 }
    ensures code { IfOk result (λ jumps. jumps.code.now ≡ code.now) }
    ensures skippable { IfOk result (λ jumps. (aims : Aims) × TellsAims aims acts.now
        × (jumps.skippable.items ≡ skippable aims acts.now code.now)) }
    ensures noted { IfOk result (λ jumps. TellsAims jumps.aims []
        × (jumps.skipped.items ≡ none (length jumps.skippable.items))) }
{
    let aims = aims_of(alloc, acts)?;
    let skippable = skippable(alloc, &aims, acts, code)?;
    let skipped = vec![in alloc; false; skippable.len()]?;
    Ok(Jumps {
        code,
        skippable,
        aims: no_aims(alloc),
        skipped,
    })
}

/// Marks the index that an act skips, if it does.
fn mark_skip(marks: &mut Vec<bool>, act: &Act)
    ensures { marks.new.items ≡ with_skip act.now marks.old.items }
{
    if let Act::Skip { at } = act {
        mark(marks, *at as usize);
    }
}

impl Rules for Jumps<'_> {
    ghost allows = { λ jumps. may_jump jumps.code.now jumps.skippable.items };

    ghost noted = { λ jumps before. TellsAims jumps.aims before
        × (jumps.skipped.items ≡ with_skips before (none (length jumps.skippable.items))) };

    ghost holds = { λ jumps. Unit {0} };

    fn allows(&self, act: &Act) -> bool {
        match act {
            Act::Aim { at, which, to } => {
                let at = *at as usize;
                let which = *which as usize;
                follows_from(self.code, at, which, *to) && !is_kept(&self.aims, at, which)
            }
            Act::Skip { at } => {
                let at = *at as usize;
                has(&self.skippable, at) && !has(&self.skipped, at)
            }
            _ => false,
        }
    }

    fn note(&mut self, act: &Act) -> M<()> {
        keep_act(&mut self.aims, act)?;
        mark_skip(&mut self.skipped, act);
        Ok(())
    }
}
