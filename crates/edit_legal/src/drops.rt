// Which acts of reach are legal.
ghost use Rattle.std.specs.Prelude.{◌≡◌, ◌<◌, ◌+◌, IfOk, length};
ghost use Rattle.code_edit.specs.Flow.{successors_of};
ghost use Rattle.edit_legal.specs.Dropped.{are_free, may_drop, needed, needed_of, with_drops};
ghost use Rattle.edit_tables.specs.Spread.{spread};
ghost use Rattle.edit_tables.specs.Marks.{has, marked, none};
ghost use Rattle.class_model.specs.declared.code.Ins.{Ins};

use crate::marking::mark_range;
use crate::rules::Rules;
use class_model::{Code, Ins, Op};
use code_edit::Act;
use edit_tables::dropping::left_by;
use edit_tables::flow::goes_elsewhere;
use edit_tables::marks::{has, mark_targets, put};
use edit_tables::places::{lives_in, places};
use edit_tables::spreading::mark_entered;
use jv_base::{Items, M};
use std::alloc::Global;

/// What reach asks: control needs nothing that an act drops, and no two acts drop one index.
#[derive(Drop)]
pub(crate) struct Drops {
    /// Of each index, whether control needs it.
    needed: Vec<bool>,
    /// Of each index, whether an act that was noted drops it.
    dropped: Vec<bool>,
}

/// Marks the successors of an instruction, in a code of so many.
fn mark_successors(marks: Vec<bool>, count: u32, at: u32, op: &Op) -> Vec<bool>
    requires { at < count }
    ensures { result.items ≡ marked (successors_of count at op.now) marks.items }
{
    if goes_elsewhere(op) {
        return mark_targets(marks, op);
    }
    if at + 1 < count {
        return mark_targets(put(marks, at + 1), op);
    }
    mark_targets(marks, op)
}

fn mark_all_successors(marks: Vec<bool>, left: &[bool], ins: &Items<Ins>) -> Vec<bool>
    requires { length ins.now < 4294967295 }
    ensures { result.items
        ≡ spread (λ at (i : Ins). successors_of (length ins.now) at i.op) left.now 0 ins.now
        marks.items }
{
    let mut marks = marks;
    let count = ins.len() as u32;
    let mut at = 0;
    for ins in ins.as_slice() {
        if lives_in(left, at as usize) {
            marks = mark_successors(marks, count, at, &ins.op);
        }
        at += 1;
    }
    marks
}

/// Of each index, whether control needs it where these are left: it is the first, a successor of
/// one that is left, or the entry of a handler that covers one.
fn needed_of(alloc: Global, left: &[bool], code: &Code) -> M<Vec<bool>>
    requires few { length code.now.ins < 4294967295 }
    requires long { length left.now ≡ length code.now.ins }
    ensures { IfOk result (λ marks. marks.items ≡ needed_of left.now code.now) }
{
    let places = places(alloc, left)?;
    let marks = vec![in alloc; false; code.ins.len()]?;
    let marks = mark_all_successors(put(marks, 0), left, &code.ins);
    Ok(mark_entered(marks, &places, &code.handlers))
}

#[tactic(auto, using(crate::proofs::Lengths::left_long))]
fn needed(alloc: Global, acts: &[Act], code: &Code) -> M<Vec<bool>>
    requires { length code.now.ins < 4294967295 }
    ensures { IfOk result (λ marks. marks.items ≡ needed acts.now code.now) }
{
    let left = left_by(alloc, acts, code.ins.len())?;
    needed_of(alloc, &left, code)
}

/// What reach asks of acts, of which none was noted.
pub(crate) fn drops_of(alloc: Global, acts: &[Act], code: &Code) -> M<Drops>
    requires { length code.now.ins < 4294967295 }
    ensures needed { IfOk result (λ drops. drops.needed.items ≡ needed acts.now code.now) }
    ensures dropped { IfOk result (λ drops. drops.dropped.items
        ≡ none (length drops.needed.items)) }
{
    let needed = needed(alloc, acts, code)?;
    let dropped = vec![in alloc; false; needed.len()]?;
    Ok(Drops { needed, dropped })
}

/// Whether so many indices from one on are in neither list.
fn are_free(needed: &[bool], dropped: &[bool], from: usize, count: usize) -> bool
    requires { from + count < 18446744073709551616 }
    ensures { result ≡ are_free needed.now dropped.now from count }
{
    let mut at = from;
    for _ in 0..count {
        if has(needed, at) {
            return false;
        }
        if has(dropped, at) {
            return false;
        }
        at += 1;
    }
    true
}

impl Rules for Drops {
    ghost allows = { λ drops. may_drop drops.needed.items };

    ghost noted = { λ drops before. drops.dropped.items
        ≡ with_drops before (none (length drops.needed.items)) };

    ghost holds = { λ drops. Unit {0} };

    fn allows(&self, act: &Act) -> bool {
        match act {
            Act::Drop { from, to } => {
                let from = *from as usize;
                let to = *to as usize;
                from <= to
                    && to < self.needed.len()
                    && are_free(&self.needed, &self.dropped, from, to + 1 - from)
            }
            _ => false,
        }
    }

    #[tactic(auto, using(crate::proofs::Noting::drops_more))]
    fn note(&mut self, act: &Act) -> M<()> {
        if let Act::Drop { from, to } = act {
            let from = *from as usize;
            let count = (*to as usize + 1).saturating_sub(from);
            mark_range(&mut self.dropped, from, count);
        }
        Ok(())
    }
}
