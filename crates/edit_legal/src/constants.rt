// Which acts of const are legal.
ghost use Rattle.std.specs.Prelude.{◌≡◌, ◌<◌, ◌+◌, IfOk, length, slice_get};
ghost use Rattle.std.specs.List.{list_all};
ghost use Rattle.code_edit.specs.Deciding.{operands};
ghost use Rattle.const_tables.specs.Predecessors.{row};
ghost use Rattle.edit_legal.specs.ConstTables.{IsConstants};
ghost use Rattle.edit_legal.specs.Decidable.{all_folded, is_lost, is_number, is_place, keeps_last};
ghost use Rattle.edit_legal.specs.Decidable.{leads_by, may_decide, may_fold, may_stand};
ghost use Rattle.edit_legal.specs.Decidable.{may_stand_on, one_leads, still_aimed, supports};
ghost use Rattle.edit_legal.specs.Decidable.{next_up_to, targets_after, two_lead, up_to};
ghost use Rattle.edit_legal.specs.Decidable.{with_folded};
ghost use Rattle.edit_tables.specs.Marks.{marked, none};
ghost use Rattle.edit_tables.specs.Spread.{spread};

use crate::aiming::end_of;
use crate::marking::mark;
use crate::rules::Rules;
use crate::support::{Fact, Known, const_in, known_of, supports};
use class_model::{Code, Ins, Op};
use code_edit::Act;
use const_tables::deciding::{led_by_one, led_by_two};
use const_tables::facts::first_at;
use const_tables::folding::{fold_in, folds_of, unfolded};
use const_tables::predecessors::predecessors_of;
use edit_tables::marks::{has, mark_entries, mark_targets, put};
use edit_tables::places::{lives_in, places};
use edit_tables::spreading::mark_entered;
use jv_base::{Items, M};
use std::alloc::Global;

/// What const asks: facts support each fact, known operands decide each fold, and no two acts of one
/// kind name one place.
#[derive(Drop)]
pub(crate) struct Constants<'a> {
    known: Known<'a>,
    /// Of each index, from where control may come.
    predecessors: Vec<Items<u32>>,
    /// Of each index, whether a handler begins there.
    entries: Vec<bool>,
    /// One more than the last index that lives after the folds.
    end: usize,
    /// Of each index, whether what lives after the folds leads there.
    aimed: Vec<bool>,
    /// Of each index, whether an act that was noted folds it.
    folded: Vec<bool>,
    /// How many acts were noted.
    count: usize,
}

// ---- after the folds

/// Marks the targets of an instruction after the folds.
fn mark_after(marks: Vec<bool>, folds: &[Option<u32>], at: usize, ins: &Ins) -> Vec<bool>
    ensures { result.items ≡ marked (targets_after folds.now at ins.now) marks.items }
{
    match fold_in(folds, at) {
        Some(to) => put(marks, to),
        None => mark_targets(marks, &ins.op),
    }
}

fn mark_all_after(
    marks: Vec<bool>,
    folds: &[Option<u32>],
    lives: &[bool],
    ins: &Items<Ins>,
) -> Vec<bool>
    ensures { result.items ≡ spread (targets_after folds.now) lives.now 0 ins.now marks.items }
{
    let mut marks = marks;
    let mut at = 0;
    for ins in ins.as_slice() {
        if lives_in(lives, at) {
            marks = mark_after(marks, folds, at, ins);
        }
        at += 1;
    }
    marks
}

/// The indices to which what lives still leads after the folds.
fn still_aimed(alloc: Global, folds: &[Option<u32>], lives: &[bool], code: &Code) -> M<Vec<bool>>
    requires { length lives.now < 4294967295 }
    ensures { IfOk result (λ marks. marks.items ≡ still_aimed folds.now lives.now code.now) }
{
    let places = places(alloc, lives)?;
    let marks = vec![in alloc; false; code.ins.len()]?;
    let marks = mark_all_after(marks, folds, lives, &code.ins);
    Ok(mark_entered(marks, &places, &code.handlers))
}

fn is_lost(end: usize, aimed: &[bool], at: usize) -> bool
    ensures { result ≡ is_lost end aimed.now at }
{
    end <= at && has(aimed, at)
}

/// Whether nothing is led to that a fold takes along and behind which nothing lives.
fn keeps_last(end: usize, aimed: &[bool], op: &Op, at: u32, to: u32) -> bool
    requires { at < 4294967295 }
    ensures { result ≡ keeps_last end aimed.now (operands op.now) at to }
{
    let place = at as usize;
    let one = is_lost(end, aimed, place.saturating_sub(1));
    let two = is_lost(end, aimed, place.saturating_sub(2));
    let itself = to == at + 1 && is_lost(end, aimed, place);
    match op {
        Op::IfZero(..) | Op::TableSwitch { .. } | Op::LookupSwitch { .. } => !(itself || one),
        Op::IfCmp(..) => !(itself || one || two),
        _ => !itself,
    }
}

// ---- folds

fn is_place(led: Option<u32>, to: u32) -> bool
    ensures { result ≡ is_place led to }
{
    match led {
        Some(led) => led == to,
        None => false,
    }
}

/// Where a branch or switch on one known int leads, if it is no target.
fn one_leads(known: &Known, at: u32, op: &Op) -> Option<u32>
    requires { at < 4294967295 }
    ensures { result ≡ one_leads known.now.code.now known.now.acts.now known.now.facts
        known.now.targets.items at op.now }
{
    if at < 1 || has(&known.targets, at as usize) {
        return None;
    }
    led_by_one(op, const_in(known, at - 1), at)
}

/// Where a branch on two leads, if neither it nor the second one is a target.
fn two_lead(known: &Known, at: u32, op: &Op) -> Option<u32>
    requires { at < 4294967295 }
    ensures { result ≡ two_lead known.now.code.now known.now.acts.now known.now.facts
        known.now.targets.items at op.now }
{
    if at < 2 || has(&known.targets, at as usize) || has(&known.targets, at as usize - 1) {
        return None;
    }
    led_by_two(op, const_in(known, at - 2), const_in(known, at - 1), at)
}

fn leads(known: &Known, at: u32, op: &Op) -> Option<u32>
    requires { at < 4294967295 }
    ensures { result ≡ leads_by known.now.code.now known.now.acts.now known.now.facts
        known.now.targets.items (operands op.now) at op.now }
{
    match op {
        Op::IfZero(..) | Op::TableSwitch { .. } | Op::LookupSwitch { .. } => {
            one_leads(known, at, op)
        }
        Op::IfCmp(..) => two_lead(known, at, op),
        _ => None,
    }
}

/// Whether the branch or switch at an index may be folded to another one.
fn may_fold(known: &Known, end: usize, aimed: &[bool], at: u32, to: u32) -> bool
    requires { length known.now.code.now.ins < 4294967295 }
    ensures { result ≡ may_fold known.now.code.now known.now.acts.now known.now.facts
        known.now.targets.items end aimed.now at to (slice_get known.now.code.now.ins at) }
{
    match known.code.ins.get(at as usize) {
        Some(ins) => {
            is_place(leads(known, at, &ins.op), to) && keeps_last(end, aimed, &ins.op, at, to)
        }
        None => false,
    }
}

// ---- facts

fn is_number(first: Option<usize>, number: usize) -> bool
    ensures { result ≡ is_number first number }
{
    match first {
        Some(first) => first == number,
        None => false,
    }
}

fn all_support(known: &Known, fact: &Fact, row: &[u32]) -> bool
    ensures { result ≡ list_all (supports known.now.code.now known.now.acts.now known.now.facts
        known.now.targets.items fact.now.slot fact.now.value) row.now }
{
    for at in row {
        if !supports(known, fact, *at) {
            return false;
        }
    }
    true
}

/// Whether facts support a fact at each instruction from which control may come to an index.
fn is_supported(known: &Known, lists: &[Items<u32>], fact: &Fact, at: usize) -> bool
    ensures { result ≡ list_all (supports known.now.code.now known.now.acts.now known.now.facts
        known.now.targets.items fact.now.slot fact.now.value) (row lists.now at) }
{
    match lists.get(at) {
        Some(row) => all_support(known, fact, row.as_slice()),
        None => true,
    }
}

/// Whether a fact may be at an index, and the act of this number is the first that names it.
fn may_stand(
    known: &Known,
    lists: &[Items<u32>],
    entries: &[bool],
    number: usize,
    fact: &Fact,
    at: usize,
) -> bool
    requires { length known.now.code.now.ins < 4294967295 }
    ensures { result ≡ may_stand known.now.code.now known.now.acts.now known.now.facts
        known.now.targets.items lists.now entries.now number fact.now.slot fact.now.value at }
{
    if at >= known.code.ins.len() {
        return false;
    }
    at != 0
        && !has(entries, at)
        && is_number(first_at(&known.facts, fact.slot, at as u32), number)
        && is_supported(known, lists, fact, at)
}

/// The same of so many indices from one on.
fn may_stand_on(
    known: &Known,
    lists: &[Items<u32>],
    entries: &[bool],
    number: usize,
    fact: &Fact,
    from: usize,
    count: usize,
) -> bool
    requires few { length known.now.code.now.ins < 4294967295 }
    requires range { from + count < 18446744073709551616 }
    ensures { result ≡ may_stand_on known.now.code.now known.now.acts.now known.now.facts
        known.now.targets.items lists.now entries.now number fact.now.slot fact.now.value from
        count }
{
    let mut at = from;
    for _ in 0..count {
        if !may_stand(known, lists, entries, number, fact, at) {
            return false;
        }
        at += 1;
    }
    true
}

// ---- the rules

/// What const asks of acts, of which none was noted.
pub(crate) fn constants_of<'a>(alloc: Global, acts: &'a [Act], code: &'a Code) -> M<Constants<'a>>
    requires { length code.now.ins < 4294967295 }
    ensures { IfOk result (λ rules. IsConstants acts.now code.now rules) }
{
    let folds = folds_of(alloc, acts, code.ins.len())?;
    let lives = unfolded(alloc, &folds, code)?;
    let end = end_of(&lives);
    let aimed = still_aimed(alloc, &folds, &lives, code)?;
    let known = known_of(alloc, acts, code)?;
    Ok(Constants {
        known,
        predecessors: predecessors_of(alloc, code)?,
        entries: mark_entries(vec![in alloc; false; code.ins.len()]?, &code.handlers),
        end,
        aimed,
        folded: vec![in alloc; false; code.ins.len()]?,
        count: 0,
    })
}

/// Marks the index that an act folds, if it does.
fn mark_fold(marks: &mut Vec<bool>, act: &Act)
    ensures { marks.new.items ≡ with_folded act.now marks.old.items }
{
    if let Act::Fold { at, .. } = act {
        mark(marks, *at as usize);
    }
}

fn next_number(number: usize, end: usize) -> usize
    ensures { result ≡ next_up_to number end }
{
    if number < end { number + 1 } else { number }
}

impl Rules for Constants<'_> {
    ghost allows = { λ rules. may_decide rules.known.code.now rules.known.acts.now
        rules.known.facts rules.known.targets.items rules.predecessors.items rules.entries.items
        rules.end rules.aimed.items };

    ghost noted = { λ rules before. (rules.count ≡ up_to (length before)
        (length rules.known.acts.now))
        × (rules.folded.items ≡ all_folded before (none (length rules.known.code.now.ins))) };

    ghost holds = { λ rules. length rules.known.code.now.ins < 4294967295 };

    fn allows(&self, act: &Act) -> bool {
        match act {
            Act::Fact {
                from,
                to,
                slot,
                value,
            } => {
                let from = *from as usize;
                let to = *to as usize;
                let fact = Fact {
                    slot: *slot,
                    value: *value,
                };
                from <= to
                    && may_stand_on(
                        &self.known,
                        &self.predecessors,
                        &self.entries,
                        self.count,
                        &fact,
                        from,
                        to + 1 - from,
                    )
            }
            Act::Fold { at, to } => {
                may_fold(&self.known, self.end, &self.aimed, *at, *to)
                    && !has(&self.folded, *at as usize)
            }
            _ => false,
        }
    }

    fn note(&mut self, act: &Act) -> M<()> {
        mark_fold(&mut self.folded, act);
        self.count = next_number(self.count, self.known.acts.len());
        Ok(())
    }
}
