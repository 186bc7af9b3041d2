// The facts of a slot by a worklist: an instruction is looked at when something new is known before
// it.
ghost use Rattle.std.specs.Prelude.{◌≡◌, ◌≢◌, ◌<◌, IfOk, OnOk, length};
ghost use Rattle.std.specs.List.{All};
ghost use Rattle.code_edit.specs.Facts.{IsAllReached, IsLargest, change_at};
ghost use Rattle.code_edit.specs.Flow.{goes_elsewhere, next_of, successors, targets};
ghost use Rattle.code_edit.specs.SoundCode.{IsSound};
ghost use Rattle.const_facts.specs.Marked.{AreMarks};
ghost use Rattle.const_facts.specs.Order.{through};
ghost use Rattle.const_facts.specs.Worklist.{Due, Flows, Grows, IsAbove, IsOpen, IsWhole};
ghost use Rattle.const_facts.specs.Worklist.{case_targets, held_at};
ghost use Rattle.const_facts.specs.declared.held.Held.TheVariants.{Unreached, Varies};

use crate::changes::change_at;
use crate::held::{Held, ints, is_same, meet, through};
use class_model::{Case, Code, Op};
use jv_base::M;
use std::alloc::Global;

/// What is known so far, and the instructions before which something new is known.
#[derive(Drop)]
struct Work {
    held: Vec<Held>,
    waiting: Vec<u32>,
}

/// For each instruction the int that a slot always holds before it, by the largest set of facts.
/// The marks are those of the targets. Each instruction is looked at twice at most, so the time
/// grows with the instructions and their targets.
pub fn facts_of_slot(alloc: Global, code: &Code, marks: &[bool], slot: u32) -> M<Vec<Option<i32>>>
    requires sound { IsSound code.now }
    requires few { length code.now.ins < 4294967295 }
    requires reached { IsAllReached code.now }
    requires marks { AreMarks code.now marks.now }
    ensures { IfOk result (λ known. IsLargest code.now slot known.items) }
{
    let mut work = Work {
        held: vec![in alloc; Held::Unreached; code.ins.len()]?,
        waiting: Vec::new(alloc),
    };
    begin(code, slot, &mut work)?;
    settle(code, marks, slot, &mut work)?;
    let known = ints(alloc, &work.held)?;
    Ok(known)
}

/// Nothing is known where the code and its handlers begin.
fn begin(code: &Code, slot: u32, work: &mut Work) -> M<()>
    requires whole { IsWhole code.now }
    requires above { IsAbove code.now slot work.old }
    ensures above { OnOk result (IsAbove code.now slot work.new) }
    ensures grows { OnOk result (Grows work.old work.new) }
    ensures first { OnOk result (held_at work.new 0 ≡ Varies) }
    ensures handlers { OnOk result
        (All (λ h. held_at work.new h.entry ≡ Varies) code.now.handlers) }
{
    lower(code, slot, work, 0, Held::Varies)?;
    for handler in code.handlers.as_slice() {
        lower(code, slot, work, handler.entry, Held::Varies)?;
    }
    Ok(())
}

/// Looks at the instructions that wait, until none does.
fn settle(code: &Code, marks: &[bool], slot: u32, work: &mut Work) -> M<()>
    requires whole { IsWhole code.now }
    requires marks { AreMarks code.now marks.now }
    requires open { IsOpen code.now slot work.old }
    ensures open { OnOk result (IsOpen code.now slot work.new) }
    ensures empty { OnOk result (length work.new.waiting.items ≡ 0) }
{
    while let Some(at) = work.waiting.pop() {
        look(code, marks, slot, work, at)?;
    }
    Ok(())
}

/// Takes what is known after an instruction to all that may come next.
fn look(code: &Code, marks: &[bool], slot: u32, work: &mut Work, at: u32) -> M<()>
    requires whole { IsWhole code.now }
    requires marks { AreMarks code.now marks.now }
    requires above { IsAbove code.now slot work.old }
    requires at { at < length code.now.ins }
    requires known { held_at work.old at ≢ Unreached }
    ensures above { OnOk result (IsAbove code.now slot work.new) }
    ensures grows { OnOk result (Grows work.old work.new) }
    ensures flows { OnOk result (All (Flows work.new (through (change_at code.now slot at)
        (held_at work.old at))) (successors code.now at)) }
{
    let change = change_at(code, marks, slot, at);
    let known = work.held[at as usize];
    let out = through(change, known);
    let ins = &code.ins[at as usize];
    go_on(code, slot, work, at, &ins.op, out)?;
    jump(code, slot, work, &ins.op, out)?;
    Ok(())
}

fn go_on(code: &Code, slot: u32, work: &mut Work, at: u32, op: &Op, out: Held) -> M<()>
    requires above { IsAbove code.now slot work.old }
    requires few { length code.now.ins < 4294967295 }
    requires at { at < length code.now.ins }
    requires known { out ≢ Unreached }
    requires due { All (Due code.now slot out) (next_of (length code.now.ins) at op.now) }
    ensures above { OnOk result (IsAbove code.now slot work.new) }
    ensures grows { OnOk result (Grows work.old work.new) }
    ensures flows { OnOk result
        (All (Flows work.new out) (next_of (length code.now.ins) at op.now)) }
{
    if !goes_elsewhere(op) && (at as usize) + 1 < code.ins.len() {
        lower(code, slot, work, at + 1, out)?;
    }
    Ok(())
}

fn goes_elsewhere(op: &Op) -> bool
    ensures { result ≡ goes_elsewhere op.now }
{
    matches!(
        op,
        Op::Goto(_) | Op::TableSwitch { .. } | Op::LookupSwitch { .. } | Op::Return(_) | Op::Throw
    )
}

fn jump(code: &Code, slot: u32, work: &mut Work, op: &Op, out: Held) -> M<()>
    requires above { IsAbove code.now slot work.old }
    requires below { All (λ t. t < length code.now.ins) (targets op.now) }
    requires known { out ≢ Unreached }
    requires due { All (Due code.now slot out) (targets op.now) }
    ensures above { OnOk result (IsAbove code.now slot work.new) }
    ensures grows { OnOk result (Grows work.old work.new) }
    ensures flows { OnOk result (All (Flows work.new out) (targets op.now)) }
{
    match op {
        Op::IfZero(_, to)
        | Op::IfCmp(_, to)
        | Op::IfRef { to, .. }
        | Op::IfNull { to, .. }
        | Op::Goto(to) => lower_all(code, slot, work, &[*to], out),
        Op::TableSwitch { other, cases, .. } => {
            lower_all(code, slot, work, &[*other], out)?;
            lower_all(code, slot, work, cases.as_slice(), out)
        }
        Op::LookupSwitch { other, cases } => {
            lower_all(code, slot, work, &[*other], out)?;
            lower_cases(code, slot, work, cases.as_slice(), out)
        }
        _ => Ok(()),
    }
}

fn lower_cases(code: &Code, slot: u32, work: &mut Work, cases: &[Case], out: Held) -> M<()>
    requires above { IsAbove code.now slot work.old }
    requires below { All (λ t. t < length code.now.ins) (case_targets cases.now) }
    requires known { out ≢ Unreached }
    requires due { All (Due code.now slot out) (case_targets cases.now) }
    ensures above { OnOk result (IsAbove code.now slot work.new) }
    ensures grows { OnOk result (Grows work.old work.new) }
    ensures flows { OnOk result (All (Flows work.new out) (case_targets cases.now)) }
{
    for case in cases {
        lower(code, slot, work, case.to, out)?;
    }
    Ok(())
}

fn lower_all(code: &Code, slot: u32, work: &mut Work, places: &[u32], out: Held) -> M<()>
    requires above { IsAbove code.now slot work.old }
    requires below { All (λ t. t < length code.now.ins) places.now }
    requires known { out ≢ Unreached }
    requires due { All (Due code.now slot out) places.now }
    ensures above { OnOk result (IsAbove code.now slot work.new) }
    ensures grows { OnOk result (Grows work.old work.new) }
    ensures flows { OnOk result (All (Flows work.new out) places.now) }
{
    for to in places {
        lower(code, slot, work, *to, out)?;
    }
    Ok(())
}

/// What is known on a way to an instruction counts there; where that is new, the instruction waits.
fn lower(code: &Code, slot: u32, work: &mut Work, to: u32, out: Held) -> M<()>
    requires above { IsAbove code.now slot work.old }
    requires to { to < length code.now.ins }
    requires known { out ≢ Unreached }
    requires due { Due code.now slot out to }
    ensures above { OnOk result (IsAbove code.now slot work.new) }
    ensures grows { OnOk result (Grows work.old work.new) }
    ensures flows { OnOk result (Flows work.new out to) }
{
    let before = work.held[to as usize];
    let now = meet(before, out);
    if !is_same(before, now) {
        work.held[to as usize] = now;
        work.waiting.push(to)?;
    }
    Ok(())
}
