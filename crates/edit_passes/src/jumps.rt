// What jumps finds: branches to gotos, and branches to the next instruction.
ghost use Rattle.std.specs.Prelude.{◌≡◌, ◌<◌, ◌+◌, ◌++◌, [], ◌∷◌, IfOk, OnOk, length, map};
ghost use Rattle.class_model.specs.declared.op.Case.{Case};
ghost use Rattle.code_edit.specs.declared.act.Pass.TheVariants as pass;
ghost use Rattle.code_edit.specs.Flow.{targets};
ghost use Rattle.code_edit.specs.Jumps.{skip_target};
ghost use Rattle.code_edit.specs.Passes.{IsJumpsEdits, aims_from, aims_on, leads_next, skips_from};
ghost use Rattle.code_edit.specs.SoundCode.{IsSound};
ghost use Rattle.edit_passes.specs.Chains.{ends_in};

use crate::chains::{chain_table, end_of};
use class_model::{Case, Code, Ins, Op};
use code_edit::{Act, Pass, PassEdits};
use jv_base::{Items, M, OutOfMemory};
use std::alloc::Global;

/// The next number of a target. A switch with more cases than numbers is want of memory.
fn next(which: u32) -> M<u32>
    ensures { IfOk result (λ next. next ≡ which + 1) }
{
    if which == u32::MAX {
        return Err(OutOfMemory);
    }
    Ok(which + 1)
}

/// An aim of a target that isn't the end of its chain.
fn aim_one(acts: &mut Items<Act>, table: &[u32], code: &Code, at: u32, which: u32, to: u32) -> M<()>
    ensures { OnOk result (acts.new
        ≡ acts.old ++ aims_on (ends_in table.now code.now) at which (to ∷ [])) }
{
    let end = end_of(table, code, to);
    if end == to {
        return Ok(());
    }
    acts.push(Act::Aim { at, which, to: end })?;
    Ok(())
}

#[tactic(auto, using(crate::proofs::Aiming::aims_next))]
fn aim_table(
    acts: &mut Items<Act>,
    table: &[u32],
    code: &Code,
    at: u32,
    cases: &Items<u32>,
) -> M<()>
    ensures { OnOk result (acts.new
        ≡ acts.old ++ aims_on (ends_in table.now code.now) at 1 cases.now) }
{
    let mut which: u32 = 1;
    for case in cases.as_slice() {
        aim_one(acts, table, code, at, which, *case)?;
        which = next(which)?;
    }
    Ok(())
}

#[tactic(auto, using(crate::proofs::Aiming::aims_next))]
fn aim_cases(
    acts: &mut Items<Act>,
    table: &[u32],
    code: &Code,
    at: u32,
    cases: &Items<Case>,
) -> M<()>
    ensures { OnOk result (acts.new
        ≡ acts.old ++ aims_on (ends_in table.now code.now) at 1
        (map (λ (c : Case). c.to) cases.now)) }
{
    let mut which: u32 = 1;
    for case in cases.as_slice() {
        aim_one(acts, table, code, at, which, case.to)?;
        which = next(which)?;
    }
    Ok(())
}

/// The aims of the targets of an instruction.
#[tactic(auto, using(crate::proofs::Aiming::aims_next))]
fn aim_op(acts: &mut Items<Act>, table: &[u32], code: &Code, at: u32, op: &Op) -> M<()>
    ensures { OnOk result (acts.new
        ≡ acts.old ++ aims_on (ends_in table.now code.now) at 0 (targets op.now)) }
{
    match op {
        Op::IfZero(_, to)
        | Op::IfCmp(_, to)
        | Op::IfRef { to, .. }
        | Op::IfNull { to, .. }
        | Op::Goto(to) => aim_one(acts, table, code, at, 0, *to),
        Op::TableSwitch { other, cases, .. } => {
            aim_one(acts, table, code, at, 0, *other)?;
            aim_table(acts, table, code, at, cases)
        }
        Op::LookupSwitch { other, cases } => {
            aim_one(acts, table, code, at, 0, *other)?;
            aim_cases(acts, table, code, at, cases)
        }
        _ => Ok(()),
    }
}

fn aim_all(acts: &mut Items<Act>, table: &[u32], code: &Code) -> M<()>
    requires few { length code.now.ins < 4294967295 }
    ensures { OnOk result (acts.new
        ≡ acts.old ++ aims_from (ends_in table.now code.now) 0 code.now.ins) }
{
    let mut at: u32 = 0;
    for ins in code.ins.as_slice() {
        aim_op(acts, table, code, at, &ins.op)?;
        at += 1;
    }
    Ok(())
}

/// Whether a branch may be skipped after the aims.
fn leads_next(table: &[u32], code: &Code, at: u32, ins: &Ins) -> bool
    requires { at < 4294967295 }
    ensures { result
        ≡ leads_next (ends_in table.now code.now) at (skip_target ins.now.op) }
{
    match &ins.op {
        Op::Goto(to)
        | Op::IfZero(_, to)
        | Op::IfCmp(_, to)
        | Op::IfRef { to, .. }
        | Op::IfNull { to, .. } => end_of(table, code, *to) == at + 1,
        _ => false,
    }
}

fn skip_all(acts: &mut Items<Act>, table: &[u32], code: &Code) -> M<()>
    requires { length code.now.ins < 4294967295 }
    ensures { OnOk result (acts.new
        ≡ acts.old ++ skips_from (ends_in table.now code.now) 0 code.now.ins) }
{
    let mut at: u32 = 0;
    for ins in code.ins.as_slice() {
        if leads_next(table, code, at, ins) {
            acts.push(Act::Skip { at })?;
        }
        at += 1;
    }
    Ok(())
}

/// The acts of jumps: first an aim of each target that leads to a goto, to the end of its chain of
/// gotos, where it has one; then a skip of each branch that leads to the next index after that. The
/// ends are found by doubling steps, in the time of as many passes over the code as its length has
/// binary digits.
pub fn jumps_edits(alloc: Global, code: &Code) -> M<PassEdits>
    requires few { length code.now.ins < 4294967295 }
    requires sound { IsSound code.now }
    ensures pass { IfOk result (λ edits. edits.pass ≡ pass.Jumps) }
    ensures acts { IfOk result (λ edits. IsJumpsEdits code.now edits.acts) }
{
    let table = chain_table(alloc, code)?;
    let mut acts = Items::new(alloc);
    aim_all(&mut acts, &table, code)?;
    skip_all(&mut acts, &table, code)?;
    Ok(PassEdits {
        pass: Pass::Jumps,
        acts,
    })
}
