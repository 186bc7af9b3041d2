// Where chains of gotos end.
ghost use Rattle.std.specs.Prelude.{◌≡◌, ◌<◌, ◌≤◌, ℕ, IfOk, length, slice_index_or};
ghost use Rattle.code_edit.specs.Flow.{of_ins};
ghost use Rattle.code_edit.specs.Jumps.{is_goto};
ghost use Rattle.code_edit.specs.Passes.{end_of};
ghost use Rattle.code_edit.specs.SoundCode.{IsSound};
ghost use Rattle.edit_passes.specs.Chains.{IsTable, doubled, ends_in, goes_to, steps_of};

use class_model::{Code, Op};
use jv_base::M;
use std::alloc::Global;

/// Where a goto leads; any other operation stays at its index.
fn goes_to(at: u32, op: &Op) -> u32
    ensures { result ≡ goes_to at op.now }
{
    match op {
        Op::Goto(to) => *to,
        _ => at,
    }
}

fn steps_of(alloc: Global, code: &Code) -> M<Vec<u32>>
    requires { length code.now.ins < 4294967295 }
    ensures { IfOk result (λ table. table.items ≡ steps_of code.now) }
{
    let mut table = Vec::with_capacity(alloc, code.ins.len())?;
    let mut at: u32 = 0;
    for ins in code.ins.as_slice() {
        table.push(goes_to(at, &ins.op))?;
        at += 1;
    }
    Ok(table)
}

fn read(table: &[u32], at: u32) -> u32
    ensures { result ≡ slice_index_or table.now at at }
{
    match table.get(at as usize) {
        Some(to) => *to,
        None => at,
    }
}

/// Twice as many steps.
fn doubled(alloc: Global, table: &[u32]) -> M<Vec<u32>>
    ensures { IfOk result (λ twice. twice.items ≡ doubled table.now) }
{
    let mut twice = Vec::with_capacity(alloc, table.len())?;
    for to in table {
        twice.push(read(table, *to))?;
    }
    Ok(twice)
}

/// Where as many steps lead from each index as there are instructions, or more: the end of its
/// chain of gotos, or some goto of a circle.
#[tactic(auto, using(crate::proofs::Walking::first_table))]
pub(crate) fn chain_table(alloc: Global, code: &Code) -> M<Vec<u32>>
    requires few { length code.now.ins < 4294967295 }
    requires sound { IsSound code.now }
    ensures { IfOk result (λ table. (n : ℕ) × (length code.now.ins ≤ n)
        × IsTable code.now n table.items) }
{
    let mut table = steps_of(alloc, code)?;
    let mut steps = 1;
    while steps < code.ins.len() {
        table = doubled(alloc, &table)?;
        steps *= 2;
    }
    Ok(table)
}

fn is_goto_at(code: &Code, at: u32) -> bool
    ensures { result ≡ of_ins is_goto code.now at }
{
    match code.ins.get(at as usize) {
        Some(ins) => matches!(ins.op, Op::Goto(_)),
        None => false,
    }
}

/// Where a target leads after the pass.
pub(crate) fn end_of(table: &[u32], code: &Code, to: u32) -> u32
    ensures { result ≡ end_of (ends_in table.now code.now) to }
{
    let end = read(table, to);
    if is_goto_at(code, end) { to } else { end }
}
