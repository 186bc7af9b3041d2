// From which instructions control may come to an index (JVMS 2.11.7).
ghost use Rattle.std.specs.Prelude.{◌≡◌, ◌<◌, IfOk, OnOk, length, map, replicate, []};
ghost use Rattle.class_model.specs.declared.op.Case.{Case};
ghost use Rattle.code_edit.specs.Flow.{successors_of, targets};
ghost use Rattle.const_tables.specs.Predecessors.{linked, predecessors, with_link, with_links};

use class_model::{Case, Code, Ins, Op};
use edit_tables::flow::goes_elsewhere;
use jv_base::{Items, M};
use std::alloc::Global;

fn link(lists: &mut Vec<Items<u32>>, from: u32, to: u32) -> M<()>
    ensures { OnOk result (lists.new.items ≡ with_link from to lists.old.items) }
{
    let to = to as usize;
    if to < lists.len() {
        lists[to].push(from)?;
    }
    Ok(())
}

fn link_table(lists: &mut Vec<Items<u32>>, from: u32, cases: &Items<u32>) -> M<()>
    ensures { OnOk result (lists.new.items ≡ with_links from cases.now lists.old.items) }
{
    for case in cases.as_slice() {
        link(lists, from, *case)?;
    }
    Ok(())
}

fn link_cases(lists: &mut Vec<Items<u32>>, from: u32, cases: &Items<Case>) -> M<()>
    ensures { OnOk result (lists.new.items
        ≡ with_links from (map (λ (c : Case). c.to) cases.now) lists.old.items) }
{
    for case in cases.as_slice() {
        link(lists, from, case.to)?;
    }
    Ok(())
}

/// Control may come from an instruction to its targets.
fn link_targets(lists: &mut Vec<Items<u32>>, from: u32, op: &Op) -> M<()>
    ensures { OnOk result (lists.new.items ≡ with_links from (targets op.now) lists.old.items) }
{
    match op {
        Op::IfZero(_, to)
        | Op::IfCmp(_, to)
        | Op::IfRef { to, .. }
        | Op::IfNull { to, .. }
        | Op::Goto(to) => link(lists, from, *to),
        Op::TableSwitch { other, cases, .. } => {
            link(lists, from, *other)?;
            link_table(lists, from, cases)
        }
        Op::LookupSwitch { other, cases } => {
            link(lists, from, *other)?;
            link_cases(lists, from, cases)
        }
        _ => Ok(()),
    }
}

/// Control may come from an instruction to its successors, in a code of so many.
fn link_successors(lists: &mut Vec<Items<u32>>, count: u32, at: u32, op: &Op) -> M<()>
    requires { at < count }
    ensures { OnOk result (lists.new.items
        ≡ with_links at (successors_of count at op.now) lists.old.items) }
{
    if !goes_elsewhere(op) && at + 1 < count {
        link(lists, at, at + 1)?;
    }
    link_targets(lists, at, op)
}

fn link_all(lists: &mut Vec<Items<u32>>, ins: &Items<Ins>) -> M<()>
    requires { length ins.now < 4294967295 }
    ensures { OnOk result (lists.new.items ≡ linked (length ins.now) 0 ins.now lists.old.items) }
{
    let count = ins.len() as u32;
    let mut at = 0;
    for ins in ins.as_slice() {
        link_successors(lists, count, at, &ins.op)?;
        at += 1;
    }
    Ok(())
}

fn no_lists(alloc: Global, count: usize) -> M<Vec<Items<u32>>>
    ensures { IfOk result (λ lists. lists.items ≡ replicate count []) }
{
    let mut lists = Vec::with_capacity(alloc, count)?;
    for _ in 0..count {
        lists.push(Items::new(alloc))?;
    }
    Ok(lists)
}

/// For each index the instructions from which control may come, one of them maybe more than once.
pub fn predecessors_of(alloc: Global, code: &Code) -> M<Vec<Items<u32>>>
    requires { length code.now.ins < 4294967295 }
    ensures { IfOk result (λ lists. lists.items ≡ predecessors code.now) }
{
    let mut lists = no_lists(alloc, code.ins.len())?;
    link_all(&mut lists, &code.ins)?;
    Ok(lists)
}
