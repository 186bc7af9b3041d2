// Marks on indices.
ghost use Rattle.std.specs.Prelude.{◌≡◌, IfOk, length, map};
ghost use Rattle.class_model.specs.declared.op.Case.{Case};
ghost use Rattle.code_edit.specs.Flow.{targets};
ghost use Rattle.edit_tables.specs.Marks.{has, marked, none, put, target_marks, with_cuts};
ghost use Rattle.edit_tables.specs.Marks.{with_entries, with_skips, with_targets};

use class_model::{Case, Code, Handler, Ins, Op};
use code_edit::Act;
use jv_base::{Items, M};
use std::alloc::Global;

/// Whether an index is marked.
pub fn has(marks: &[bool], at: usize) -> bool
    ensures { result ≡ has marks.now at }
{
    match marks.get(at) {
        Some(mark) => *mark,
        None => false,
    }
}

/// One mark more.
pub fn put(marks: Vec<bool>, at: u32) -> Vec<bool>
    ensures { result.items ≡ put at marks.items }
{
    let mut marks = marks;
    let at = at as usize;
    if at < marks.len() {
        marks[at] = true;
    }
    marks
}

fn mark_table(marks: Vec<bool>, cases: &Items<u32>) -> Vec<bool>
    ensures { result.items ≡ marked cases.now marks.items }
{
    let mut marks = marks;
    for case in cases.as_slice() {
        marks = put(marks, *case);
    }
    marks
}

fn mark_cases(marks: Vec<bool>, cases: &Items<Case>) -> Vec<bool>
    ensures { result.items ≡ marked (map (λ (c : Case). c.to) cases.now) marks.items }
{
    let mut marks = marks;
    for case in cases.as_slice() {
        marks = put(marks, case.to);
    }
    marks
}

/// The targets of an instruction.
pub fn mark_targets(marks: Vec<bool>, op: &Op) -> Vec<bool>
    ensures { result.items ≡ marked (targets op.now) marks.items }
{
    match op {
        Op::IfZero(_, to)
        | Op::IfCmp(_, to)
        | Op::IfRef { to, .. }
        | Op::IfNull { to, .. }
        | Op::Goto(to) => put(marks, *to),
        Op::TableSwitch { other, cases, .. } => mark_table(put(marks, *other), cases),
        Op::LookupSwitch { other, cases } => mark_cases(put(marks, *other), cases),
        _ => marks,
    }
}

fn mark_all_targets(marks: Vec<bool>, ins: &Items<Ins>) -> Vec<bool>
    ensures { result.items ≡ with_targets ins.now marks.items }
{
    let mut marks = marks;
    for ins in ins.as_slice() {
        marks = mark_targets(marks, &ins.op);
    }
    marks
}

/// Marks where handlers begin.
pub fn mark_entries(marks: Vec<bool>, handlers: &Items<Handler>) -> Vec<bool>
    ensures { result.items ≡ with_entries handlers.now marks.items }
{
    let mut marks = marks;
    for handler in handlers.as_slice() {
        marks = put(marks, handler.entry);
    }
    marks
}

/// The targets of a code: those of its branches and switches, and the entries of its handlers.
pub fn target_marks(alloc: Global, code: &Code) -> M<Vec<bool>>
    ensures { IfOk result (λ marks. marks.items ≡ target_marks code.now) }
{
    let marks = vec![in alloc; false; code.ins.len()]?;
    let marks = mark_all_targets(marks, &code.ins);
    Ok(mark_entries(marks, &code.handlers))
}

/// The indices that acts cut, of so many.
pub fn cut_marks(alloc: Global, acts: &[Act], count: usize) -> M<Vec<bool>>
    ensures { IfOk result (λ marks. marks.items ≡ with_cuts acts.now (none count)) }
{
    let mut marks = vec![in alloc; false; count]?;
    for act in acts {
        if let Act::Cut { at } = act {
            marks = put(marks, *at);
        }
    }
    Ok(marks)
}

/// The indices that acts skip, of so many.
pub fn skip_marks(alloc: Global, acts: &[Act], count: usize) -> M<Vec<bool>>
    ensures { IfOk result (λ marks. marks.items ≡ with_skips acts.now (none count)) }
{
    let mut marks = vec![in alloc; false; count]?;
    for act in acts {
        if let Act::Skip { at } = act {
            marks = put(marks, *at);
        }
    }
    Ok(marks)
}
