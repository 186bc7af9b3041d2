// The line of each instruction (JVMS 4.7.12).
ghost use Rattle.std.specs.Prelude.{◌≡◌, ◌<◌, ℕ, length, IfOk, OnOk, None};
ghost use Rattle.frame_read.specs.bodies.Numbers.{found};
ghost use Rattle.class_read.specs.bodies.Lines.{lined_by, lined, last_there, line_there, carried, offsets_up_to};

use crate::attributes::Line;
use class_model::{Ins, Op};
use jv_base::{Items, M};
use std::alloc::Global;

// How many offsets there are up to the last of these.
fn offsets_up_to(starts: &[u32]) -> usize
    ensures { result ≡ offsets_up_to starts.now }
{
    let mut count = 0;
    for start in starts {
        let start = *start as usize;
        if start >= count {
            count = start + 1;
        }
    }
    count
}

fn no_lines(alloc: Global, count: usize) -> M<Vec<Option<u16>>>
    ensures long { IfOk result (λ lines. length lines.items ≡ count) }
    ensures none { IfOk result (λ lines. (offset : ℕ) → found lines.items offset ≡ None) }
{
    let mut lines = Vec::with_capacity(alloc, count)?;
    for _ in 0..count {
        lines.push(None)?;
    }
    Ok(lines)
}

fn note(lines: &mut Vec<Option<u16>>, row: &Line)
    ensures long { length lines.new.items ≡ length lines.old.items }
    ensures noted { (offset : ℕ) → offset < length lines.old.items → found lines.new.items offset
        ≡ last_there offset (found lines.old.items offset) row.now }
{
    let start = usize::from(row.start_pc);
    if start < lines.len() {
        lines[start] = Some(row.line_number);
    }
}

// For each of so many offsets the line of the last row that starts there.
fn lines_there(alloc: Global, count: usize, rows: &[Line]) -> M<Vec<Option<u16>>>
    ensures long { IfOk result (λ lines. length lines.items ≡ count) }
    ensures found { IfOk result (λ lines. (offset : ℕ) → offset < count → found lines.items offset
        ≡ line_there rows.now offset) }
{
    let mut lines = no_lines(alloc, count)?;
    for row in rows {
        note(&mut lines, row);
    }
    Ok(lines)
}

// An offset at which no row starts has the line of the one before.
fn carried(alloc: Global, lines: &[Option<u16>]) -> M<Vec<Option<u16>>>
    ensures { IfOk result (λ full. full.items ≡ carried None lines.now) }
{
    let mut full = Vec::with_capacity(alloc, lines.len())?;
    let mut line = None;
    for next in lines {
        line = next.or(line);
        full.push(line)?;
    }
    Ok(full)
}

fn line_in(lines: &[Option<u16>], start: u32) -> Option<u16>
    ensures { result ≡ found lines.now start }
{
    match lines.get(start as usize) {
        Some(Some(line)) => Some(*line),
        _ => None,
    }
}

fn lined_by(alloc: Global, lines: &[Option<u16>], starts: &[u32], ops: Items<Op>) -> M<Items<Ins>>
    ensures { IfOk result (λ ins. ins ≡ lined_by (found lines.now) starts.now ops) }
{
    let mut ins = Items::with_capacity(alloc, starts.len())?;
    let mut starts = starts.iter();
    for op in ops.into_vec() {
        let Some(start) = starts.next() else {
            return Ok(ins);
        };
        let line = line_in(lines, *start);
        ins.push(Ins { op, line })?;
    }
    Ok(ins)
}

/// The instructions that begin at these offsets, each with the line that the rows tell of it: of the rows that start at
/// or before it the one with the greatest start, and of equals the last. It takes a step for each row, for each
/// instruction, and for each offset up to the last instruction.
pub fn lined(alloc: Global, rows: &[Line], starts: &[u32], ops: Items<Op>) -> M<Items<Ins>>
    ensures { IfOk result (λ ins. ins ≡ lined rows.now starts.now ops) }
{
    let count = offsets_up_to(starts);
    let there = lines_there(alloc, count, rows)?;
    let lines = carried(alloc, there.as_slice())?;
    let ins = lined_by(alloc, lines.as_slice(), starts, ops)?;
    Ok(ins)
}
