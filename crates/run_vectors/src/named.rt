// What a run wrote: the mapping and the class files, and of one with passes what it said and the witness too.
// An earlier mapping may stand beside the config.
use crate::kept::refusal_answer;
use crate::running::{Ran, run_row, run_with_old};
use jv_base::{Bytes, Items, M, OutOfMemory, Text};
use line_answers::push_escaped;
use std::alloc::Global;
use std::thread::Threads;
use tree_io::{ListFault, MemoryTree, Tree};

/// `ok`, the mapping, and the class files that were written, in the order of their paths; or what was said where the
/// status isn't 0.
pub fn answer<Rt: Threads + Sync>(rt: &Rt, alloc: Global, row: &[u8]) -> M<Option<Text>> {
    let Some(mut ran) = run_row(rt, alloc, row, "")? else {
        return Ok(None);
    };
    if ran.status == 0 {
        done_answer(alloc, &mut ran)
    } else {
        refusal_answer(alloc, ran.out.written())
    }
}

/// `ok`, what was said, the witness, and what `answer` tells; or what was said where the status isn't 0.
pub fn optimised_answer<Rt: Threads + Sync>(rt: &Rt, alloc: Global, row: &[u8]) -> M<Option<Text>> {
    let Some(mut ran) = run_row(rt, alloc, row, "")? else {
        return Ok(None);
    };
    if ran.status == 0 {
        told_answer(alloc, &mut ran)
    } else {
        refusal_answer(alloc, ran.out.written())
    }
}

/// What `answer` tells of a run on an earlier mapping too; or what was said where the status isn't 0.
pub fn applied_answer<Rt: Threads + Sync>(rt: &Rt, alloc: Global, row: &[u8]) -> M<Option<Text>> {
    let Some(mut ran) = run_with_old(rt, alloc, row)? else {
        return Ok(None);
    };
    if ran.status == 0 {
        done_answer(alloc, &mut ran)
    } else {
        refusal_answer(alloc, ran.out.written())
    }
}

fn told_answer(alloc: Global, ran: &mut Ran) -> M<Option<Text>> {
    let mut line = String::from_str(alloc, "ok ")?;
    push_escaped(&mut line, ran.out.written())?;
    line.push_str(" ")?;
    if !push_text(alloc, &mut line, &ran.tree, "wit.txt")? {
        return Ok(None);
    }
    line.push_str(" ")?;
    files_answer(alloc, line, ran)
}

fn done_answer(alloc: Global, ran: &mut Ran) -> M<Option<Text>> {
    files_answer(alloc, String::from_str(alloc, "ok ")?, ran)
}

// A line with the mapping and the class files behind it.
fn files_answer(alloc: Global, line: String, ran: &mut Ran) -> M<Option<Text>> {
    let mut line = line;
    if !push_mapping(alloc, &mut line, &ran.tree)? {
        return Ok(None);
    }
    let Some(paths) = paths_written(alloc, &mut ran.tree)? else {
        return Ok(None);
    };
    for path in paths.as_slice() {
        if !push_file(alloc, &mut line, &ran.tree, path)? {
            return Ok(None);
        }
    }
    Ok(Some(Text::from_string(alloc, line)?))
}

// Appends the mapping, if it was written: `map.txt`, or the earlier mapping's file where it stands there.
fn push_mapping(alloc: Global, line: &mut String, tree: &MemoryTree) -> M<bool> {
    Ok(push_text(alloc, line, tree, "map.txt")? || push_text(alloc, line, tree, "old.txt")?)
}

// Appends what stands at a path, if it was written.
fn push_text(alloc: Global, line: &mut String, tree: &MemoryTree, path: &str) -> M<bool> {
    match tree.file(alloc, &Text::from_str(alloc, path)?)? {
        Some(bytes) => {
            push_escaped(line, bytes.as_slice())?;
            Ok(true)
        }
        None => Ok(false),
    }
}

// The paths of the files below the output directory, in their order.
fn paths_written(alloc: Global, tree: &mut MemoryTree) -> M<Option<Items<Text>>> {
    match tree.list(alloc, &Text::from_str(alloc, "out")?, u32::MAX) {
        Ok(paths) => Ok(Some(paths)),
        Err(ListFault::OutOfMemory) => Err(OutOfMemory),
        Err(_) => Ok(None),
    }
}

// Appends a blank, a path, `=` and the bytes that stand there below the output directory, in hex.
fn push_file(alloc: Global, line: &mut String, tree: &MemoryTree, below: &Text) -> M<bool> {
    let Some(bytes) = bytes_at(alloc, tree, below.as_str())? else {
        return Ok(false);
    };
    let digits = hex::encode(alloc, bytes.as_slice())?;
    line.push_str(" ")?;
    line.push_str(below.as_str())?;
    line.push_str("=")?;
    line.push_str(digits.as_str())?;
    Ok(true)
}

fn bytes_at(alloc: Global, tree: &MemoryTree, below: &str) -> M<Option<Bytes>> {
    let path = Text::from_string(alloc, format!(in alloc; "out/{below}")?)?;
    Ok(tree.file(alloc, &path)?)
}
