// What a run kept, from what it wrote and said alone.
ghost use Rattle.std.specs.Prelude.{◌+◌, ◌<◌, length};

use crate::running::{Ran, run_row};
use class_model::Class;
use class_read::read_class;
use jv_base::{M, Or, OutOfMemory, Text};
use line_answers::push_escaped;
use report_text::{class_text, member_text};
use std::alloc::Global;
use std::thread::Threads;
use tree_io::{ListFault, MemoryTree, Tree};

/// A rule that keeps all names, whatever is kept.
const ALL_NAMES: &str = "-keepnames class ** { *; }\n";

/// `ok`, the items of the class files that were written, the list of seeds, the list of what was dropped, and what was
/// said; or what was said where the status isn't 0.
pub fn answer<Rt: Threads + Sync>(rt: &Rt, alloc: Global, row: &[u8]) -> M<Option<Text>> {
    let Some(mut ran) = run_row(rt, alloc, row, ALL_NAMES)? else {
        return Ok(None);
    };
    if ran.status == 0 {
        done_answer(alloc, &mut ran)
    } else {
        refusal_answer(alloc, ran.out.written())
    }
}

/// What was said, without the end of its line.
pub fn refusal_answer(alloc: Global, said: &[u8]) -> M<Option<Text>> {
    let line = match said.strip_suffix(b"\n") {
        Some(front) => front,
        None => said,
    };
    match std::str::from_utf8(line) {
        Ok(line) => Ok(Some(Text::from_str(alloc, line)?)),
        Err(_) => Ok(None),
    }
}

fn done_answer(alloc: Global, ran: &mut Ran) -> M<Option<Text>> {
    let Some(items) = items_written(alloc, &mut ran.tree)? else {
        return Ok(None);
    };
    let mut line = String::from_str(alloc, "ok ")?;
    push_escaped(&mut line, items.as_bytes())?;
    push_file(alloc, &mut line, &ran.tree, "seeds.txt")?;
    push_file(alloc, &mut line, &ran.tree, "use.txt")?;
    line.push_str(" ")?;
    push_escaped(&mut line, ran.out.written())?;
    Ok(Some(Text::from_string(alloc, line)?))
}

// Appends a blank and what a file has; `-` where there is no such file.
fn push_file(alloc: Global, line: &mut String, tree: &MemoryTree, path: &str) -> M<()> {
    line.push_str(" ")?;
    match tree.file(alloc, &Text::from_str(alloc, path)?)? {
        Some(bytes) => push_escaped(line, bytes.as_slice())?,
        None => line.push_str("-")?,
    }
    Ok(())
}

// A line for each item of the class files below the output directory, in the order of their paths.
fn items_written(alloc: Global, tree: &mut MemoryTree) -> M<Option<String>> {
    let mut items = String::new(alloc);
    let paths = match tree.list(alloc, &Text::from_str(alloc, "out")?, u32::MAX) {
        Ok(paths) => paths,
        Err(ListFault::OutOfMemory) => return Err(OutOfMemory),
        Err(_) => return Ok(None),
    };
    for path in paths.as_slice() {
        match class_at(alloc, tree, path.as_str())? {
            Some(class) => push_items(alloc, &mut items, &class)?,
            None => return Ok(None),
        }
    }
    Ok(Some(items))
}

// The class of the file at a path below the output directory.
fn class_at(alloc: Global, tree: &MemoryTree, below: &str) -> M<Option<Class>> {
    let path = Text::from_string(alloc, format!(in alloc; "out/{below}")?)?;
    let bytes = match tree.file(alloc, &path)? {
        Some(bytes) if bytes.len() < u32::MAX as usize => bytes,
        _ => return Ok(None),
    };
    match read_class(alloc, bytes.as_slice()) {
        Ok(class) => Ok(Some(class)),
        Err(Or::Fault(_)) => Ok(None),
        Err(Or::OutOfMemory) => Err(OutOfMemory),
    }
}

fn push_items(alloc: Global, items: &mut String, class: &Class) -> M<()> {
    let name = class_text(alloc, class)?;
    items.push_str(name.as_str())?;
    items.push_str("\n")?;
    // a class file has fewer than 2^17 members
    let members = class.fields.len().saturating_add(class.methods.len());
    for member in 0..u32::try_from(members).unwrap_or(0) {
        push_member(alloc, items, name.as_str(), class, member)?;
    }
    Ok(())
}

fn push_member(alloc: Global, items: &mut String, name: &str, class: &Class, member: u32) -> M<()>
    requires { member < length class.now.fields + length class.now.methods }
{
    items.push_str(name)?;
    items.push_str(": ")?;
    items.push_str(member_text(alloc, class, member)?.as_str())?;
    items.push_str("\n")?;
    Ok(())
}
