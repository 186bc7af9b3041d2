// What a run of `retrace` said.
use crate::running::{run_words, text_file};
use jv_base::{Items, M, Text};
use line_answers::{first_word, push_escaped};
use std::alloc::Global;
use std::thread::Threads;
use tree_io::FileAt;

/// `ok` and the trace with old names; or what was said, without its status, where that isn't 0.
pub fn answer<Rt: Threads + Sync>(rt: &Rt, alloc: Global, row: &[u8]) -> M<Option<Text>> {
    let Some(files) = files_of(alloc, row)? else {
        return Ok(None);
    };
    let ran = run_words(rt, alloc, ["retrace", "map.txt", "trace.txt"], files)?;
    let said = ran.out.written();
    if ran.status == 0 {
        return Ok(Some(done_answer(alloc, said)?));
    }
    match said.strip_prefix(b"error 11 ") {
        Some(fault) => fault_answer(alloc, fault),
        None => Ok(None),
    }
}

fn done_answer(alloc: Global, said: &[u8]) -> M<Text> {
    let mut line = String::from_str(alloc, "ok ")?;
    push_escaped(&mut line, said)?;
    Ok(Text::from_string(alloc, line)?)
}

// What was said, without the end of its line.
fn fault_answer(alloc: Global, said: &[u8]) -> M<Option<Text>> {
    match std::str::from_utf8(said) {
        Ok(line) => Ok(Some(Text::from_str(alloc, line.trim_end())?)),
        Err(_) => Ok(None),
    }
}

// The mapping and the trace of a row.
fn files_of(alloc: Global, row: &[u8]) -> M<Option<Items<FileAt>>> {
    let (mapping, trace) = first_word(row);
    let Some(mapping) = text_file(alloc, "map.txt", mapping)? else {
        return Ok(None);
    };
    let Some(trace) = text_file(alloc, "trace.txt", trace)? else {
        return Ok(None);
    };
    let mut files = Items::new(alloc);
    files.push(mapping)?;
    files.push(trace)?;
    Ok(Some(files))
}
