// The lines of the run.
ghost use Rattle.std.specs.Prelude.{◌<◌, IfOk, IfSome, length};

use crate::answer::{mapping_answer, retrace_answer, witness_answer};
use crate::systems::{levels_row, why_row};
use jv_base::{M, Text};
use line_answers::{Answers, escaped_line, unescaped};
use std::alloc::Global;

/// The answers to mappings, witnesses, traces and systems.
pub(crate) struct Rows;

impl Answers for Rows {
    fn answer(&self, alloc: Global, line: &[u8]) -> M<Option<Text>> {
        if let Some(text) = line.strip_prefix(b"mapping ") {
            return mapping_row(alloc, text);
        }
        if let Some(text) = line.strip_prefix(b"retrace ") {
            return retrace_row(alloc, text);
        }
        if let Some(texts) = line.strip_prefix(b"why ") {
            return why_row(alloc, texts);
        }
        if let Some(texts) = line.strip_prefix(b"levels ") {
            return levels_row(alloc, texts);
        }
        match line.strip_prefix(b"witness ") {
            Some(text) => witness_row(alloc, text),
            None => Ok(None),
        }
    }
}

fn mapping_row(alloc: Global, text: &[u8]) -> M<Option<Text>> {
    let Some(bytes) = bytes_of(alloc, text)? else {
        return Ok(None);
    };
    let answer = mapping_answer(alloc, bytes.as_slice())?;
    Ok(Some(escaped_line(alloc, answer.as_slice())?))
}

fn witness_row(alloc: Global, text: &[u8]) -> M<Option<Text>> {
    let Some(bytes) = bytes_of(alloc, text)? else {
        return Ok(None);
    };
    let answer = witness_answer(alloc, bytes.as_slice())?;
    Ok(Some(escaped_line(alloc, answer.as_slice())?))
}

// A mapping, in which no byte is a blank, and a trace.
fn retrace_row(alloc: Global, texts: &[u8]) -> M<Option<Text>> {
    let Some(blank) = texts.iter().position(|b| *b == b' ') else {
        return Ok(None);
    };
    let Some(map) = bytes_of(alloc, &texts[..blank])? else {
        return Ok(None);
    };
    match bytes_of(alloc, &texts[blank + 1..])? {
        Some(trace) => {
            let answer = retrace_answer(alloc, map.as_slice(), trace.as_slice())?;
            Ok(Some(escaped_line(alloc, answer.as_slice())?))
        }
        None => Ok(None),
    }
}

// The bytes that a text spells, fewer than 4 GiB of them.
fn bytes_of(alloc: Global, text: &[u8]) -> M<Option<Vec<u8>>>
    ensures { IfOk result (λ bytes. IfSome bytes (λ b. length b.items < 4294967295)) }
{
    match unescaped(alloc, text)? {
        Some(bytes) if bytes.len() < u32::MAX as usize => Ok(Some(bytes)),
        _ => Ok(None),
    }
}
