// Lines that are runs.
use crate::entries::entry_of;
use crate::printing::ended_text;
use crate::words::args_of;
use class_pool::ClassSet;
use jv_base::{M, Text};
use line_answers::{Answers, first_word, unescaped};
use line_sets::{files_of, set_of};
use run_entry::run_class;
use std::alloc::Global;

/// Says of an entry with its arguments, and class files in hex, what a run prints and how it ends.
pub struct Runs;

impl Answers for Runs {
    fn answer(&self, alloc: Global, line: &[u8]) -> M<Option<Text>> {
        let (entry, rest) = first_word(line);
        let (args, files) = first_word(rest);
        let Some(files) = files_of(alloc, files)? else {
            return Ok(None);
        };
        match set_of(alloc, files)? {
            Some(set) => answer_in(alloc, &set, entry, args),
            None => Ok(None),
        }
    }
}

/// No row takes more steps.
const STEPS: u64 = 300_000;

fn answer_in(alloc: Global, set: &ClassSet, entry: &[u8], args: &[u8]) -> M<Option<Text>> {
    let Some(words) = unescaped(alloc, args)? else {
        return Ok(None);
    };
    let Some(entry) = entry_of(alloc, set, entry)? else {
        return Ok(None);
    };
    let Some(args) = args_of(alloc, &entry.types, words.as_slice())? else {
        return Ok(None);
    };
    let ended = run_class(alloc, set, entry.key, args.as_slice(), STEPS)?;
    Ok(Some(ended_text(alloc, &ended)?))
}
