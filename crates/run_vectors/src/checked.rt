// What a run of `check` said.
use crate::kept::refusal_answer;
use crate::running::{run_over, run_row, run_words, text_file};
use jv_base::{Items, M, Text};
use line_answers::first_word;
use line_sets::{LineFile, bytes_of};
use std::alloc::Global;
use std::thread::Threads;
use tree_io::FileAt;

/// The words of `check`.
const CHECK: [&str; 3] = ["check", "config.pro", "wit.txt"];

/// What `check` said of what `shrink` wrote, `ok` or why not; or what `shrink` said where its status isn't 0.
pub fn written_answer<Rt: Threads + Sync>(rt: &Rt, alloc: Global, row: &[u8]) -> M<Option<Text>> {
    let Some(ran) = run_row(rt, alloc, row, "")? else {
        return Ok(None);
    };
    if ran.status != 0 {
        return refusal_answer(alloc, ran.out.written());
    }
    let checked = run_over(rt, alloc, CHECK, ran.tree)?;
    refusal_answer(alloc, checked.out.written())
}

/// What `check` said, `ok` or why not.
pub fn answer<Rt: Threads + Sync>(rt: &Rt, alloc: Global, row: &[u8]) -> M<Option<Text>> {
    let Some(files) = files_of(alloc, row)? else {
        return Ok(None);
    };
    let ran = run_words(rt, alloc, CHECK, files)?;
    refusal_answer(alloc, ran.out.written())
}

// The config, the mapping and the witness of a row, and its files.
fn files_of(alloc: Global, row: &[u8]) -> M<Option<Items<FileAt>>> {
    let (config, rest) = first_word(row);
    let (mapping, rest) = first_word(rest);
    let (witness, words) = first_word(rest);
    let texts = [
        ("config.pro", config),
        ("map.txt", mapping),
        ("wit.txt", witness),
    ];
    let Some(mut files) = texts_of(alloc, &texts)? else {
        return Ok(None);
    };
    match bytes_of(alloc, words)? {
        Some(read) => {
            push_files(&mut files, read)?;
            Ok(Some(files))
        }
        None => Ok(None),
    }
}

fn texts_of(alloc: Global, texts: &[(&str, &[u8])]) -> M<Option<Items<FileAt>>> {
    let mut files = Items::new(alloc);
    for (path, text) in texts {
        match text_file(alloc, path, text)? {
            Some(file) => files.push(file)?,
            None => return Ok(None),
        }
    }
    Ok(Some(files))
}

fn push_files(files: &mut Items<FileAt>, read: Items<LineFile>) -> M<()> {
    for file in read.into_vec() {
        files.push(FileAt {
            path: file.path,
            bytes: file.bytes,
        })?;
    }
    Ok(())
}
