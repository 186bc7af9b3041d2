// A run of the command in memory.
use jv_base::{Bytes, Items, M, Text};
use line_answers::{first_word, unescaped};
use line_sets::{LineFile, bytes_of};
use shrink_core::run;
use std::alloc::Global;
use std::thread::Threads;
use tree_io::{FileAt, MemorySink, MemoryTree, OpenGate};

/// What a run of the command left and said.
#[derive(Drop)]
pub struct Ran {
    pub status: u8,
    pub tree: MemoryTree,
    pub out: MemorySink,
}

/// A run of `shrink` on the config of a row with more behind it, and on the files of the row, whose input directory is
/// `in`; none where the row is of another form.
pub fn run_row<Rt: Threads + Sync>(
    rt: &Rt,
    alloc: Global,
    row: &[u8],
    more: &str,
) -> M<Option<Ran>> {
    let (config, words) = first_word(row);
    let Some(config) = config_with(alloc, config, more)? else {
        return Ok(None);
    };
    let Some(mut files) = input_of(alloc, words)? else {
        return Ok(None);
    };
    files.push(FileAt {
        path: Text::from_str(alloc, "config.pro")?,
        bytes: Bytes::from_vec(config),
    })?;
    let words = ["shrink", "config.pro", "wit.txt"];
    Ok(Some(run_words(rt, alloc, words, files)?))
}

/// A run of `shrink` on the config of a row as it is, and on the files of the row; beside these stands `old.txt` with the
/// second text of the row, unless that is `-`. None where the row is of another form.
pub fn run_with_old<Rt: Threads + Sync>(rt: &Rt, alloc: Global, row: &[u8]) -> M<Option<Ran>> {
    let (config, rest) = first_word(row);
    let (old, words) = first_word(rest);
    let Some(config) = text_file(alloc, "config.pro", config)? else {
        return Ok(None);
    };
    let Some(mut files) = input_of(alloc, words)? else {
        return Ok(None);
    };
    files.push(config)?;
    if old != b"-".as_slice() {
        match text_file(alloc, "old.txt", old)? {
            Some(old) => files.push(old)?,
            None => return Ok(None),
        }
    }
    let words = ["shrink", "config.pro", "wit.txt"];
    Ok(Some(run_words(rt, alloc, words, files)?))
}

// The config of a row with more behind it; none where it is of another form.
fn config_with(alloc: Global, config: &[u8], more: &str) -> M<Option<Vec<u8>>> {
    let Some(mut config) = unescaped(alloc, config)? else {
        return Ok(None);
    };
    config.extend_from_slice(more.as_bytes())?;
    Ok(Some(config))
}

// The files of a row below the input directory; none where a word is of another form.
fn input_of(alloc: Global, words: &[u8]) -> M<Option<Items<FileAt>>> {
    let mut files = Items::new(alloc);
    if words.is_empty() {
        return Ok(Some(files));
    }
    let Some(read) = bytes_of(alloc, words)? else {
        return Ok(None);
    };
    for file in read.into_vec() {
        files.push(below_input(alloc, file)?)?;
    }
    Ok(Some(files))
}

fn below_input(alloc: Global, file: LineFile) -> M<FileAt> {
    let path = file.path.as_str();
    Ok(FileAt {
        path: Text::from_string(alloc, format!(in alloc; "in/{path}")?)?,
        bytes: file.bytes,
    })
}

/// The file of a text of a row; none where it is of another form.
pub fn text_file(alloc: Global, path: &str, text: &[u8]) -> M<Option<FileAt>> {
    match unescaped(alloc, text)? {
        Some(bytes) => Ok(Some(FileAt {
            path: Text::from_str(alloc, path)?,
            bytes: Bytes::from_vec(bytes),
        })),
        None => Ok(None),
    }
}

/// A run of the command on a command line and files.
pub fn run_words<Rt: Threads + Sync>(
    rt: &Rt,
    alloc: Global,
    line: [&str; 3],
    files: Items<FileAt>,
) -> M<Ran> {
    let tree = MemoryTree::new(alloc, files, Items::new(alloc))?;
    run_over(rt, alloc, line, tree)
}

/// A run of the command on a command line and a tree, as another run may have left it.
pub fn run_over<Rt: Threads + Sync>(
    rt: &Rt,
    alloc: Global,
    line: [&str; 3],
    tree: MemoryTree,
) -> M<Ran> {
    let words = words_of(alloc, line)?;
    let out = MemorySink::new(alloc, Items::new(alloc))?;
    run_all(rt, alloc, &words, tree, out)
}

/// A run of the command on any words, a tree and a sink, whose devices may fail.
pub fn run_all<Rt: Threads + Sync>(
    rt: &Rt,
    alloc: Global,
    words: &Items<Text>,
    tree: MemoryTree,
    out: MemorySink,
) -> M<Ran> {
    let mut tree = tree;
    let mut out = out;
    let status = run(rt, alloc, words, &mut tree, &mut out, &OpenGate);
    Ok(Ran { status, tree, out })
}

fn words_of(alloc: Global, line: [&str; 3]) -> M<Items<Text>> {
    let mut words = Items::new(alloc);
    for word in line {
        words.push(Text::from_str(alloc, word)?)?;
    }
    Ok(words)
}
