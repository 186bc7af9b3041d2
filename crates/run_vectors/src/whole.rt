// What a run of any command said and wrote.
use crate::running::{Ran, run_all, text_file};
use jv_base::{Bytes, Items, M, OutOfMemory, Text};
use line_answers::{first_word, push_escaped, unescaped_text};
use line_sets::bytes_of;
use std::alloc::Global;
use std::thread::Threads;
use tree_io::{FileAt, ListFault, MemorySink, MemoryTree, Tree};

/// The files that `shrink` writes beside the classes.
const TEXTS: [&str; 4] = ["map.txt", "seeds.txt", "use.txt", "wit.txt"];

/// `WORDS FILES`: the status, what was said, and each file that isn't as it was given: the given ones in their order, then
/// those below the output directory in the order of their paths, then the texts.
pub fn answer<Rt: Threads + Sync>(rt: &Rt, alloc: Global, row: &[u8]) -> M<Option<Text>> {
    answer_of(rt, alloc, row, Items::new(alloc), Items::new(alloc))
}

/// `CALLS PUTS WORDS FILES`: the same where these calls of the tree and these puts of the sink fail.
pub fn failing_answer<Rt: Threads + Sync>(rt: &Rt, alloc: Global, row: &[u8]) -> M<Option<Text>> {
    let (calls, rest) = first_word(row);
    let (puts, rest) = first_word(rest);
    let Some(calls) = numbers_of(alloc, calls)? else {
        return Ok(None);
    };
    let Some(puts) = numbers_of(alloc, puts)? else {
        return Ok(None);
    };
    answer_of(rt, alloc, rest, calls, puts)
}

fn answer_of<Rt: Threads + Sync>(
    rt: &Rt,
    alloc: Global,
    row: &[u8],
    calls: Items<u64>,
    puts: Items<u64>,
) -> M<Option<Text>> {
    let (words, rest) = first_word(row);
    let Some(words) = words_of(alloc, words)? else {
        return Ok(None);
    };
    let Some(given) = files_of(alloc, rest)? else {
        return Ok(None);
    };
    let Some(files) = files_of(alloc, rest)? else {
        return Ok(None);
    };
    let tree = MemoryTree::new(alloc, files, calls)?;
    let out = MemorySink::new(alloc, puts)?;
    let mut ran = run_all(rt, alloc, &words, tree, out)?;
    ran_answer(alloc, &given, &mut ran)
}

// The numbers of a word, with a comma between each two; none of `-`.
fn numbers_of(alloc: Global, word: &[u8]) -> M<Option<Items<u64>>> {
    let mut numbers = Items::new(alloc);
    if word == b"-".as_slice() {
        return Ok(Some(numbers));
    }
    for digits in word.split(|byte| *byte == b',') {
        match number_of(digits) {
            Some(number) => numbers.push(number)?,
            None => return Ok(None),
        }
    }
    Ok(Some(numbers))
}

fn number_of(digits: &[u8]) -> Option<u64> {
    std::str::from_utf8(digits).ok()?.parse::<u64>().ok()
}

// The words of a text, with an LF between each two where it has one, else a blank; none of no text.
fn words_of(alloc: Global, word: &[u8]) -> M<Option<Items<Text>>> {
    let Some(text) = unescaped_text(alloc, word)? else {
        return Ok(None);
    };
    let mut words = Items::new(alloc);
    if text.is_empty() {
        return Ok(Some(words));
    }
    let between = if text.as_bytes().contains(&b'\n') {
        '\n'
    } else {
        ' '
    };
    for word in text.as_str().split(between) {
        words.push(Text::from_str(alloc, word)?)?;
    }
    Ok(Some(words))
}

// The files of words `PATH=HEX` and `PATH:TEXT`; none where a word is of another form.
fn files_of(alloc: Global, words: &[u8]) -> M<Option<Items<FileAt>>> {
    let mut files = Items::new(alloc);
    if words.is_empty() {
        return Ok(Some(files));
    }
    for word in words.split(|byte| *byte == b' ') {
        match file_of(alloc, word)? {
            Some(file) => files.push(file)?,
            None => return Ok(None),
        }
    }
    Ok(Some(files))
}

fn file_of(alloc: Global, word: &[u8]) -> M<Option<FileAt>> {
    let Some(at) = word.iter().position(|byte| *byte == b'=' || *byte == b':') else {
        return Ok(None);
    };
    if word[at] == b'=' {
        return file_in_hex(alloc, word);
    }
    match std::str::from_utf8(&word[..at]) {
        Ok(path) => text_file(alloc, path, &word[at + 1..]),
        Err(_) => Ok(None),
    }
}

fn file_in_hex(alloc: Global, word: &[u8]) -> M<Option<FileAt>> {
    let Some(read) = bytes_of(alloc, word)? else {
        return Ok(None);
    };
    match read.into_vec().pop() {
        Some(file) => Ok(Some(FileAt {
            path: file.path,
            bytes: file.bytes,
        })),
        None => Ok(None),
    }
}

fn ran_answer(alloc: Global, given: &Items<FileAt>, ran: &mut Ran) -> M<Option<Text>> {
    let status = ran.status;
    let mut line = format!(in alloc; "{status} ")?;
    push_escaped(&mut line, ran.out.written())?;
    for file in given.as_slice() {
        push_other(alloc, &mut line, &ran.tree, &file.path, Some(&file.bytes))?;
    }
    let Some(written) = paths_of(alloc, &mut ran.tree)? else {
        return Ok(None);
    };
    for path in written.as_slice() {
        if !is_given(given, path) {
            push_other(alloc, &mut line, &ran.tree, path, None)?;
        }
    }
    Ok(Some(Text::from_string(alloc, line)?))
}

// The paths of the files below the output directory, and those of the texts.
fn paths_of(alloc: Global, tree: &mut MemoryTree) -> M<Option<Items<Text>>> {
    let Some(below) = paths_below_output(alloc, tree)? else {
        return Ok(None);
    };
    let mut paths = Items::new(alloc);
    push_below(alloc, &mut paths, &below)?;
    for path in TEXTS {
        paths.push(Text::from_str(alloc, path)?)?;
    }
    Ok(Some(paths))
}

// The paths below the output directory; the first call behind the run may be one that fails.
fn paths_below_output(alloc: Global, tree: &mut MemoryTree) -> M<Option<Items<Text>>> {
    let output = Text::from_str(alloc, "out")?;
    for _ in 0..2 {
        match tree.list(alloc, &output, u32::MAX) {
            Ok(below) => return Ok(Some(below)),
            Err(ListFault::OutOfMemory) => return Err(OutOfMemory),
            Err(_) => {}
        }
    }
    Ok(None)
}

fn push_below(alloc: Global, paths: &mut Items<Text>, below: &Items<Text>) -> M<()> {
    for path in below.as_slice() {
        let path = path.as_str();
        paths.push(Text::from_string(alloc, format!(in alloc; "out/{path}")?)?)?;
    }
    Ok(())
}

fn is_given(given: &Items<FileAt>, path: &Text) -> bool {
    given.as_slice().iter().any(|file| file.path == *path)
}

// Appends a file, if it isn't as it was: a blank, and `PATH-` where it is gone, `PATH=HEX` of a class file, and
// `PATH:TEXT` of another.
fn push_other(
    alloc: Global,
    line: &mut String,
    tree: &MemoryTree,
    path: &Text,
    before: Option<&Bytes>,
) -> M<()> {
    match (tree.file(alloc, path)?, before) {
        (Some(now), Some(before)) if now.as_slice() == before.as_slice() => Ok(()),
        (Some(now), _) => push_file(alloc, line, path, &now),
        (None, Some(_)) => push_gone(line, path),
        (None, None) => Ok(()),
    }
}

fn push_gone(line: &mut String, path: &Text) -> M<()> {
    line.push_str(" ")?;
    line.push_str(path.as_str())?;
    line.push_str("-")?;
    Ok(())
}

fn push_file(alloc: Global, line: &mut String, path: &Text, bytes: &Bytes) -> M<()> {
    line.push_str(" ")?;
    line.push_str(path.as_str())?;
    if path.as_str().ends_with(".class") {
        line.push_str("=")?;
        line.push_str(hex::encode(alloc, bytes.as_slice())?.as_str())?;
    } else {
        line.push_str(":")?;
        push_escaped(line, bytes.as_slice())?;
    }
    Ok(())
}
