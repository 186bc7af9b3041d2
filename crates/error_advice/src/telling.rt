// What is said on standard error.
use crate::{Failing, Heard, Watched, advice};
use jv_base::{M, Or, Text};
use mapping_file::read_mapping;
use std::alloc::Global;
use std::{io, str};
use tree_io::{Sink, Tree};

/// The greatest length of a mapping that is read, in bytes.
const MAX_LENGTH: u64 = 67_108_864;

/// Says what the line means that a command said last, and what to do, where there is something to say. The words are
/// those of its command line. A mapping that may be at fault is read once more, to tell it from the witness.
///
/// # Errors
///
/// Those of standard error.
pub fn explain<R: Eprint, T: Tree, S: Sink>(
    rt: &R,
    alloc: Global,
    words: &[Text],
    tree: &mut Watched<T>,
    out: &Heard<S>,
) -> io::Result<()> {
    let Ok(text) = str::from_utf8(out.last()) else {
        return Ok(());
    };
    let line = text.trim_end();
    if let Some(path) = &tree.marked {
        let path = path.as_str();
        eprintln!(rt;
            "cixorradde: {path} begins with a byte-order mark (EF BB BF), which is a part of its first word: \
                save it without one"
        )?;
    }
    if line.starts_with("classes 0 0") {
        return eprintln!(rt; "cixorradde: {NO_CLASSES}");
    }
    if is_batch(words) && line.starts_with("job ") {
        return explain_reports(rt, line);
    }
    // A refusal is one line; what a program prints that is run has another line behind it.
    if !line.starts_with("error ") || line.as_bytes().contains(&b'\n') {
        return Ok(());
    }
    tell_place(rt, alloc, words, line, tree)?;
    match advice(line) {
        Some(advice) => eprintln!(rt; "cixorradde: {advice}"),
        None => Ok(()),
    }
}

const NO_CLASSES: &str =
    "no file whose name ends in .class lies below the directory of -injars; paths are taken from the folder \
        in which the command is called, and a JAR has to be unpacked (jar xf)";

// Says what the refusals mean in the reports of a batch, each behind its job.
fn explain_reports<R: Eprint>(rt: &R, reports: &str) -> io::Result<()> {
    let mut job = "";
    for line in reports.lines() {
        if line.starts_with("job ") {
            job = line;
        }
        if let Some(advice) = advice(line) {
            eprintln!(rt; "cixorradde: {job}: {advice}")?;
        }
    }
    Ok(())
}

// Says at which path a line is to be read, where it doesn't tell that itself.
fn tell_place<R: Eprint, T: Tree>(
    rt: &R,
    alloc: Global,
    words: &[Text],
    line: &str,
    tree: &mut Watched<T>,
) -> io::Result<()> {
    if line == "error 7 device" {
        return tell_failing(rt, tree.failed.as_ref());
    }
    if line.ends_with(" NothingKept") && !tree.has_classes {
        return eprintln!(rt; "cixorradde: {NO_CLASSES}");
    }
    if line.starts_with("error 11 ") {
        return tell_text(rt, alloc, words, tree);
    }
    Ok(())
}

// Says which call failed.
fn tell_failing<R: Eprint>(rt: &R, failing: Option<&Failing>) -> io::Result<()> {
    match failing {
        Some(Failing::Listing(path)) => {
            let path = path.as_str();
            eprintln!(rt;
                "cixorradde: the directory {path} can't be listed: it is a file (a JAR has to be unpacked, \
                    jar xf), it may not be read, or a name below it isn't UTF-8"
            )
        }
        Some(Failing::Reading(path)) => {
            let path = path.as_str();
            eprintln!(rt;
                "cixorradde: {path} can't be read as a file: it is a directory, a part of its path is a \
                    file, or it may not be read"
            )
        }
        Some(Failing::Writing(path)) => {
            let path = path.as_str();
            eprintln!(rt;
                "cixorradde: {path} can't be written: it is a directory, a part of its path is a file, it \
                    may not be written, or the disk is full"
            )
        }
        None => eprintln!(rt;
            "cixorradde: standard output can't be written to; the files that were asked for stand"
        ),
    }
}

// Says which file has the text that is at fault.
fn tell_text<R: Eprint, T: Tree>(
    rt: &R,
    alloc: Global,
    words: &[Text],
    tree: &mut Watched<T>,
) -> io::Result<()> {
    let Ok(Some((what, path))) = faulty_text(alloc, words, tree) else {
        return Ok(());
    };
    let path = path.as_str();
    eprintln!(rt; "cixorradde: the {what} {path} is at fault, at this line of it")
}

// The text that is at fault, and its path: `check` reads the config, the mapping and the witness, in this order,
// `shrink` and `compare` the config and the mapping, `retrace` the mapping and the trace, and `batch` the list before all
// others.
fn faulty_text<T: Tree>(
    alloc: Global,
    words: &[Text],
    tree: &mut Watched<T>,
) -> M<Option<(&'static str, Text)>> {
    let (mapping, witness) = match tree.texts.as_slice() {
        [_, mapping, witness] => (mapping.clone()?, witness.clone()?),
        [list] if is_batch(words) => return Ok(Some(("list", list.clone()?))),
        [_, mapping] if has_config(words) => return Ok(Some(("mapping", mapping.clone()?))),
        [mapping, _] => return Ok(Some(("mapping", mapping.clone()?))),
        _ => return Ok(None),
    };
    if is_mapping(alloc, tree, &mapping) {
        Ok(Some(("witness", witness)))
    } else {
        Ok(Some(("mapping", mapping)))
    }
}

// Whether the command is `batch`.
fn is_batch(words: &[Text]) -> bool {
    matches!(words.first(), Some(word) if word.as_str() == "batch")
}

// Whether the first of two texts is a config: of the commands that read a mapping, the first one that is named.
fn has_config(words: &[Text]) -> bool {
    for word in words {
        match word.as_str() {
            "shrink" | "compare" => return true,
            "check" | "retrace" => return false,
            _ => {}
        }
    }
    false
}

// Whether the file at a path is a mapping.
fn is_mapping<T: Tree>(alloc: Global, tree: &mut T, path: &Text) -> bool {
    match tree.read(alloc, path, MAX_LENGTH) {
        Ok(bytes) => !matches!(read_mapping(alloc, bytes.as_slice()), Err(Or::Fault(_))),
        Err(_) => false,
    }
}
