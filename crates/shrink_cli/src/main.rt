//! The program: hands its words to the command and ends with the status that it answers.
#![tactic(auto)]

use command_words::help_text;
use error_advice::{Heard, Watched, explain};
use jv_base::{Items, M, Text};
use shrink_core::{run, run_batch};
use std::alloc::Global;
use std::env;
use std::io::ErrorKind;
use std::process::ExitCode;
use tree_io::{FileTree, OpenGate, PutFault, Sink, StreamSink};

const VERSION: &[u8] = b"cixorradde 0.1.0\n";

/// What a word asks for that stands alone, other than a command.
#[derive(Clone, Copy)]
enum Notice {
    Help,
    Version,
}

fn notice_of(words: &Items<Text>) -> Option<Notice> {
    let [word] = words.as_slice() else {
        return None;
    };
    match word.as_str() {
        "-h" | "--help" => Some(Notice::Help),
        "-V" | "--version" => Some(Notice::Version),
        _ => None,
    }
}

// Whether the first word is that of a batch.
fn is_batch(words: &Items<Text>) -> bool {
    words.get(0).is_some_and(|word| word.as_str() == "batch")
}

// Prints what was asked for, and answers the status.
fn print_notice<S: Sink>(alloc: Global, notice: Notice, out: &mut S) -> u8 {
    let printed = match notice {
        Notice::Version => out.put(VERSION),
        Notice::Help => match help_text(alloc) {
            Ok(text) => out.put(text.as_bytes()),
            Err(_) => Err(PutFault::OutOfMemory),
        },
    };
    match printed {
        Ok(()) => 0,
        Err(PutFault::Failed) => 7,
        Err(PutFault::OutOfMemory) => 10,
    }
}

// The words of the command line without the program's name. Words that aren't UTF-8 are none.
fn words_of(rt: &HostRuntime, alloc: Global) -> M<Items<Text>> {
    let mut words = Items::new(alloc);
    match env::args(rt) {
        Ok(args) => {
            for word in args.skip(1) {
                words.push(Text::from_string(alloc, word)?)?;
            }
        }
        Err(error) if error.kind() == ErrorKind::OutOfMemory => return Err(jv_base::OutOfMemory),
        Err(_) => {}
    }
    Ok(words)
}

fn main(rt: HostRuntime) -> ExitCode {
    let alloc = rt.alloc();
    let mut out = StreamSink::new(&rt);
    let Ok(words) = words_of(&rt, alloc) else {
        let _ = out.put(b"error 10 memory\n");
        return ExitCode::from(10);
    };
    if let Some(notice) = notice_of(&words) {
        return ExitCode::from(print_notice(alloc, notice, &mut out));
    }
    let mut tree = Watched::new(alloc, FileTree::new(&rt));
    let mut heard = Heard::new(alloc, out);
    let status = if is_batch(&words) {
        run_batch(&rt, alloc, &words, &mut tree, &mut heard, &OpenGate)
    } else {
        run(&rt, alloc, &words, &mut tree, &mut heard, &OpenGate)
    };
    let _ = explain(&rt, alloc, words.as_slice(), &mut tree, &heard);
    ExitCode::from(status)
}
