//! Whole runs of the command in memory, one for each line of standard input: says what the run kept, wrote and said.
//!
//! A line is `kept CONFIG FILES`, `names CONFIG FILES`, `applied CONFIG OLD FILES`, `optimised CONFIG FILES`,
//! `written CONFIG FILES`, `check CONFIG MAPPING WITNESS FILES`, `retrace MAPPING TRACE`, `run WORDS FILES` or
//! `fails CALLS PUTS WORDS FILES`; the README tells how texts and files are written, and what is answered. The status is
//! that of `line_answers`.
#![tactic(auto)]

mod checked;
mod kept;
mod named;
mod running;
mod traced;
mod whole;

use jv_base::{M, Text};
use line_answers::{Stop, exit_code, first_word, is_title, put_answer, put_line, read_line};
use std::alloc::Global;
use std::io::{self, BufRead, BufReader, BufWriter, Write};
use std::process::ExitCode;
use std::thread::Threads;

// The answer to a line; none where it is of another form.
fn answer<Rt: Threads + Sync>(rt: &Rt, alloc: Global, line: &[u8]) -> M<Option<Text>> {
    let (word, row) = first_word(line);
    match word {
        b"kept" => kept::answer(rt, alloc, row),
        b"names" => named::answer(rt, alloc, row),
        b"applied" => named::applied_answer(rt, alloc, row),
        b"optimised" => named::optimised_answer(rt, alloc, row),
        b"check" => checked::answer(rt, alloc, row),
        b"written" => checked::written_answer(rt, alloc, row),
        b"retrace" => traced::answer(rt, alloc, row),
        b"run" => whole::answer(rt, alloc, row),
        b"fails" => whole::failing_answer(rt, alloc, row),
        _ => Ok(None),
    }
}

// Answers each line of the input. A run takes a handle on threads, which no value that answers may hold; so the loop of
// `line_answers` doesn't serve.
fn answer_lines<Rt: Threads + Sync, R: BufRead, W: Write>(
    rt: &Rt,
    alloc: Global,
    input: &mut R,
    output: &mut W,
) -> Result<(), Stop> {
    let mut line = Vec::new(alloc);
    for number in 1..u64::MAX {
        if !read_line(input, &mut line)? {
            return Ok(());
        }
        if is_title(line.as_slice()) {
            put_line(line.as_slice(), output)?;
        } else {
            let answer = answer(rt, alloc, line.as_slice())?;
            put_answer(number, &answer, output)?;
        }
    }
    Err(Stop::Device)
}

fn answer_all<Rt: Threads + Sync>(handle: &Rt, rt: &HostRuntime) -> Result<(), Stop> {
    let alloc = rt.alloc();
    let mut input = BufReader::new(alloc, rt.reader())?;
    let mut output = BufWriter::new(alloc, io::writer(rt))?;
    let answered = answer_lines(handle, alloc, &mut input, &mut output);
    output.flush()?;
    answered
}

fn main(rt: HostRuntime) -> ExitCode {
    let ended = answer_all(&rt, &rt);
    exit_code(&rt, &ended, "run of the command")
}
