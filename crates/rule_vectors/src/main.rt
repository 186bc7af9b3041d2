//! Questions about configs, one on each line of standard input: says what the rules of a config are, and what patterns,
//! specifications and rules match.
//!
//! A line is `config TEXT`, `wild PATTERN TEXT`, `class SPECIFICATION FILES`, `member SPECIFICATION FILES` or `seeds
//! RULES FILES`; the README tells what each asks, and how texts and files are written. The status is that of
//! `line_answers`.
#![tactic(auto)]

mod config;
mod items;
mod matching;
mod printing;

use jv_base::{M, Text};
use line_answers::{Answers, answer_standard_input, first_word};
use std::alloc::Global;
use std::process::ExitCode;

// The answers to the questions of a line.
struct Rows;

impl Answers for Rows {
    fn answer(&self, alloc: Global, line: &[u8]) -> M<Option<Text>> {
        let (question, words) = first_word(line);
        match question {
            b"config" => config::answer(alloc, words),
            b"wild" => matching::wild_answer(alloc, words),
            b"class" => matching::class_answer(alloc, words),
            b"member" => matching::member_answer(alloc, words),
            b"seeds" => matching::seeds_answer(alloc, words),
            _ => Ok(None),
        }
    }
}

fn main(rt: HostRuntime) -> ExitCode {
    answer_standard_input(&rt, &Rows, "question about a config")
}
