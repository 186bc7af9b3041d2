//! Runs of static methods of sets of class files, one on each line of standard input: says what each prints and how it
//! ends.
//!
//! A line is `ENTRY ARGS FILES`; the README tells how they are written, and what is answered.
#![tactic(auto)]

mod entries;
mod printing;
mod rows;
mod words;

use line_answers::answer_standard_input;
use rows::Runs;
use std::process::ExitCode;

fn main(rt: HostRuntime) -> ExitCode {
    answer_standard_input(&rt, &Runs, "run of a static method")
}
