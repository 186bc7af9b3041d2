//! Class files in hex, one on each line of standard input: says of each what reading it gives.
//!
//! The line of an answer is `ok` and the canonical spelling of the class in hex, or `limit LIMIT` where that passes a
//! limit of the format, or `left-out MEMBER KIND` with the number of the member, fields first and then methods, and `-`
//! for the class itself, or `fault OFFSET KIND`.
#![tactic(auto)]

mod acts;
mod answer;
mod codes;
mod cuts;
mod edits;
mod kinds;
mod lines;

use line_answers::answer_standard_input;
use lines::ClassFiles;
use std::process::ExitCode;

fn main(rt: HostRuntime) -> ExitCode {
    answer_standard_input(&rt, &ClassFiles, "class file in hex")
}
