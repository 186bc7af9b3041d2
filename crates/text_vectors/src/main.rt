//! Mappings, witnesses and traces, one on each line of standard input: says of each mapping and witness how it is
//! written again, and of each trace how it is with the old names of a mapping; or the first fault.
//!
//! A line is `mapping` or `witness`, a space, and the text, or `retrace`, a space, the text of a mapping without
//! spaces, a space, and the text of a trace. In a text `\s`, `\n`, `\r`, `\t` and `\\` stand for a space, LF, CR, a
//! tab and a backslash, and `\xHH` for the byte of a number in two hexadecimal digits; each other byte stands for
//! itself. `why ITEM SYSTEM` asks by what an item of a system of requirements is kept, and `levels LEVELS SYSTEM` whether
//! levels of its items are certified; the README has the form of a system. An answer on a text is `ok`, a space, and the text, spelled in the same way, or `LINE KIND`. The status is that of
//! `line_answers`.
#![tactic(auto)]

mod answer;
mod rows;
mod systems;

use line_answers::answer_standard_input;
use rows::Rows;
use std::process::ExitCode;

fn main(rt: HostRuntime) -> ExitCode {
    answer_standard_input(&rt, &Rows, "mapping, no witness and no trace")
}
