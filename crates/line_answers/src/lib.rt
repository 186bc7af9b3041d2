//! A program that answers each line of standard input by a line of standard output.
//!
//! A line that begins with `#` is put out as it is. The first line that has another form than the program takes is told
//! with its number on standard error, and the status is 1. It is 7 where a device failed, and 10 where memory was
//! wanting. Nothing is proved of the loop: the stored runs of the programs show it.
#![tactic(auto)]

mod escapes;
mod lines;
mod program;

pub use escapes::{escaped_line, first_word, push_escaped, push_listed, unescaped, unescaped_text};
pub use lines::{Answers, Stop, answer_lines, is_title, put_answer, put_line, read_line};
pub use program::{answer_standard_input, exit_code};
