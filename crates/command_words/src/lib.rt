//! The words of a command line: which command is meant, and with which files.
#![tactic(auto)]

mod arguments;
mod batch;
mod command;
mod entries;
mod help;
mod words;

pub use batch::{Batch, read_batch};
pub use command::Command;
pub use help::help_text;
pub use words::read_command;
