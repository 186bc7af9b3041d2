//! The command `run`: what a static method of a set of class files prints and how it ends, from files to a sink.
#![tactic(auto)]

mod arguments;
mod command;
mod entries;
mod laws;
mod shown;

pub use command::RunFiles;
pub use entries::{Entry, Start, entry_in, no_entry, start_of};
pub use laws::one_answer;
