//! The command `gen`: a set of class files of any size, to a directory.
#![tactic(auto)]

mod command;
mod laws;
mod planning;

pub use command::GenFiles;
pub use laws::{one_due, some_due};
