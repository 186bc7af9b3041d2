//! The command `check`: whether an output belongs to an input, from files to a sink.
#![tactic(auto)]

mod command;
mod finding;
mod judging;
mod laws;

pub use command::CheckFiles;
pub use finding::{Directories, Texts};
pub use laws::one_answer;
