//! The command `why`: why an item is kept, from files to a sink.
#![tactic(auto)]

mod answering;
mod command;
mod items;
mod laws;
mod telling;

pub use command::WhyFiles;
pub use laws::{answers_tell_why, one_answer};
