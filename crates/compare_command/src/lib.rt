//! The command `compare`: whether an output shows what its input shows, from files to a sink.
#![tactic(auto)]

mod alike;
mod command;
mod comparing;
mod entries;
mod finding;
mod laws;
mod seeds;
mod types;

pub use command::CompareFiles;
pub use laws::one_answer;
