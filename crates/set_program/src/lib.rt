//! A set of classes as a program for the interpreter of the machine of `jvm_model`.
#![tactic(auto)]

mod counts;
mod kept;
mod linking;
mod links;
mod marks;
mod program;
mod receivers;
mod rows;
mod starting;

pub use program::SetProgram;
pub use starting::is_startable;
