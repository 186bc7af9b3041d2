//! The command `retrace`: a trace with the old names of a mapping, from two files to a sink.
#![tactic(auto)]

mod command;

pub use command::RetraceFiles;
