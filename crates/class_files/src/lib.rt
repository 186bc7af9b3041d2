//! The class files of a directory, as they stand in a tree of files, and files that are written to one.
#![tactic(auto)]

mod input;
mod output;

pub use input::{InputFault, path_in, read_files};
pub use output::write_files;
