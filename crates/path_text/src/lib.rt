//! Paths of files and directories, as they stand in a command or a config.
#![tactic(auto)]

mod paths;

pub use paths::{directory_in, file_in, is_below, is_path};
