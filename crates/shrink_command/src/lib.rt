//! The command `shrink`: what is kept of a directory of class files, under new names, from files to files.
#![tactic(auto)]

mod command;
mod laws;
mod planning;
mod summary;

pub use command::{ShrinkFiles, Shrinking, check_empty};
pub use laws::{frames_retrace, one_due, some_due, some_marks, what_is_due_is_a_pair};
pub use planning::plan_of;
