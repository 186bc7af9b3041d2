//! The commands: which one the words ask for, and what it answers.
#![tactic(auto)]

mod batch;
mod command;
mod laws;

pub use batch::run_batch;
pub use command::run;
pub use laws::{
    a_batch_does_its_shrinks, told_files_are_left_as_due, what_is_ok_does_the_same,
    what_is_written_is_ok,
};
