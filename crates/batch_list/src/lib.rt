//! The list of a batch of jobs: what its text says, and which of its lines get in the way of others.
#![tactic(auto)]

mod line;
mod list;
mod overlap;

pub use line::{JobFiles, lines_name_jobs};
pub use list::{ListFault, read_list};
pub use overlap::{JobPaths, first_overlap};
