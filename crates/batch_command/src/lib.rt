//! A batch of jobs: the lines of a list, each of which names the files of one, done in one call.
#![tactic(auto)]

mod board;
mod command;
mod configs;
mod gathering;
mod inputs;
mod joined;
mod laws;
mod listing;
mod shared_files;
mod steps;
mod work;
mod workers;

pub use command::run_jobs;
pub use joined::Batch;
pub use laws::{a_batch_does_its_jobs, told_files_are_left_as_due};
pub use work::{JobConfig, Work};
