//! The least closed set of a system, by workers in threads.
#![tactic(auto)]

mod crew;
mod item;
mod marking;
mod pair_index;
mod sweep;
mod tasks;
mod working;

pub use marking::mark_all;
