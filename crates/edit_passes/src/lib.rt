//! The acts that the passes find on a code.
#![tactic(auto)]

mod chains;
mod finding;
mod jumps;
mod reach;
mod slots;

pub use jumps::jumps_edits;
pub use reach::reach_edits;
pub use slots::slots_edits;
