//! The acts of the pass that decides branches and switches on constants.
#![tactic(auto)]

mod acts;
mod folds;
mod known;
mod runs;
mod slots;

pub use acts::edits;
