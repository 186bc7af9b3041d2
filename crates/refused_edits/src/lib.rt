//! Calls on acts, and on sets of which codes are edited, under their own contracts, for edits that put wrong bodies in
//! place of the calls.
#![tactic(auto)]

mod acts;
mod sets;

pub use acts::{jumps_edits, legal, reach_edits, slots_edits};
pub use sets::optimise;
