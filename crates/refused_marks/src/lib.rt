//! Calls on tables of marks under their own contracts, for edits that put wrong bodies in place of the calls.
#![tactic(auto)]

mod claiming;
mod partner;

pub use claiming::claim;
pub use partner::finish_pair;
