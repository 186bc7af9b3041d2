//! Small pairs of programs, and what the definition of a pair gives for them.
#![tactic(auto)]

mod laws;

pub use laws::computed_pairs;
