//! What holds of a set with the codes that the passes leave.
#![tactic(auto)]

pub mod laws;
pub mod one;
