//! What holds of codes after a step, with their frames.
#![tactic(auto)]

pub mod laws;
