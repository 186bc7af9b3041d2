//! What programs do: a machine for the instructions of class files, as definitions, and what holds of it.
#![tactic(auto)]

pub mod laws;
pub mod pass;
