//! That no run which is told goes wrong, and that an output which belongs to its input is never told to differ.
#![tactic(auto)]

pub mod laws;
