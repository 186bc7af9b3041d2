//! How typed codes end.
#![tactic(auto)]

pub mod laws;
