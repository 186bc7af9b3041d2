//! What stays of a set of classes whose methods get other codes.
#![tactic(auto)]

pub mod laws;
