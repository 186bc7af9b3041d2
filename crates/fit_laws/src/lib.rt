//! Which states of the machine fit a set whose methods are typed, and that each step keeps it so.
#![tactic(auto)]

pub mod steps;
