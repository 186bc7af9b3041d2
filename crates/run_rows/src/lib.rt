//! Rows of runs, computed from the definitions of the machine.
#![tactic(auto)]

pub mod rows;
