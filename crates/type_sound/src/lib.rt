//! That a set of classes which is taken, and whose methods are typed, never brings the machine to go wrong.
#![tactic(auto)]

pub mod rows;
pub mod sound;
