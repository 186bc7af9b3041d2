//! Sets of classes that are one program, their codes aside.
#![tactic(auto)]

pub mod laws;
