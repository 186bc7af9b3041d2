//! A small set of classes, what is written of it, and what both do, computed from the definitions.
#![tactic(auto)]

pub mod rows;
