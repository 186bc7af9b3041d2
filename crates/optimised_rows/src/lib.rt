//! A small set of classes, what the passes make of it, and what both do, computed from the definitions.
#![tactic(auto)]

pub mod rows;
