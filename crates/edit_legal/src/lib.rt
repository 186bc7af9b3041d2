//! Which act of a step is the first that isn't legal.
#![tactic(auto)]

mod acts;
mod aiming;
mod constants;
mod cuts;
mod drops;
mod jumps;
mod marking;
mod rules;
mod support;

pub use acts::{Bad, legal};
