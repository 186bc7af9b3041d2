//! The passes over the methods of a set.
#![tactic(auto)]

mod judging;
mod optimising;
mod spots;
mod steps;

pub use judging::Outcome;
pub use optimising::{NewCode, Optimised, optimise, optimise_if, with_codes};
