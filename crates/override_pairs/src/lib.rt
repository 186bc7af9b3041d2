//! What a class and a method above it need together: the method that runs.
#![tactic(auto)]

mod free;
mod pairs;
mod receiver;

pub use pairs::{Pairs, pairs_of};
