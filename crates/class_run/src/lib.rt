//! What a run of an entry has come to, for an interpreter that is asked so.
#![tactic(auto)]

mod ended;
pub mod examples;

pub use ended::{Arg, Back, End, Ended};
