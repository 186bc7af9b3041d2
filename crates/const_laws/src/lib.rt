//! What holds of the acts that const gives a code.
#![tactic(auto)]

pub mod acts;
pub mod rows;
