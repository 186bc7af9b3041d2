//! Tables of what acts of const name and do, and where known ints lead a branch or switch.
#![tactic(auto)]

pub mod deciding;
pub mod facts;
pub mod folding;
pub mod predecessors;
