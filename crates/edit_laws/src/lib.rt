//! What holds of programs in which codes were edited by the passes.
#![tactic(auto)]

pub mod codes;
pub mod found;
pub mod names;
pub mod passes;
pub mod rows;
pub mod sets;
pub mod sound;
