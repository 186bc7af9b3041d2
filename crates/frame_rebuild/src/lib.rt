//! The frames of a code after acts of a pass.
#![tactic(auto)]

mod locals;
mod marking;
mod moves;
mod rebuilding;
mod slots;
mod walking;

pub use rebuilding::{carry, rebuild};
