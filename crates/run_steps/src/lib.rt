//! What a frame does at its instruction: the steps of the machine of `jvm_model` within a frame.
#![tactic(auto)]

mod arrays;
mod body;
mod calls;
mod constants;
mod descriptors;
mod fields;
mod instruction;
mod jumps;
mod kinds;
mod leaving;
mod math;
mod outcome;
mod slots;
mod types;
mod words;

pub use body::Body;
pub use descriptors::{Descriptors, Kinds};
pub use instruction::local;
pub use kinds::{field_kind, operand_kinds};
pub use outcome::{Outcome, Request};
