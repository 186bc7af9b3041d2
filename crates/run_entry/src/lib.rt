//! Runs of an entry of a set of classes, as the machine of `jvm_model` has them.
#![tactic(auto)]

mod arguments;
mod ending;
mod running;

pub use running::run_class;
