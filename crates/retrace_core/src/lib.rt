//! Stack traces whose classes and methods have new names, with the old ones again.
#![tactic(auto)]

mod candidates;
mod cutting;
mod frame;
mod head;
mod old_names;
mod tables;
mod trace;

pub use trace::retrace;
