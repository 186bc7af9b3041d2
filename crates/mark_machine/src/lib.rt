//! The mark machine: events of any number of views over shared marks, and what stays true of them.
#![tactic(auto)]

mod law;
mod machine;

pub use law::runs_keep_invariant;
pub use machine::{Event, Happened, Look, View};
