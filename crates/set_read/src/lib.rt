//! Class files, read as one set of classes that is taken.
#![tactic(auto)]

mod fault;
mod laws;
mod reading;
mod texts;

pub use fault::{RuleFault, RuleKind, SetFault};
pub use laws::files_are_one_set;
pub use reading::read_set;
