//! How the passes edit the code of a method: acts, by pass and step.
#![tactic(auto)]

mod act;
mod change;

pub use act::{Act, MethodEdits, Pass, PassEdits, is_pass, pass_of, pass_of_step};
pub use change::Change;
