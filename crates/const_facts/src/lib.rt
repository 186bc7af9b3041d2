//! Which int a local variable of a code holds before which instruction, as far as stored constants
//! tell.
#![tactic(auto)]

mod changes;
mod held;
mod work;

pub use changes::{change_at, change_of, int_pushed, is_marked};
pub use work::facts_of_slot;
