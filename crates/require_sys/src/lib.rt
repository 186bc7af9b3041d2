//! What of a set of classes has to be kept, as a system of requirements on its items.
#![tactic(auto)]

mod kept;
mod laws;
mod limits;

pub use kept::KeptByRules;
pub use laws::closed_sets_keep;
pub use limits::{Counted, TooMany};
