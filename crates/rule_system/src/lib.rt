//! What of a set of classes has to be kept by the rules of a config.
#![tactic(auto)]

mod kept;
mod seeds;
mod system;

pub use kept::kept_by_rules;
pub use system::system_of;
