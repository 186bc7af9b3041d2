//! Lists of the classes and members of a set, for people: what rules keep, and what is dropped.
#![tactic(auto)]

mod items;
mod limit;
mod seeds;
mod usage;

pub use items::item_text;
pub use limit::TooLong;
pub use seeds::seeds_text;
pub use usage::usage_text;
