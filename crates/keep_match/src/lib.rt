//! What the rules of a config match in a set of classes: wildcards, class and member specifications, and what is kept.
#![tactic(auto)]

mod above;
mod as_keeps;
mod asked;
mod class_spec;
mod filter;
mod fixed;
mod flag_word;
mod member_spec;
mod member_table;
mod named;
mod piece;
mod rows;
mod scan;
mod seeds;
mod type_pattern;
mod wildcard;

pub use asked::members_asked;
pub use class_spec::class_matches;
pub use filter::accepts_attribute;
pub use fixed::{Fixes, fixed_rows};
pub use member_spec::member_matches;
pub use seeds::seeds_of;
pub use wildcard::wild;
