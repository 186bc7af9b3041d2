//! Classes with those of their optional attributes that a config keeps.
#![tactic(auto)]

mod filter;
mod filtering;

pub use filter::{AttributeFilter, attribute_filter};
pub use filtering::filtered;
