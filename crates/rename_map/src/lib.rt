//! New names for what is kept of a set of classes, and the mapping from old names to new ones.
#![tactic(auto)]

mod fixed;
mod gathering;
mod mapping;
mod methods;
mod naming;
mod telling;

pub use fixed::fixed_names;
pub use mapping::mapping_of;
pub use naming::{names, names_beside};
