//! The nearest node from a node of a tree upwards that has a key, found by one search.
#![tactic(auto)]

mod children;
mod nearest;
mod walk;

pub use nearest::{Nearest, Up};
pub use walk::nearest_of;
