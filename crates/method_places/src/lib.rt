//! The instance methods of a set by name, descriptor and package, and the nearest ones above a class.
#![tactic(auto)]

mod alike;
mod calls;
mod marks;
mod methods;
mod nearest;
mod places;

pub use methods::{InstanceMethod, Methods, Openness, methods_of};
pub use nearest::{Note, no_notes, note_chain, noted};
pub use places::{Part, Places, is_overriding};
