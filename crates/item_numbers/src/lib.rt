//! The items of a set by their numbers, and the classes above each class.
#![tactic(auto)]

mod above;
mod numbered;
mod supers;
mod tops;

pub use above::{has_member, is_declared_above};
pub use numbered::Numbered;
pub use supers::{is_interface, is_same_member, library_supers, program_supers, superclasses_of};
pub use tops::own_numbers;
