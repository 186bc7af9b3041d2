//! What a mapping calls classes and members: their new names, and what has them in place of the old ones.
#![tactic(auto)]

mod class_names;
mod earlier;
mod members;
mod names;
mod ops;
mod ranges;
mod tables;
mod types;

pub use class_names::{ClassNames, names_given};
pub use earlier::tables_of;
pub use names::NewNames;
pub use ops::{is_mapped_code, is_mapped_handlers};
pub use ranges::ranges_given;
pub use types::{are_mapped_classes, is_mapped_class, is_mapped_method_type, is_mapped_type};
