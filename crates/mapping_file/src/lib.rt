//! Mapping files of ProGuard, which tell the old names of classes and members by their new ones: read and written.
#![tactic(auto)]

mod line;
mod mapping;
mod names;
mod parts;
mod reading;
mod writing;

pub use mapping::{MapClass, MapFault, MapField, MapKind, MapMethod, Mapping, Range};
pub use reading::{first_fault, one_mapping, read_mapping};
pub use writing::{write_mapping, write_mapping_within};
