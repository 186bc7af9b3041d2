//! The bytes of a class in their canonical spelling (JVMS 4).
#![tactic(auto)]

mod attributes;
mod class_file;
mod code;
mod contents;
mod fields;
mod frames;
mod indices;
mod laws;
mod limits;
mod lines;
mod methods;
mod placing;
mod pool;
mod writing;

pub use laws::{canonical_spells_the_class, spelled_classes_can_be_written};
pub use writing::write_class;
