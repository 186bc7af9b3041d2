//! Classes under new names.
#![tactic(auto)]

mod classes;
mod codes;
mod each;
mod frames;
mod names;
mod references;
mod renamer;
mod types;

pub use classes::rename_classes;
pub use names::NewNames;
