//! Sets of class files of any size, in which each class calls two others.
#![tactic(auto)]

mod calling;
mod classes;
mod files;
mod laws;
mod methods;
mod references;

pub use files::generate;
pub use laws::generated_can_be_written;
