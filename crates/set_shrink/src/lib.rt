//! A set of classes without what isn't kept and under new names, as the files that are written of it.
#![tactic(auto)]

mod counts;
mod files;
mod laws;
mod lists;
mod order;
mod renaming;
mod shrunk;
mod texts;

pub use counts::Counts;
pub use laws::{filtered_can_be_written, one_shrunk_set, order_keeps_all, shrunk_can_be_written};
pub use lists::lists_of;
pub use shrunk::{ShrunkSet, shrink_classes};
pub use texts::texts_of;
