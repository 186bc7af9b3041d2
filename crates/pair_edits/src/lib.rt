//! What a witness tells of the methods of an input: entries that are stray, acts that aren't legal, and codes that
//! differ after the acts.
#![tactic(auto)]

mod after;
mod codes;
mod entries;
mod illegal;
mod strays;

pub use codes::code_differs;
pub use entries::Entries;
pub use illegal::illegal_edit;
pub use strays::stray_entry;
