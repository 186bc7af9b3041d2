//! Calls on classes and sets of them under their own contracts, for edits that put wrong bodies in place of the calls.
#![tactic(auto)]

mod classes;
mod files;
mod left;
mod links;
mod types;
mod wanted;

pub use classes::{read_class, write_class};
pub use files::shrink_classes;
pub use left::shrunk;
pub use links::{check_links, resolve_method};
pub use types::{assignable, verify_method};
pub use wanted::system_of;
