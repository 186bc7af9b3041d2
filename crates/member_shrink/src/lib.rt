//! Classes without the members that aren't kept.
#![tactic(auto)]

mod removal;

pub use removal::shrunk;
