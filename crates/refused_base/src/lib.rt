//! Calls of the lower crates under their own contracts, for edits that put wrong bodies in place of the calls.
#![tactic(auto)]

mod bytes;
mod commands;
mod files;
mod items;
mod texts;

pub use bytes::{of_part, units_of_mutf8, words_of};
pub use commands::read_command;
pub use files::{read_files, write_files};
pub use items::{lib_member, plain_marks};
pub use texts::{read_mapping, read_witness, retrace, words};
