//! Sets of class files in a line of text, as the programs of stored runs read them.
//!
//! A file is a word `PATH=HEX`: its path in UTF-8, without a blank or `=`, and its bytes in hexadecimal digits.
#![tactic(auto)]

mod files;
mod lists;

pub use files::{LineFile, bytes_of, files_of};
pub use lists::{are_listed, set_of};
