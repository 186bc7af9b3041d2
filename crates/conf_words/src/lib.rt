//! The words of a config (ProGuard manual, "Usage"), each with its line.
#![tactic(auto)]

mod kinds;
mod laws;
mod pieces;
mod splitting;

pub use laws::{open_quotes_are_told, words_are_read};
pub use splitting::{Word, WordFault, words};
