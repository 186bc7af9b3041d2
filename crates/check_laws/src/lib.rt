//! What is said of files as a pair, and by `check`, is always something.
#![tactic(auto)]

mod laws;

pub use laws::{check_has_an_answer, pairs_have_an_answer};
