//! What is said of two sets is always something.
#![tactic(auto)]

mod laws;

pub use laws::clauses_have_an_answer;
