//! Texts that are read line by line: their lines, what a line is made of, and types and names that many lines share.
#![tactic(auto)]

mod cutting;
mod known;
mod lines;
mod numbers;
mod spelled;
mod table;

pub use cutting::{after, cut};
pub use known::Known;
pub use lines::{Line, is_passed_over, next_line};
pub use numbers::{number, number_below};
pub use spelled::{push_class, push_method, push_number, push_type};
