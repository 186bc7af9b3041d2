//! How classes and their members are spelled in texts for people: with external names, and types as Java source has
//! them.
#![tactic(auto)]

mod kinds;
mod spelled;

pub use kinds::{format_name, limit_name};
pub use spelled::{class_text, member_text, name_text, push_type, push_types};
