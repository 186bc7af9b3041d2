//! What the names and references of a set of classes mean, as the interpreter of the machine of `jvm_model` is told.
#![tactic(auto)]

mod calls;
mod fields;
mod members;
mod names;

pub use calls::{array_target, selected_target, special_target, static_target};
pub use fields::{clinit, field, fields_of};
pub use members::{code, code_at, constant, member_of};
pub use names::{all_names, class_name, firsts};
