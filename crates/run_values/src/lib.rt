//! The values of the machine of `jvm_model`, its operand stacks and local variables, and what is computed with numbers.
#![tactic(auto)]

mod locals;
pub mod numbers;
mod stack;
pub mod types;
mod value;
mod words;

pub use locals::Locals;
pub use stack::Stack;
pub use value::Value;
