//! The type checker of codes (JVMS 4.10.1).
#![tactic(auto)]

mod arrays;
mod asked;
mod assignability;
mod calls;
mod chain;
mod changed;
mod checker;
mod declared;
mod descriptors;
mod environment;
mod fault;
mod fields;
mod fitting;
mod frame;
mod framing;
mod guards;
mod handlers;
mod hierarchy;
mod instructions;
mod known;
mod laws;
mod locals;
mod objects;
mod operands;
mod places;
mod receivers;
mod room;
mod same;
mod stack;
mod types;
mod variables;
mod verify;
mod walk;
mod words;

pub use checker::CodeChecker;
pub use fault::{TypeFault, TypeKind};
pub use laws::{codes_are_typed_or_at_fault, sets_are_typed_or_at_fault};
pub use verify::{assignable, verify_code, verify_method, verify_set};
