//! Classes, from the bytes of class files (JVMS 4).
#![tactic(auto, unfolding(crate::proofs::Unfolding::whole))]

mod attributes;
mod class;
mod class_attributes;
mod code;
mod code_attributes;
mod entries;
mod faults;
mod fields;
mod flags;
mod handlers;
mod head;
mod initial_frame;
mod instructions;
mod lines;
mod lookups;
mod members;
mod methods;
mod names;
mod parts;
mod passed_over;
mod signatures;

pub use class::read_class;
