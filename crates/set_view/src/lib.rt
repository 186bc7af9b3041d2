//! A set of classes as a program for the machine of `jvm_model`, and what a few small programs do.
#![tactic(auto)]

pub mod examples;
