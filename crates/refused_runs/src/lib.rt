//! A run, under the contract of the call that makes it, for edits that put wrong bodies in place of the call.
#![tactic(auto)]

mod running;

pub use running::run_class;
