//! What a pass finds on a code is one list of acts, and there always is one.
#![tactic(auto)]

pub mod laws;
