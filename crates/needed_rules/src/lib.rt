//! Why rules of the type checker are there: small codes that break one of them, and what their runs do.
#![tactic(auto)]

pub mod rows;
