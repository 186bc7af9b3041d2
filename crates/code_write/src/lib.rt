//! The bytes of the instructions of a code, in their canonical spelling (JVMS 4.9.1, 6.5).
#![tactic(auto)]

mod constants;
mod encoding;
mod examples;
mod lookups;
mod said;
mod sizes;
mod writing;

pub use constants::constants_in;
pub use encoding::{Coded, encode_code, encode_with};
pub use examples::computed_codes;
