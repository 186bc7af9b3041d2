//! A constant pool whose texts and references are read once, and shared by all that names them (JVMS 4.4).
#![tactic(auto)]

mod described;
mod members;
mod pool;
mod text_pool;
mod texts;

pub use described::{DescribedField, DescribedMethod};
pub use members::{KnownMember, count_of};
pub use pool::{KnownPool, pool_of};
pub use texts::{KnownText, TextRule};
