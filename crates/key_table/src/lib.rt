//! Tables whose look-ups take the logarithm of how many keys there are, whatever the keys.
#![tactic(auto)]

mod key;
mod set;
mod table;

pub use key::{Key, joined};
pub use set::KeySet;
pub use table::Table;
