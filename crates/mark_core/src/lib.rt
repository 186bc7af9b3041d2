//! Which items have to be kept: a system of requirements, and its least closed set; and ranks of items by what they
//! need.
#![tactic(auto)]

mod components;
mod pair_index;
mod plain;
mod ranks;
mod system;

pub use components::component_ranks;
pub use plain::plain_marks;
pub use ranks::{are_ranked, first_unranked, none_rises, ranks_of};
pub use system::{Pair, System, valid};
