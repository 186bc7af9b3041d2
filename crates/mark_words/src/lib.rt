//! The mark machine on words that threads share.
#![tactic(auto)]

mod calls;
mod close;
mod marked;
mod marking;
mod rule;
mod seats;
mod table;

pub use marked::Marked;
pub use marking::Marking;
pub use table::{Claimed, MarkSeat, MarkTable, Taken};
