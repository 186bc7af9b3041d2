//! The table, and what its calls answer.
ghost use Rattle.std.specs.Prelude.{◌≡◌};
ghost use Rattle.mark_words.specs.Words.{word_count};

use crate::rule::{MarkRule, Plan};
use atomic_table::{Seat, Table};
use mark_machine::View;
use std::alloc::Global;

/// What one thread works on a table with. It takes no bytes.
pub type MarkSeat = Seat<(), View>;

/// The marks of a system's items on words that threads share. `specs/Words.antt` says which word and which bit is whose.
#[derive(Drop)]
pub struct MarkTable {
    pub(crate) n: u32,
    pub(crate) table: Table<(), View, Plan, MarkRule, Global>,
    ghost items: { n ≡ table.shared.key.system.value.n },
    ghost counts: { (table.shared.table_id.words ≡ word_count table.shared.key.system.value.n) × (table.shared.table_id.slots ≡ 0) },
}

/// What a claim found.
#[derive(Clone, Copy, PartialEq, Eq)]
pub enum Claimed {
    /// The item was unmarked, and this claim marked it.
    New,
    /// The item was marked.
    Already,
}

/// What a try to take an item found.
#[derive(Clone, Copy, PartialEq, Eq)]
pub enum Taken {
    /// Nobody had taken the item, and now it is in the hand of this seat.
    Mine,
    /// The item was taken.
    Others,
}
