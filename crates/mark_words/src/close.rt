//! How a table is closed.
ghost use Rattle.std.specs.Prelude.{◌≡◌, ℕ, ◌+◌, ◌<◌, ◌≤◌, true, IfOk, length, slice_index};
ghost use Rattle.std.specs.Mem.Slots.{slots_items, slots_len, IsFull};
ghost use Rattle.mark_core.specs.Marks.{Marks, set_of};
ghost use Rattle.mark_words.specs.Words.{word_count, mark_word, has_bit};
ghost use Rattle.mark_words.specs.Seats.{view, system_of, IsSeatOf};

use crate::marked::Marked;
use crate::table::{MarkSeat, MarkTable};
use atomic_table::Closed;
use jv_base::{Items, M};
use std::alloc::Global;

impl MarkTable {
    /// The marks of the table: the least closed set of its system. The seat has seen idle. Where memory is wanting, the
    /// table is given up.
    pub fn close(self, alloc: Global, seat: MarkSeat) -> M<Marked>
        requires seat { IsSeatOf self seat }
        requires quiet { (view seat).quiet ≡ true }
        ensures { IfOk result (λ marked. Marks (system_of self) marked) }
    {
        let MarkTable { n, table } = self;
        let closed = table.close_with(seat);
        let marks = read_marks(alloc, &closed, n);
        closed.free();
        Ok(Marked {
            marks: Items::from_vec(marks?),
        })
    }
}

/// The marks that the words of a closed table have.
fn read_marks(alloc: Global, closed: &Closed<(), Global>, n: u32) -> M<Vec<bool>>
    requires words { slots_len closed.now.words ≡ word_count n }
    requires full { IsFull closed.now.words }
    ensures count { IfOk result (λ v. length v.items ≡ n) }
    ensures bits { IfOk result (λ v. (x : ℕ) → x < n → set_of v.items x ≡ has_bit (slice_index (slots_items closed.now.words) (mark_word x)) x) }
{
    let mut marks = Vec::with_capacity(alloc, n as usize)?;
    for x in 0..n {
        let word = closed.word(2 * (x as usize / 64) + 1);
        marks.push(word >> (x % 64) & 1 == 1)?;
    }
    Ok(marks)
}
