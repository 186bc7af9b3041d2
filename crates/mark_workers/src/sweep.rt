//! What is left after the workers: items that no queue has, since it had no memory, or that they left behind.
ghost use Rattle.std.specs.Prelude.{◌≡◌, ◌<◌, false, true};
ghost use Rattle.mark_words.specs.Seats.{view, system_of, IsSeatOf};
ghost use Rattle.mark_workers.specs.Sweep.{IsSwept, Rests, Visited, left_of};
ghost use Rattle.mark_workers.specs.Work.{Fits, Knows};

use crate::item::do_item;
use crate::pair_index::PairIndex;
use crate::tasks::Tasks;
use mark_core::System;
use mark_words::{MarkSeat, MarkTable, Taken};

/// Does what is left, so that the seat has seen idle.
pub(crate) fn settle(
    table: &MarkTable,
    seat: &mut MarkSeat,
    sys: &System,
    index: &PairIndex,
    tasks: &mut Tasks,
)
    requires fits { Fits table.now sys.now index.now }
    requires seat { IsSeatOf table.now seat.old }
    requires rests { Rests (system_of table.now).n (view seat.old) }
    requires knows { Knows (system_of table.now).n (view seat.old) tasks.old.known.items }
    ensures seat { IsSeatOf table.now seat.new }
    ensures quiet { (view seat.new).quiet ≡ true }
{
    if table.idle(seat) {
        return;
    }
    sweep(table, seat, sys, index, tasks);
    table.idle(seat);
}

/// Rounds over all items, until one takes none.
fn sweep(table: &MarkTable, seat: &mut MarkSeat, sys: &System, index: &PairIndex, tasks: &mut Tasks)
    requires fits { Fits table.now sys.now index.now }
    requires seat { IsSeatOf table.now seat.old }
    requires rests { Rests (system_of table.now).n (view seat.old) }
    requires knows { Knows (system_of table.now).n (view seat.old) tasks.old.known.items }
    ensures seat { IsSeatOf table.now seat.new }
    ensures knows { Knows (system_of table.now).n (view seat.new) tasks.new.known.items }
    ensures rests { Rests (system_of table.now).n (view seat.new) }
    ensures swept { IsSwept sys.now.n (view seat.new) }
{
    loop {
        let took = round(table, seat, sys, index, tasks);
        if !took {
            return;
        }
    }
}

/// One round over all items. The answer is whether it took one.
fn round(
    table: &MarkTable,
    seat: &mut MarkSeat,
    sys: &System,
    index: &PairIndex,
    tasks: &mut Tasks,
) -> bool
    requires fits { Fits table.now sys.now index.now }
    requires seat { IsSeatOf table.now seat.old }
    requires rests { Rests (system_of table.now).n (view seat.old) }
    requires knows { Knows (system_of table.now).n (view seat.old) tasks.old.known.items }
    ensures seat { IsSeatOf table.now seat.new }
    ensures knows { Knows (system_of table.now).n (view seat.new) tasks.new.known.items }
    ensures rests { Rests (system_of table.now).n (view seat.new) }
    ensures swept { result ≡ false → IsSwept sys.now.n (view seat.new) }
    ensures less { result ≡ true → left_of sys.now.n (view seat.new) < left_of sys.now.n (view seat.old) }
{
    let mut took = false;
    for id in 0..sys.n {
        if visit(table, seat, sys, index, id, tasks) {
            took = true;
        }
    }
    took
}

/// Does the item if it is marked and nobody took it. The answer is whether it did.
fn visit(
    table: &MarkTable,
    seat: &mut MarkSeat,
    sys: &System,
    index: &PairIndex,
    id: u32,
    tasks: &mut Tasks,
) -> bool
    requires fits { Fits table.now sys.now index.now }
    requires id { id < sys.now.n }
    requires seat { IsSeatOf table.now seat.old }
    requires rests { Rests (system_of table.now).n (view seat.old) }
    requires knows { Knows (system_of table.now).n (view seat.old) tasks.old.known.items }
    ensures seat { IsSeatOf table.now seat.new }
    ensures knows { Knows (system_of table.now).n (view seat.new) tasks.new.known.items }
    ensures visited { Visited (system_of table.now).n (view seat.old) id result (view seat.new) }
{
    if table.is_marked(seat, id) {
        match table.take(seat, id) {
            Taken::Mine => {
                do_item(table, seat, sys, index, id, tasks);
                true
            }
            Taken::Others => false,
        }
    } else {
        false
    }
}
