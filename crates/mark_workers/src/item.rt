//! What a seat does with one item: its needs and its pairs.
ghost use Rattle.std.specs.Prelude.{◌≡◌, ℕ, ◌<◌, false, true, Some, length};
ghost use Rattle.std.specs.List.{All, Contains};
ghost use Rattle.mark_core.specs.Marks.{needs_of};
ghost use Rattle.mark_core.specs.Valid.{PairBelow, Valid};
ghost use Rattle.mark_machine.specs.Machine.{May, PairSeen, look as look_of};
ghost use Rattle.mark_words.specs.Seats.{view, system_of, IsSeatOf};
ghost use Rattle.mark_workers.specs.Index.{IsIndex};
ghost use Rattle.mark_workers.specs.Work.{Did, Fits, IsBusy, Kept, Knows, Looked, Sides};

use crate::pair_index::PairIndex;
use crate::tasks::Tasks;
use mark_core::{Pair, System};
use mark_words::{Claimed, MarkSeat, MarkTable};

/// Does all that the item in hand asks for, and finishes it. Items that are new go to the tasks.
pub(crate) fn do_item(
    table: &MarkTable,
    seat: &mut MarkSeat,
    sys: &System,
    index: &PairIndex,
    id: u32,
    tasks: &mut Tasks,
)
    requires fits { Fits table.now sys.now index.now }
    requires id { id < sys.now.n }
    requires seat { IsSeatOf table.now seat.old }
    requires busy { IsBusy (view seat.old) id }
    requires knows { Knows (system_of table.now).n (view seat.old) tasks.old.known.items }
    ensures seat { IsSeatOf table.now seat.new }
    ensures knows { Knows (system_of table.now).n (view seat.new) tasks.new.known.items }
    ensures did { Did (system_of table.now).n (view seat.old) id (view seat.new) }
{
    claim_needs(table, seat, sys, id, tasks);
    look_pairs(table, seat, sys, index, id, tasks);
    table.finish(seat);
}

/// Claims all that the item needs.
fn claim_needs(table: &MarkTable, seat: &mut MarkSeat, sys: &System, id: u32, tasks: &mut Tasks)
    requires system { system_of table.now ≡ sys.now }
    requires valid { Valid sys.now }
    requires id { id < sys.now.n }
    requires seat { IsSeatOf table.now seat.old }
    requires busy { IsBusy (view seat.old) id }
    requires knows { Knows (system_of table.now).n (view seat.old) tasks.old.known.items }
    ensures seat { IsSeatOf table.now seat.new }
    ensures knows { Knows (system_of table.now).n (view seat.new) tasks.new.known.items }
    ensures kept { Kept (system_of table.now).n (view seat.old) (view seat.new) }
    ensures seen { All (Contains (view seat.new).seen) (needs_of sys.now id) }
{
    for item in sys.needs[id as usize].as_slice() {
        claim(table, seat, *item, tasks);
    }
}

/// Looks at each pair in which the item stands, the last one first.
fn look_pairs(
    table: &MarkTable,
    seat: &mut MarkSeat,
    sys: &System,
    index: &PairIndex,
    id: u32,
    tasks: &mut Tasks,
)
    requires fits { Fits table.now sys.now index.now }
    requires id { id < sys.now.n }
    requires seat { IsSeatOf table.now seat.old }
    requires busy { IsBusy (view seat.old) id }
    requires knows { Knows (system_of table.now).n (view seat.old) tasks.old.known.items }
    ensures seat { IsSeatOf table.now seat.new }
    ensures knows { Knows (system_of table.now).n (view seat.new) tasks.new.known.items }
    ensures kept { Kept (system_of table.now).n (view seat.old) (view seat.new) }
    ensures seen { All (PairSeen (view seat.new) id) sys.now.pairs }
{
    let mut front = index.fronts[id as usize];
    while front > 0 {
        let place = front - 1;
        look_pair(table, seat, id, sys.pairs[place / 2], tasks);
        front = index.links[place];
    }
}

/// Looks at the other item of the pair, or at the item itself where the pair has it twice.
fn look_pair(table: &MarkTable, seat: &mut MarkSeat, id: u32, pair: Pair, tasks: &mut Tasks)
    requires seat { IsSeatOf table.now seat.old }
    requires busy { IsBusy (view seat.old) id }
    requires pair { Contains (system_of table.now).pairs pair }
    requires below { PairBelow (system_of table.now).n pair }
    requires knows { Knows (system_of table.now).n (view seat.old) tasks.old.known.items }
    ensures seat { IsSeatOf table.now seat.new }
    ensures knows { Knows (system_of table.now).n (view seat.new) tasks.new.known.items }
    ensures kept { Kept (system_of table.now).n (view seat.old) (view seat.new) }
    ensures seen { PairSeen (view seat.new) id pair }
{
    if pair.one == id {
        look(table, seat, id, pair.two, pair, tasks);
    }
    if pair.two == id {
        look(table, seat, id, pair.one, pair, tasks);
    }
}

/// Looks at the partner, and claims the consequence where it is marked.
fn look(
    table: &MarkTable,
    seat: &mut MarkSeat,
    id: u32,
    partner: u32,
    pair: Pair,
    tasks: &mut Tasks,
)
    requires seat { IsSeatOf table.now seat.old }
    requires busy { IsBusy (view seat.old) id }
    requires pair { Contains (system_of table.now).pairs pair }
    requires below { PairBelow (system_of table.now).n pair }
    requires sides { Sides pair id partner }
    requires knows { Knows (system_of table.now).n (view seat.old) tasks.old.known.items }
    ensures seat { IsSeatOf table.now seat.new }
    ensures knows { Knows (system_of table.now).n (view seat.new) tasks.new.known.items }
    ensures kept { Kept (system_of table.now).n (view seat.old) (view seat.new) }
    ensures seen { Looked (view seat.new) id partner pair }
{
    if sees(table, seat, partner, tasks) {
        claim(table, seat, pair.derived, tasks);
    }
}

/// Whether the item is marked. One that the seat is known to have seen is, and isn't looked at on the table.
pub(crate) fn sees(table: &MarkTable, seat: &mut MarkSeat, item: u32, tasks: &mut Tasks) -> bool
    requires seat { IsSeatOf table.now seat.old }
    requires item { item < (system_of table.now).n }
    requires knows { Knows (system_of table.now).n (view seat.old) tasks.old.known.items }
    ensures seat { IsSeatOf table.now seat.new }
    ensures knows { Knows (system_of table.now).n (view seat.new) tasks.new.known.items }
    ensures kept { Kept (system_of table.now).n (view seat.old) (view seat.new) }
    ensures seen { result ≡ true → Contains (view seat.new).seen item }
    ensures unseen { result ≡ false → (x : ℕ) → (view seat.old).hand ≡ Some x → Contains (view seat.new).looks (look_of x item) }
{
    if tasks.known[item as usize] {
        true
    } else if table.is_marked(seat, item) {
        tasks.known[item as usize] = true;
        true
    } else {
        false
    }
}

/// Claims the item, unless the seat is known to have seen it.
pub(crate) fn claim(table: &MarkTable, seat: &mut MarkSeat, item: u32, tasks: &mut Tasks)
    requires seat { IsSeatOf table.now seat.old }
    requires free { (view seat.old).reserved ≡ false }
    requires item { item < (system_of table.now).n }
    requires due { May (system_of table.now) (view seat.old) item }
    requires knows { Knows (system_of table.now).n (view seat.old) tasks.old.known.items }
    ensures seat { IsSeatOf table.now seat.new }
    ensures knows { Knows (system_of table.now).n (view seat.new) tasks.new.known.items }
    ensures kept { Kept (system_of table.now).n (view seat.old) (view seat.new) }
    ensures seen { Contains (view seat.new).seen item }
{
    if !tasks.known[item as usize] {
        claim_on_table(table, seat, item, tasks);
    }
}

/// Claims the item on the table, and adds it to the tasks where it is new. One for which there is no memory is left to the
/// sweep.
fn claim_on_table(table: &MarkTable, seat: &mut MarkSeat, item: u32, tasks: &mut Tasks)
    requires seat { IsSeatOf table.now seat.old }
    requires free { (view seat.old).reserved ≡ false }
    requires item { item < (system_of table.now).n }
    requires due { May (system_of table.now) (view seat.old) item }
    requires knows { Knows (system_of table.now).n (view seat.old) tasks.old.known.items }
    ensures seat { IsSeatOf table.now seat.new }
    ensures knows { Knows (system_of table.now).n (view seat.new) tasks.new.known.items }
    ensures kept { Kept (system_of table.now).n (view seat.old) (view seat.new) }
    ensures seen { Contains (view seat.new).seen item }
{
    let claimed = table.claim(seat, item);
    tasks.known[item as usize] = true;
    if claimed == Claimed::New {
        tasks.add(item);
    }
}
