//! Two seats of one table, by its calls one after the other.
ghost use Rattle.std.specs.Prelude.{◌≡◌, true, IfOk};
ghost use Rattle.std.specs.List.{Contains};
ghost use Rattle.mark_core.specs.Valid.{Valid};
ghost use Rattle.mark_words.specs.Seats.{IsSeatOf, system_of, view};
ghost use Rattle.mark_tests.specs.OneItem.{one_item as lone, IsFree, IsSeeding};

use jv_base::{Items, M};
use mark_core::{System, valid};
use mark_words::{Claimed, MarkSeat, MarkTable, Marking, Taken};
use std::alloc::Global;
use std::test::Fail;

// One item, which is the seed.
fn one_item(alloc: Global) -> M<System>
    ensures { IfOk result (λ sys. sys ≡ lone) }
{
    let mut seeds = Items::new(alloc);
    seeds.push(0)?;
    let mut needs = Items::new(alloc);
    needs.push(Items::new(alloc))?;
    Ok(System {
        n: 1,
        seeds,
        needs,
        pairs: Items::new(alloc),
    })
}

// Claims the seed.
fn claim_seed(table: &MarkTable, seat: &mut MarkSeat) -> Claimed
    requires system { system_of table.now ≡ lone }
    requires seat { IsSeatOf table.now seat.old }
    requires seeding { IsSeeding (view seat.old) }
    ensures seat { IsSeatOf table.now seat.new }
    ensures seeding { IsSeeding (view seat.new) }
    ensures seen { Contains (view seat.new).seen 0 }
{
    table.claim(seat, 0)
}

// Looks whether nothing is pending.
fn is_idle(table: &MarkTable, seat: &mut MarkSeat) -> bool
    requires seat { IsSeatOf table.now seat.old }
    requires seeding { IsSeeding (view seat.old) }
    requires seen { Contains (view seat.old).seen 0 }
    ensures seat { IsSeatOf table.now seat.new }
    ensures seeding { IsSeeding (view seat.new) }
    ensures seen { Contains (view seat.new).seen 0 }
{
    table.idle(seat)
}

// Ends the seeding.
fn end(table: &MarkTable, seat: &mut MarkSeat)
    requires system { system_of table.now ≡ lone }
    requires seat { IsSeatOf table.now seat.old }
    requires seeding { IsSeeding (view seat.old) }
    requires seen { Contains (view seat.old).seen 0 }
    ensures seat { IsSeatOf table.now seat.new }
    ensures free { IsFree (view seat.new) }
    ensures seen { Contains (view seat.new).seen 0 }
{
    table.end_seeding(seat);
}

// The item is marked, and another seat has taken it.
fn is_taken_by_others(table: &MarkTable, seat: &mut MarkSeat) -> bool
    requires system { system_of table.now ≡ lone }
    requires seat { IsSeatOf table.now seat.old }
    requires free { IsFree (view seat.old) }
    ensures seat { result ≡ true → IsSeatOf table.now seat.new }
    ensures free { result ≡ true → IsFree (view seat.new) }
{
    if table.is_marked(seat, 0) {
        match table.take(seat, 0) {
            Taken::Mine => false,
            Taken::Others => true,
        }
    } else {
        false
    }
}

// The first seat takes the item, the other one finds it taken, and the first one finishes it.
fn is_taken_once(table: &MarkTable, seat: &mut MarkSeat, other: &mut MarkSeat) -> bool
    requires system { system_of table.now ≡ lone }
    requires seat { IsSeatOf table.now seat.old }
    requires free { IsFree (view seat.old) }
    requires seen { Contains (view seat.old).seen 0 }
    requires other { IsSeatOf table.now other.old }
    requires other_free { IsFree (view other.old) }
    ensures seat { result ≡ true → IsSeatOf table.now seat.new }
    ensures other { result ≡ true → IsSeatOf table.now other.new }
    ensures other_free { result ≡ true → IsFree (view other.new) }
{
    match table.take(seat, 0) {
        Taken::Mine => {
            let others = is_taken_by_others(table, other);
            table.finish(seat);
            others
        }
        Taken::Others => false,
    }
}

// A claim finds the seed new, the next one finds it marked, and something is pending.
fn is_claimed_once(table: &MarkTable, seat: &mut MarkSeat) -> bool
    requires system { system_of table.now ≡ lone }
    requires seat { IsSeatOf table.now seat.old }
    requires seeding { IsSeeding (view seat.old) }
    ensures seat { result ≡ true → IsSeatOf table.now seat.new }
    ensures free { result ≡ true → IsFree (view seat.new) }
    ensures seen { result ≡ true → Contains (view seat.new).seen 0 }
{
    if claim_seed(table, seat) != Claimed::New {
        return false;
    }
    if claim_seed(table, seat) != Claimed::Already {
        return false;
    }
    if is_idle(table, seat) {
        return false;
    }
    end(table, seat);
    true
}

// Whether both seats get the answers that are due.
fn is_answered(alloc: Global, sys: &System) -> M<bool>
    requires system { sys.now ≡ lone }
    requires valid { Valid sys.now }
{
    let Marking { table, seats } = MarkTable::new(alloc, sys, 2)?;
    let mut seats = seats.into_vec();
    let mut first = seats.remove(0);
    let Some(mut other) = seats.pop() else {
        return Ok(false);
    };
    if !is_claimed_once(&table, &mut first) {
        return Ok(false);
    }
    if !is_taken_once(&table, &mut first, &mut other) {
        return Ok(false);
    }
    if !table.idle(&mut first) {
        return Ok(false);
    }
    table.join(&mut first, other);
    let marked = table.close(alloc, first)?;
    Ok(marked.marks().as_slice() == [true].as_slice())
}

fn is_answered_of_one_item(alloc: Global) -> M<bool> {
    let sys = one_item(alloc)?;
    if !valid(&sys) {
        return Ok(false);
    }
    is_answered(alloc, &sys)
}

#[test]
fn an_item_is_new_once_is_taken_once_and_is_marked_at_the_end(rt: HostRuntime) -> Result<(), Fail> {
    assert!(rt; is_answered_of_one_item(rt.alloc())?);
    Ok(())
}
