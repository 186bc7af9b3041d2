//! How a table is made, and how seats come and go.
ghost use Rattle.std.specs.Prelude.{◌≡◌, ℕ, ◌+◌, ◌<◌, ◌≤◌, false, None, IfOk};
ghost use Rattle.mark_core.specs.Valid.{Valid};
ghost use Rattle.mark_machine.specs.Machine.{one_less, newcomer, joined, first_of};
ghost use Rattle.mark_words.specs.Seats.{view, system_of, IsSeatOf, Becomes, Starts};

use crate::marking::Marking;
use crate::rule::{Cut, Plan, Union};
use crate::table::{MarkSeat, MarkTable};
use atomic_table::Table;
use jv_base::{Items, M};
use mark_core::System;
use std::alloc::Global;
use std::snapshot::Snapshot;

impl MarkTable {
    /// A table on which no item is marked, and its seats.
    pub fn new(alloc: Global, sys: &System, seats: u32) -> M<Marking>
        requires valid { Valid sys.now }
        requires seats { (1 ≤ seats) × (seats ≤ 65) }
        ensures { IfOk result (λ made. Starts sys.now seats made) }
    {
        let (table, mut first) = MarkTable::open(alloc, sys, sys.n, seats)?;
        let mut others = Vec::new(alloc);
        for _ in 1..seats {
            others.push(table.split(&mut first))?;
        }
        others.insert(0, first)?;
        Ok(Marking {
            table,
            seats: Items::from_vec(others),
        })
    }

    /// Makes the two seats one, which has seen and finished what either had and stands for the seats of both.
    pub fn join(&self, seat: &mut MarkSeat, other: MarkSeat)
        requires seat { IsSeatOf self.now seat.old }
        requires other { IsSeatOf self.now other }
        requires hand { (view other).hand ≡ None }
        requires notes { ((view other).reserved ≡ false) × ((view other).standing ≡ false) }
        ensures { Becomes seat.old seat.new (joined (view seat.old) (view other)) }
    {
        self.table.shared.join_seat::<Union>(seat, other);
    }

    /// A seat of its own, of those for which the seat stands.
    fn split(&self, seat: &mut MarkSeat) -> MarkSeat
        requires seat { IsSeatOf self.now seat.old }
        requires more { 1 < (view seat.old).seats }
        ensures old { Becomes seat.old seat.new (one_less (view seat.old)) }
        ensures new { Becomes seat.old result (newcomer (view seat.old)) }
    {
        self.table.shared.split_seat::<Cut>(seat)
    }

    /// A table with one seat that stands for all.
    fn open(alloc: Global, sys: &System, n: u32, seats: u32) -> M<(MarkTable, MarkSeat)>
        requires valid { Valid sys.now }
        requires items { n ≡ sys.now.n }
        requires seats { (1 ≤ seats) × (seats ≤ 65) }
        ensures table { IfOk result (λ made. (system_of made.0 ≡ sys.now) × IsSeatOf made.0 made.1) }
        ensures first { IfOk result (λ made. view made.1 ≡ first_of seats) }
    {
        let mut words = vec![in alloc; 0u64; 2 * ((n as usize + 63) / 64) + 1]?;
        words[0] = 1;
        let plan = Plan {
            system: Snapshot::of(sys),
            seats,
        };
        let (table, first) = Table::of_words(alloc, words.as_slice(), &plan)?;
        Ok((MarkTable { n, table }, first))
    }
}
