//! Workers in threads: each takes items and does them until nothing is pending.
ghost use Rattle.std.specs.Prelude.{◌≡◌, ℕ, ◌+◌, ◌<◌};
ghost use Rattle.std.specs.List.{All};
ghost use Rattle.mark_words.specs.Seats.{view, system_of};
ghost use Rattle.mark_workers.specs.Ready.{Hired, Ready, SameSeats};
ghost use Rattle.mark_workers.specs.Work.{Fits};

use crate::crew::Member;
use crate::item::{do_item, sees};
use crate::pair_index::PairIndex;
use crossbeam_deque::Stealer;
use mark_core::System;
use mark_words::{MarkTable, Taken};
use std::thread::{Threads, for_each_mut};
use tree_io::{Gate, Turn};

/// How often a worker looks for work in vain, beside once for each item, before it leaves.
const IDLE_TURNS: u64 = 10_000;

/// All workers, each in a thread of its own.
pub(crate) fn work_all<R: Threads + Sync, G: Gate>(
    rt: &R,
    table: &MarkTable,
    sys: &System,
    index: &PairIndex,
    stealers: &[Stealer<u32>],
    gate: &G,
    crew: &mut [Member],
    seats: u32,
)
    requires fits { Fits table.now sys.now index.now }
    requires crew { All (Hired table.now seats) crew.old }
    ensures { All (Hired table.now seats) crew.new }
{
    let threads = crew.len();
    if threads == 0 {
        return;
    }
    let each = |_number: usize, member: &mut Member|
        requires { Fits table.now sys.now index.now × Hired table.now seats member.old }
        ensures { Hired table.entry.now seats member.new }
    {
        // What the crew has of so many seats is said of each member.
        let _ = &seats;
        work(table, sys, index, stealers, gate, member)
    };
    for_each_mut(rt, crew, threads, &each);
}

/// One worker: it takes items and does them until nothing is pending, or until it has looked for work often enough.
pub(crate) fn work<G: Gate>(
    table: &MarkTable,
    sys: &System,
    index: &PairIndex,
    stealers: &[Stealer<u32>],
    gate: &G,
    member: &mut Member,
)
    requires fits { Fits table.now sys.now index.now }
    requires ready { Ready table.now member.old }
    ensures ready { Ready table.now member.new }
    ensures seats { SameSeats (view member.old.seat) (view member.new.seat) }
{
    for _ in 0..u64::from(sys.n) + IDLE_TURNS {
        match member.tasks.find(stealers) {
            Some(id) => {
                if id < sys.n {
                    try_item(table, sys, index, gate, id, member);
                }
            }
            None => {
                if table.idle(&mut member.seat) {
                    break;
                }
            }
        }
    }
    member.tasks.share();
    gate.turn(member.number, Turn::Left);
}

/// Does the item if it is marked and nobody took it.
fn try_item<G: Gate>(
    table: &MarkTable,
    sys: &System,
    index: &PairIndex,
    gate: &G,
    id: u32,
    member: &mut Member,
)
    requires fits { Fits table.now sys.now index.now }
    requires id { id < sys.now.n }
    requires ready { Ready table.now member.old }
    ensures ready { Ready table.now member.new }
    ensures seats { SameSeats (view member.old.seat) (view member.new.seat) }
{
    if sees(table, &mut member.seat, id, &mut member.tasks) {
        match table.take(&mut member.seat, id) {
            Taken::Mine => {
                gate.turn(member.number, Turn::Took);
                do_item(table, &mut member.seat, sys, index, id, &mut member.tasks);
                gate.turn(member.number, Turn::Finished);
            }
            Taken::Others => {}
        }
    }
}
