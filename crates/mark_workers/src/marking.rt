//! The call: seeds, workers, and what they leave.
ghost use Rattle.std.specs.Prelude.{◌≡◌, ◌≤◌, true, false, None, IfOk};
ghost use Rattle.mark_core.specs.Marks.{Marks};
ghost use Rattle.mark_core.specs.Valid.{Valid};
ghost use Rattle.mark_words.specs.Seats.{view, system_of, IsSeatOf};
ghost use Rattle.mark_workers.specs.Ready.{IsSeeding, Ready, SameSeats};
ghost use Rattle.mark_workers.specs.Work.{Knows};

use crate::crew::{Member, hire, join_all, new_member};
use crate::item::claim;
use crate::pair_index::index_of;
use crate::sweep::settle;
use crate::working::{work, work_all};
use jv_base::M;
use mark_core::System;
use mark_words::{MarkTable, Marked, Marking};
use std::alloc::Global;
use std::thread::Threads;
use tree_io::{Gate, OpenGate};

/// The least closed set of the system, found by so many workers, each in a thread of its own.
///
/// The gate is told of each item that a worker took, of each that it finished, and of its end; the workers are numbered
/// from 0. Every call returns, whatever the threads do and whatever memory a queue is refused: a worker leaves at last,
/// and what is left then is done here. Whether two threads run at a time is not said.
///
/// Its errors are of memory alone: for the tables and queues at the start, or for the marks at the end.
pub fn mark_all<R: Threads + Sync, G: Gate>(
    rt: &R,
    alloc: Global,
    sys: &System,
    workers: u32,
    gate: &G,
) -> M<Marked>
    requires valid { Valid sys.now }
    requires workers { (1 ≤ workers) × (workers ≤ 64) }
    ensures { IfOk result (λ marked. Marks sys.now marked) }
{
    let index = index_of(alloc, sys)?;
    let Marking { table, seats } = MarkTable::new(alloc, sys, workers + 1)?;
    let mut seats = seats.into_vec();
    let first = seats.remove(0);
    let mut stealers = Vec::new(alloc);
    let mut crew = hire(alloc, &table, sys.n, workers, seats, &mut stealers)?;
    let mut driver = new_member(alloc, sys.n, workers, first, 0, &mut stealers)?;
    seed(&table, sys, &mut driver);
    work_all(
        rt,
        &table,
        sys,
        &index,
        stealers.as_slice(),
        gate,
        crew.as_mut_slice(),
        workers + 1,
    );
    join_all(&table, &mut driver, crew);
    work(
        &table,
        sys,
        &index,
        stealers.as_slice(),
        &OpenGate,
        &mut driver,
    );
    settle(&table, &mut driver.seat, sys, &index, &mut driver.tasks);
    table.close(alloc, driver.seat)
}

/// Claims the seeds, and ends the seeding.
fn seed(table: &MarkTable, sys: &System, driver: &mut Member)
    requires system { system_of table.now ≡ sys.now }
    requires valid { Valid sys.now }
    requires seat { IsSeatOf table.now driver.old.seat }
    requires seeding { IsSeeding (system_of table.now).n (view driver.old.seat) }
    requires knows { Knows (system_of table.now).n (view driver.old.seat) driver.old.tasks.known.items }
    ensures ready { Ready table.now driver.new }
    ensures seats { SameSeats (view driver.old.seat) (view driver.new.seat) }
{
    for id in sys.seeds.as_slice() {
        claim(table, &mut driver.seat, *id, &mut driver.tasks);
    }
    table.end_seeding(&mut driver.seat);
}
