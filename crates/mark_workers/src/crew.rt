//! Who marks: the workers, each with a seat and a deque of its own.
ghost use Rattle.std.specs.Prelude.{◌≡◌, ℕ, ◌+◌, ◌≤◌, false, IfOk, length, replicate};
ghost use Rattle.std.specs.List.{All, Contains};
ghost use Rattle.mark_words.specs.Seats.{view, system_of, IsNewcomer, IsSeatOf};
ghost use Rattle.mark_workers.specs.Ready.{Hired, IsFree, Ready};
ghost use Rattle.mark_workers.specs.Sweep.{Rests};

use crate::tasks::Tasks;
use crossbeam_deque::{Stealer, Worker};
use jv_base::M;
use mark_words::{MarkSeat, MarkTable};
use std::alloc::Global;

/// How many items a deque has room for at first. It grows.
const FIRST_ROOM: usize = 256;

/// What one worker owns.
#[derive(Drop)]
pub(crate) struct Member {
    /// By which the gate knows it.
    pub number: u32,
    pub seat: MarkSeat,
    /// Items that it marked first and nobody has taken from it.
    pub tasks: Tasks,
}

/// A member without tasks, who keeps so many of them near and of `n` items has noted none. From its deque others take by
/// the stealer that is added.
pub(crate) fn new_member(
    alloc: Global,
    n: u32,
    number: u32,
    seat: MarkSeat,
    room: usize,
    stealers: &mut Vec<Stealer<u32>>,
) -> M<Member>
    ensures seat { IfOk result (λ member. member.seat ≡ seat) }
    ensures known { IfOk result (λ member. member.tasks.known.items ≡ replicate n false) }
{
    let queue = Worker::new_lifo(alloc, FIRST_ROOM)?;
    stealers.push(queue.stealer()?)?;
    Ok(Member {
        number,
        seat,
        tasks: Tasks {
            near: Vec::new(alloc),
            room,
            queue,
            known: vec![in alloc; false; n as usize]?,
        },
    })
}

/// A member for each of the seats. One who is alone keeps all tasks near; of several each has one there, and shares the
/// others.
pub(crate) fn hire(
    alloc: Global,
    table: &MarkTable,
    n: u32,
    workers: u32,
    seats: Vec<MarkSeat>,
    stealers: &mut Vec<Stealer<u32>>,
) -> M<Vec<Member>>
    requires items { n ≡ (system_of table.now).n }
    requires seats { All (IsNewcomer table.now (workers + 1)) seats.items }
    requires count { length seats.items ≡ workers }
    ensures hired { IfOk result (λ crew. All (Hired table.now (workers + 1)) crew.items) }
    ensures count { IfOk result (λ crew. length crew.items ≡ workers) }
{
    let mut seats = seats;
    let room = if workers == 1 { usize::MAX } else { 1 };
    let mut crew = Vec::new(alloc);
    let mut number = 0;
    while let Some(seat) = seats.pop() {
        crew.push(new_member(alloc, n, number, seat, room, stealers)?)?;
        number += 1;
    }
    Ok(crew)
}

/// Joins the seats of the crew into the driver's, which then stands for all.
pub(crate) fn join_all(table: &MarkTable, driver: &mut Member, crew: Vec<Member>)
    requires ready { Ready table.now driver.old }
    requires crew { All (Hired table.now (view driver.old.seat).all) crew.items }
    requires count { (view driver.old.seat).seats + length crew.items ≡ (view driver.old.seat).all }
    ensures ready { Ready table.now driver.new }
    ensures rests { Rests (system_of table.now).n (view driver.new.seat) }
{
    join_seats(table, &mut driver.seat, crew);
}

/// Joins the seats of the crew into the one.
fn join_seats(table: &MarkTable, seat: &mut MarkSeat, crew: Vec<Member>)
    requires seat { IsSeatOf table.now seat.old }
    requires free { IsFree (system_of table.now).n (view seat.old) }
    requires crew { All (Hired table.now (view seat.old).all) crew.items }
    requires count { (view seat.old).seats + length crew.items ≡ (view seat.old).all }
    ensures seat { IsSeatOf table.now seat.new }
    ensures rests { Rests (system_of table.now).n (view seat.new) }
    ensures seen { (x : ℕ) → Contains (view seat.old).seen x → Contains (view seat.new).seen x }
{
    let mut crew = crew;
    while let Some(member) = crew.pop() {
        table.join(seat, member.seat);
    }
}
