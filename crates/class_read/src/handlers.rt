// The exception table of a Code (JVMS 4.7.3).
#![tactic(auto, unfolding(crate::proofs::Unfolding::rows))]

ghost use Rattle.std.specs.Prelude.{◌≡◌, ◌++◌, ◌∷◌, [], length};
ghost use Rattle.jv_base.specs.Outcome.{IsDue};
ghost use Rattle.format_reading.specs.Reader.{ReadsOr, u2, item, many};
ghost use Rattle.class_model.specs.Lookups.{optional_class_at};
ghost use Rattle.class_model.specs.ReadingCodeAttribute.{begins, places, handler_places, read_handler, read_handlers};

use crate::faults::fault;
use crate::lookups::class_at;
use class_model::Handler;
use format_reading::{FormatFault, FormatKind};
use frame_read::Starts;
use jv_base::{Cursor, Items, Name, Or};
use known_pool::KnownPool;
use std::alloc::Global;

// The number of the instruction that begins at an offset, or how many there are where the code ends there.
#[tactic(auto, using(crate::proofs::CodeEnd::is_end))]
fn number_or_end(starts: &Starts, count: u32, end: u32, offset: u16) -> Option<u32>
    requires { count ≡ length starts.now }
    ensures { result ≡ begins (starts.now ++ end ∷ []) offset }
{
    match starts.number(u64::from(offset)) {
        Some(number) => Some(number),
        None if u32::from(offset) == end => Some(count),
        None => None,
    }
}

// The numbers of the instructions at the three places of a row, of which end_pc may be the end of the code.
fn handler_places(
    starts: &Starts,
    count: u32,
    end: u32,
    start_pc: u16,
    end_pc: u16,
    handler_pc: u16,
) -> Option<(u32, u32, u32)>
    requires { count ≡ length starts.now }
    ensures { result ≡ handler_places starts.now end start_pc end_pc handler_pc }
{
    if start_pc >= end_pc {
        return None;
    }
    let from = starts.number(u64::from(start_pc))?;
    let to = number_or_end(starts, count, end, end_pc)?;
    let entry = starts.number(u64::from(handler_pc))?;
    Some((from, to, entry))
}

// The class that the index of a row names, or none at index 0, for any.
#[tactic(auto, unfolding(class_model::specs::Lookups::optional_class_at))]
fn optional_class_at(pool: &KnownPool, index: u16) -> Result<Option<Name>, Or<FormatKind>>
    ensures { IsDue result (optional_class_at pool.now index) }
{
    if index == 0 {
        return Ok(None);
    }
    match class_at(pool, index) {
        Ok(name) => Ok(Some(name.text().clone()?)),
        Err(kind) => Err(Or::Fault(kind)),
    }
}

fn read_caught(pool: &KnownPool, cursor: &mut Cursor) -> Result<Option<Name>, Or<FormatFault>>
    ensures { ReadsOr result cursor.new (item u2 (optional_class_at pool.now) cursor.old) }
{
    let at = cursor.place();
    let index = cursor.u2()?;
    match optional_class_at(pool, index) {
        Ok(caught) => Ok(caught),
        Err(Or::Fault(kind)) => Err(Or::Fault(fault(at, kind))),
        Err(Or::OutOfMemory) => Err(Or::OutOfMemory),
    }
}

// A row: its places first, then what it catches.
fn read_handler(
    pool: &KnownPool,
    starts: &Starts,
    count: u32,
    end: u32,
    cursor: &mut Cursor,
) -> Result<Handler, Or<FormatFault>>
    requires { count ≡ length starts.now }
    ensures { ReadsOr result cursor.new (read_handler pool.now starts.now end cursor.old) }
{
    let at = cursor.place();
    let start_pc = cursor.u2()?;
    let end_pc = cursor.u2()?;
    let handler_pc = cursor.u2()?;
    let found = handler_places(starts, count, end, start_pc, end_pc, handler_pc);
    let Some((from, to, entry)) = found else {
        return Err(Or::Fault(fault(at, FormatKind::BadHandler)));
    };
    let caught = read_caught(pool, cursor)?;
    Ok(Handler {
        from,
        to,
        entry,
        caught,
    })
}

#[tactic(auto)]
fn handlers(
    alloc: Global,
    rows: u16,
    pool: &KnownPool,
    starts: &Starts,
    count: u32,
    end: u32,
    cursor: &mut Cursor,
) -> Result<Items<Handler>, Or<FormatFault>>
    requires { count ≡ length starts.now }
    ensures { ReadsOr result cursor.new (many rows (read_handler pool.now starts.now end) cursor.old) }
{
    let mut handlers = Items::with_capacity(alloc, usize::from(rows))?;
    for _ in 0..rows {
        let handler = read_handler(pool, starts, count, end, cursor)?;
        handlers.push(handler)?;
    }
    Ok(handlers)
}

/// The exception table of a code whose instructions, so many, begin at these offsets, and whose last ends at `end`. Its
/// rows stand in the order in which they are searched (JVMS 2.10, 4.7.3).
#[tactic(auto, unfolding(class_model::specs::ReadingCodeAttribute::read_handlers, crate::proofs::Unfolding::numbers))]
pub fn read_handlers(
    alloc: Global,
    pool: &KnownPool,
    starts: &Starts,
    count: u32,
    end: u32,
    cursor: &mut Cursor,
) -> Result<Items<Handler>, Or<FormatFault>>
    requires { count ≡ length starts.now }
    ensures { ReadsOr result cursor.new (read_handlers pool.now starts.now end cursor.old) }
{
    let rows = cursor.u2()?;
    handlers(alloc, rows, pool, starts, count, end, cursor)
}
