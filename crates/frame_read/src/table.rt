// The contents of a StackMapTable, read from left to right (JVMS 4.7.4).
ghost use Rattle.std.specs.Prelude.{◌≡◌, ◌<◌, [], length, None};
ghost use Rattle.jv_base.specs.Outcome.{IsDue};
ghost use Rattle.format_reading.specs.Reader.{ReadsAsOr};
ghost use Rattle.class_model.specs.ReadingFrames.{read_frame, read_frames_behind, read_frames};
ghost use Rattle.frame_read.specs.Before.{table_of};
ghost use Rattle.frame_read.specs.bodies.Before.{read_onto, row_read};
ghost use Rattle.frame_read.specs.Table.{frames_of, frame_fault};

use crate::fault::FrameFault;
use crate::frames::{names_float, row_stands};
use crate::reader::FrameReader;
use crate::reading::row;
use crate::starts::Starts;
use crate::types::copies;
use class_model::{Frame, FrameBuilder, Frames, Op};
use format_reading::{FormatFault, FormatKind};
use jv_base::{Cursor, Items, Or};
use known_pool::KnownPool;
use std::alloc::Global;

/// The frames of a StackMapTable.
#[derive(Drop)]
pub struct StackMapTable {
    /// Ascending, as their rows stand.
    pub frames: Frames,
    /// Whether a row names a float or a double, which are left out and stand as Top in the frames.
    pub names_float: bool,
}

// Appends a row's frame, and gives back whether the row names a float or a double, and its offset. The row before has
// the offset `previous`.
#[tactic(auto, unfolding(crate::proofs::Unfolding::row))]
fn frame(
    alloc: Global,
    code: &FrameReader,
    previous: Option<u32>,
    cursor: &mut Cursor,
    frames: &mut FrameBuilder,
) -> Result<(bool, u32), Or<FormatFault>>
    ensures { ReadsAsOr (row_read frames.new) result cursor.new
        (read_onto frames.old.frames (read_frame code.now.pool.now code.now.starts.now code.now.ops.now
        code.now.max_stack code.now.max_locals
        (record { locals = frames.old.locals; offset = previous }) cursor.old)) }
{
    let offset = cursor.place();
    let row = row(alloc, cursor)?;
    let floats = names_float(&row);
    match row_stands(alloc, code, previous, &row, frames)? {
        Some(at) => Ok((floats, at)),
        None => Err(Or::Fault(FormatFault {
            offset,
            kind: FormatKind::BadFrame,
        })),
    }
}

// So many rows behind the locals of a builder without frames, and whether one of them names a float or a double.
fn frames(
    alloc: Global,
    code: &FrameReader,
    count: u16,
    cursor: &mut Cursor,
    frames: &mut FrameBuilder,
) -> Result<bool, Or<FormatFault>>
    requires { frames.old.frames ≡ [] }
    ensures { ReadsAsOr (λ floats. (floats, frames.new.frames)) result cursor.new
        (read_frames_behind code.now.pool.now code.now.starts.now code.now.ops.now code.now.max_stack
        code.now.max_locals count (record { locals = frames.old.locals; offset = None }) cursor.old) }
{
    let mut previous = None;
    let mut names_float = false;
    for _ in 0..count {
        let (floats, at) = frame(alloc, code, previous, cursor, frames)?;
        names_float = names_float || floats;
        previous = Some(at);
    }
    Ok(names_float)
}

/// The frames that stand at a cursor: the contents of the StackMapTable of a code.
///
/// A fault of a row is told at its first byte. What stands behind the last row isn't looked at.
#[tactic(auto, unfolding(crate::proofs::Unfolding::table))]
pub fn frames_at(
    alloc: Global,
    code: &FrameReader,
    cursor: &mut Cursor,
) -> Result<StackMapTable, Or<FormatFault>>
    ensures exact { ReadsAsOr table_of result cursor.new
        (read_frames code.now.pool.now code.now.starts.now code.now.ops.now code.now.max_stack code.now.max_locals
        code.now.first.now.locals cursor.old) }
{
    let count = cursor.u2()?;
    let mut built = FrameBuilder::new(alloc);
    built.append(copies(alloc, code.first.locals.as_slice())?)?;
    let names_float = frames(alloc, code, count, cursor, &mut built)?;
    Ok(StackMapTable {
        frames: built.into_frames(),
        names_float,
    })
}

fn frame_fault(fault: FormatFault) -> FrameFault
    ensures { result ≡ frame_fault fault }
{
    match fault.kind {
        FormatKind::Cut => FrameFault::Cut(fault.offset),
        _ => FrameFault::BadFrame(fault.offset),
    }
}

/// The frames that are the contents of a StackMapTable (JVMS 4.7.4), the constants that they name standing in a pool.
/// `ops` and `starts` are the instructions of one code and their offsets, and `first` is the frame before the first of
/// them.
///
/// The first fault from left to right counts. Offsets are from the first byte of the contents.
pub fn read_frames(
    alloc: Global,
    bytes: &[u8],
    first: &Frame,
    max_stack: u16,
    max_locals: u16,
    ops: &Items<Op>,
    starts: &Items<u32>,
    pool: &KnownPool,
) -> Result<StackMapTable, Or<FrameFault>>
    requires bytes { length bytes.now < 4294967295 }
    requires starts { length starts.now < 4294967295 }
    ensures exact { IsDue result
        (frames_of pool.now starts.now ops.now max_stack max_locals first.now.locals bytes.now) }
{
    let starts = Starts::new(alloc, starts.as_slice())?;
    let code = FrameReader {
        pool,
        starts: &starts,
        ops,
        max_stack,
        max_locals,
        first,
    };
    let mut cursor = Cursor::new(bytes);
    match frames_at(alloc, &code, &mut cursor) {
        Ok(table) if cursor.is_at_end() => Ok(table),
        Ok(_) => Err(Or::Fault(FrameFault::Trailing(cursor.place()))),
        Err(Or::Fault(fault)) => Err(Or::Fault(frame_fault(fault))),
        Err(Or::OutOfMemory) => Err(Or::OutOfMemory),
    }
}
