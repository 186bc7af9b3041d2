// What the rows of a StackMapTable stand for (JVMS 4.7.4).
ghost use Rattle.std.specs.Prelude.{◌≡◌, List, [], ◌∷◌, ◌++◌, map, IfOk, OnOk, option_map};
ghost use Rattle.class_model.specs.Frames.{FullFrame, offset_behind, names_float};
ghost use Rattle.class_model.specs.ReadingFrames.{types_of, written, chopped, written_by, frame_of, row_stands};
ghost use Rattle.frame_read.specs.bodies.Rows.{info_of, row_of};
ghost use Rattle.class_model.specs.declared.frame.VType.{VType};
ghost use Rattle.frame_read.specs.bodies.Before.{built_of, onto, written_of};

use crate::reader::FrameReader;
use crate::row::{Row, TypeInfo};
use crate::starts::Starts;
use crate::types::{fit, has_float, is_float, types_of};
use class_model::{FrameBuilder, VType};
use jv_base::{Items, M};
use std::alloc::Global;

/// An offset_delta and the stack that a row writes.
#[derive(Drop)]
pub struct Written {
    pub delta: u16,
    pub stack: Items<VType>,
}

/// Whether the row names a float or a double.
pub fn names_float(row: &Row) -> bool
    ensures { result ≡ names_float (row_of row.now) }
{
    match row {
        Row::SameLocalsOneStackItem { item, .. } => is_float(*item),
        Row::SameLocalsOneStackItemExtended { item, .. } => is_float(*item),
        Row::Append { locals, .. } => has_float(locals.as_slice()),
        Row::Full { locals, stack, .. } => {
            has_float(locals.as_slice()) || has_float(stack.as_slice())
        }
        _ => false,
    }
}

// ---- what a row writes

// The types of rows, where the constants and the instructions that they name are there.
fn types_in(alloc: Global, code: &FrameReader, infos: &[TypeInfo]) -> M<Option<Items<VType>>>
    ensures { IfOk result (λ types. types
        ≡ types_of code.now.pool.now code.now.starts.now code.now.ops.now (map info_of infos.now)) }
{
    types_of(alloc, code.pool, code.starts, code.ops.as_slice(), infos)
}

fn with_item(alloc: Global, code: &FrameReader, delta: u16, item: TypeInfo) -> M<Option<Written>>
    ensures { IfOk result (λ w. (locals : List VType) → option_map (written_of locals) w
        ≡ option_map (written code.now.pool.now code.now.starts.now code.now.ops.now delta locals)
        (types_of code.now.pool.now code.now.starts.now code.now.ops.now (info_of item ∷ []))) }
{
    match types_in(alloc, code, &[item])? {
        Some(stack) => Ok(Some(Written { delta, stack })),
        None => Ok(None),
    }
}

fn chopped(alloc: Global, count: usize, delta: u16, frames: &mut FrameBuilder) -> Option<Written>
    ensures written { option_map (written_of frames.new.locals) result
        ≡ chopped [] [] [] count delta frames.old.locals }
    ensures frames { frames.new.frames ≡ frames.old.frames }
{
    if frames.len() < count {
        return None;
    }
    frames.chop(count);
    Some(Written {
        delta,
        stack: Items::new(alloc),
    })
}

fn appended(
    alloc: Global,
    code: &FrameReader,
    delta: u16,
    infos: &[TypeInfo],
    frames: &mut FrameBuilder,
) -> M<Option<Written>>
    ensures written { IfOk result (λ w. option_map (written_of frames.new.locals) w
        ≡ option_map (λ types. written code.now.pool.now code.now.starts.now code.now.ops.now delta
        (frames.old.locals ++ types) [])
        (types_of code.now.pool.now code.now.starts.now code.now.ops.now (map info_of infos.now))) }
    ensures frames { OnOk result (frames.new.frames ≡ frames.old.frames) }
{
    let Some(types) = types_in(alloc, code, infos)? else {
        return Ok(None);
    };
    frames.append(types)?;
    Ok(Some(Written {
        delta,
        stack: Items::new(alloc),
    }))
}

fn written_whole(
    alloc: Global,
    code: &FrameReader,
    delta: u16,
    locals: &[TypeInfo],
    stack: &[TypeInfo],
    frames: &mut FrameBuilder,
) -> M<Option<Written>>
    ensures written { IfOk result (λ w. option_map (written_of frames.new.locals) w
        ≡ written_by code.now.pool.now code.now.starts.now code.now.ops.now []
        (FullFrame delta (map info_of locals.now) (map info_of stack.now))) }
    ensures frames { OnOk result (frames.new.frames ≡ frames.old.frames) }
{
    let Some(locals) = types_in(alloc, code, locals)? else {
        return Ok(None);
    };
    frames.clear();
    frames.append(locals)?;
    let Some(stack) = types_in(alloc, code, stack)? else {
        return Ok(None);
    };
    Ok(Some(Written { delta, stack }))
}

// What a row behind the locals of the last one writes. Only the frame_types of its form stand in it, so no difference
// is cut off at 0.
fn written_by(
    alloc: Global,
    code: &FrameReader,
    row: &Row,
    frames: &mut FrameBuilder,
) -> M<Option<Written>>
    ensures written { IfOk result (λ w. option_map (written_of frames.new.locals) w
        ≡ written_by code.now.pool.now code.now.starts.now code.now.ops.now frames.old.locals (row_of row.now)) }
    ensures frames { OnOk result (frames.new.frames ≡ frames.old.frames) }
{
    match row {
        Row::Same { frame_type } => Ok(Some(Written {
            delta: u16::from(*frame_type),
            stack: Items::new(alloc),
        })),
        Row::SameLocalsOneStackItem { frame_type, item } => {
            let delta = u16::from(frame_type.saturating_sub(64));
            with_item(alloc, code, delta, *item)
        }
        Row::SameLocalsOneStackItemExtended { offset_delta, item } => {
            with_item(alloc, code, *offset_delta, *item)
        }
        Row::Chop {
            frame_type,
            offset_delta,
        } => {
            let count = usize::from(251u8.saturating_sub(*frame_type));
            Ok(chopped(alloc, count, *offset_delta, frames))
        }
        Row::SameExtended { offset_delta } => Ok(Some(Written {
            delta: *offset_delta,
            stack: Items::new(alloc),
        })),
        Row::Append {
            offset_delta,
            locals,
            ..
        } => appended(alloc, code, *offset_delta, locals.as_slice(), frames),
        Row::Full {
            offset_delta,
            locals,
            stack,
        } => written_whole(
            alloc,
            code,
            *offset_delta,
            locals.as_slice(),
            stack.as_slice(),
            frames,
        ),
    }
}

// ---- the frame of a row

// Wide enough for an offset behind the last that an instruction can have.
fn offset_behind(previous: Option<u32>, delta: u16) -> u64
    ensures { result ≡ offset_behind previous delta }
{
    match previous {
        None => u64::from(delta),
        Some(previous) => u64::from(previous) + u64::from(delta) + 1,
    }
}

// Appends the frame of the locals that were written last, and a stack, if there is room and an instruction begins at
// the offset, which is given back.
fn frame_of(
    starts: &Starts,
    max_stack: u16,
    max_locals: u16,
    offset: u64,
    written: Written,
    frames: &mut FrameBuilder,
) -> M<Option<u32>>
    ensures { IfOk result (λ at. option_map (built_of frames.new) at
        ≡ onto frames.old.frames (frame_of [] starts.now [] max_stack max_locals offset
        (written_of frames.old.locals written))) }
{
    if frames.words() > u64::from(max_locals) || !fit(written.stack.as_slice(), max_stack) {
        return Ok(None);
    }
    let Some(index) = starts.number(offset) else {
        return Ok(None);
    };
    frames.push(index, written.stack)?;
    Ok(Some(offset as u32))
}

/// Appends a row's frame, if its types are types, its locals and stack have room, and an instruction begins at its
/// offset, which is given back. The row before has the offset `previous`.
pub fn row_stands(
    alloc: Global,
    code: &FrameReader,
    previous: Option<u32>,
    row: &Row,
    frames: &mut FrameBuilder,
) -> M<Option<u32>>
    ensures { IfOk result (λ at. option_map (built_of frames.new) at
        ≡ onto frames.old.frames (row_stands code.now.pool.now code.now.starts.now code.now.ops.now
        code.now.max_stack code.now.max_locals
        (record { locals = frames.old.locals; offset = previous }) (row_of row.now))) }
{
    match written_by(alloc, code, row, frames)? {
        Some(written) => {
            let offset = offset_behind(previous, written.delta);
            frame_of(
                code.starts,
                code.max_stack,
                code.max_locals,
                offset,
                written,
                frames,
            )
        }
        None => Ok(None),
    }
}
