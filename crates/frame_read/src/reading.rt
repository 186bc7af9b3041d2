// The rows of a StackMapTable, read from left to right (JVMS 4.7.4).
ghost use Rattle.std.specs.Prelude.{◌≡◌, ◌≤◌, map};
ghost use Rattle.format_reading.specs.Reader.{ReadsAs, ReadsAsOr, onwards, lead, u1, many};
ghost use Rattle.class_model.specs.ReadingFrames.{read_type, full, append, row_begun, read_row};
ghost use Rattle.frame_read.specs.bodies.Rows.{info_of, row_of};

use crate::row::{Row, TypeInfo};
use format_reading::{FormatFault, FormatKind};
use jv_base::{Cursor, Items, Or};
use std::alloc::Global;

#[tactic(auto, unfolding(crate::proofs::Unfolding::types))]
fn type_info(cursor: &mut Cursor) -> Result<TypeInfo, FormatFault>
    ensures { ReadsAs info_of result cursor.new (read_type cursor.old) }
{
    let offset = cursor.place();
    match cursor.u1()? {
        7 => Ok(TypeInfo::Object(cursor.u2()?)),
        8 => Ok(TypeInfo::Uninitialized(cursor.u2()?)),
        tag if tag <= 6 => Ok(TypeInfo::Tag(tag)),
        _ => Err(FormatFault {
            offset,
            kind: FormatKind::BadFrame,
        }),
    }
}

fn type_infos(
    alloc: Global,
    count: usize,
    cursor: &mut Cursor,
) -> Result<Items<TypeInfo>, Or<FormatFault>>
    ensures { ReadsAsOr (map info_of) result cursor.new (many count read_type cursor.old) }
{
    let mut infos = Items::with_capacity(alloc, count)?;
    for _ in 0..count {
        let next = type_info(cursor)?;
        infos.push(next)?;
    }
    Ok(infos)
}

fn full(alloc: Global, cursor: &mut Cursor) -> Result<Row, Or<FormatFault>>
    ensures { ReadsAsOr row_of result cursor.new (full cursor.old) }
{
    let offset_delta = cursor.u2()?;
    let locals_count = cursor.u2()?;
    let locals = type_infos(alloc, usize::from(locals_count), cursor)?;
    let stack_count = cursor.u2()?;
    let stack = type_infos(alloc, usize::from(stack_count), cursor)?;
    Ok(Row::Full {
        offset_delta,
        locals,
        stack,
    })
}

fn append(alloc: Global, frame_type: u8, cursor: &mut Cursor) -> Result<Row, Or<FormatFault>>
    requires { 251 ≤ frame_type }
    ensures { ReadsAsOr row_of result cursor.new (append frame_type cursor.old) }
{
    let offset_delta = cursor.u2()?;
    let locals = type_infos(alloc, usize::from(frame_type - 251), cursor)?;
    Ok(Row::Append {
        frame_type,
        offset_delta,
        locals,
    })
}

// The row that the frame_type at an offset begins.
fn row_begun(
    alloc: Global,
    offset: u32,
    frame_type: u8,
    cursor: &mut Cursor,
) -> Result<Row, Or<FormatFault>>
    ensures { ReadsAsOr row_of result cursor.new (onwards offset (row_begun frame_type) cursor.old) }
{
    match frame_type {
        0..=63 => Ok(Row::Same { frame_type }),
        64..=127 => Ok(Row::SameLocalsOneStackItem {
            frame_type,
            item: type_info(cursor)?,
        }),
        128..=246 => Err(Or::Fault(FormatFault {
            offset,
            kind: FormatKind::BadFrame,
        })),
        247 => Ok(Row::SameLocalsOneStackItemExtended {
            offset_delta: cursor.u2()?,
            item: type_info(cursor)?,
        }),
        248..=250 => Ok(Row::Chop {
            frame_type,
            offset_delta: cursor.u2()?,
        }),
        251 => Ok(Row::SameExtended {
            offset_delta: cursor.u2()?,
        }),
        252..=254 => append(alloc, frame_type, cursor),
        255 => full(alloc, cursor),
    }
}

fn row_at(alloc: Global, cursor: &mut Cursor) -> Result<Row, Or<FormatFault>>
    ensures { ReadsAsOr row_of result cursor.new (lead u1 row_begun cursor.old) }
{
    let offset = cursor.place();
    let frame_type = cursor.u1()?;
    row_begun(alloc, offset, frame_type, cursor)
}

/// The next row. Each fault of it is told at its first byte.
#[tactic(auto, unfolding(class_model::specs::ReadingFrames::read_row))]
pub fn row(alloc: Global, cursor: &mut Cursor) -> Result<Row, Or<FormatFault>>
    ensures { ReadsAsOr row_of result cursor.new (read_row cursor.old) }
{
    let offset = cursor.place();
    match row_at(alloc, cursor) {
        Ok(row) => Ok(row),
        Err(Or::Fault(fault)) => Err(Or::Fault(FormatFault {
            offset,
            kind: fault.kind,
        })),
        Err(Or::OutOfMemory) => Err(Or::OutOfMemory),
    }
}
