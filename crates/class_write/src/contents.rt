// The contents of the attribute Code (JVMS 4.7.3).
ghost use Rattle.std.specs.Prelude.{◌≡◌, ◌+◌, ◌*◌, ◌^◌, ◌<◌, ◌≤◌, ◌++◌, [], None, true, All, length, IfOk, OnOk, codes};
ghost use Rattle.std.specs.Int.{w16, to_be_bytes};
ghost use Rattle.std.specs.List.{flat_map};
ghost use Rattle.jv_base.specs.Outcome.{Gives};
ghost use Rattle.class_model.specs.Structure.{attribute_info, code_info};
ghost use Rattle.class_model.specs.Frames.{stack_map_table};
ghost use Rattle.class_model.specs.CanonicalFrames.{rows};
ghost use Rattle.class_model.specs.CanonicalClass as canonical;
ghost use Rattle.class_model.specs.WellFormed.{IsGoodCode};
ghost use Rattle.class_model.specs.declared.frame.FrameAt.{FrameAt};
ghost use Rattle.frame_write.specs.Writing.{IsOffset, HasShortLists};
ghost use Rattle.class_write.specs.bodies.Placing.{placed_code};
ghost use Rattle.class_write.specs.bodies.Writing.{attribute_length, FitsTables, items_text, contents_due};

use crate::attributes::put_attribute;
use crate::code::{line_table, put_handlers};
use crate::lines::has_rows;
use crate::placing::PlacedCode;
use class_model::{Code, Frame, WriteLimit};
use constant_table::{ConstantTable, put, put_u2, put_u4};
use frame_write::write_frames_with;
use jv_base::{Bytes, M, Or};
use std::alloc::Global;

/// The frames of a well-formed code have no more types than its max_locals and max_stack, which have two bytes.
pub fn frames_are_short(code: &Code, max_locals: u16, max_stack: u16)
    requires code { IsGoodCode code.now }
    requires locals { max_locals ≡ code.now.max_locals }
    requires stack { max_stack ≡ code.now.max_stack }
    ensures { All (λ (f : FrameAt). HasShortLists f.frame) code.now.frames }
{}

fn attribute_length(written: bool, length: usize) -> u64
    requires { length < 2 ^ 63 }
    ensures { result ≡ attribute_length written length }
{
    if written { 6 + length as u64 } else { 0 }
}

/// The length of the contents, where the code, the LineNumberTable and the StackMapTable have these lengths.
fn contents_length(code: &Code, bytes: usize, lines: usize, frames: usize) -> u64
    requires bytes { bytes < 2 ^ 16 }
    requires handlers { length code.now.handlers < 2 ^ 16 }
    requires lines { lines < 2 ^ 20 }
    requires frames { frames < 2 ^ 63 }
    ensures { result ≡ 12 + (bytes + (8 * length code.now.handlers
        + (attribute_length (canonical.is_some_item (canonical.line_rows None [] code.now.ins)) lines
        + attribute_length (canonical.is_some_item code.now.frames) frames))) }
{
    let tables = attribute_length(has_rows(code.ins.as_slice()), lines)
        + attribute_length(!code.frames.is_empty(), frames);
    12 + bytes as u64 + 8 * code.handlers.len() as u64 + tables
}

/// The attributes of a code with these contents, their count first: LineNumberTable and StackMapTable.
fn put_tables(
    alloc: Global,
    pool: &ConstantTable,
    code: &Code,
    lines: &[u8],
    frames: &[u8],
    out: &mut Vec<u8>,
) -> M<()>
    requires pool { length pool.now + 1 < 2 ^ 16 }
    requires lines { canonical.is_some_item (canonical.line_rows None [] code.now.ins) ≡ true
        → length lines.now < 2 ^ 32 }
    requires frames { canonical.is_some_item code.now.frames ≡ true → length frames.now < 2 ^ 32 }
    ensures { let attributes = canonical.attribute pool.now
        (canonical.is_some_item (canonical.line_rows None [] code.now.ins)) (codes "LineNumberTable") lines.now
        ++ canonical.attribute pool.now (canonical.is_some_item code.now.frames)
        (codes "StackMapTable") frames.now in OnOk result
        (out.new.items ≡ out.old.items ++ (to_be_bytes w16 (length attributes) ++ flat_map attribute_info attributes)) }
{
    let has_lines = has_rows(code.ins.as_slice());
    let has_frames = !code.frames.is_empty();
    put_u2(out, u16::from(has_lines) + u16::from(has_frames))?;
    put_attribute(alloc, pool, has_lines, "LineNumberTable", lines, out)?;
    put_attribute(alloc, pool, has_frames, "StackMapTable", frames, out)
}

/// The items of the contents in front of their attributes.
fn put_items(
    alloc: Global,
    pool: &ConstantTable,
    code: &Code,
    placed: &PlacedCode,
    out: &mut Vec<u8>,
) -> M<()>
    requires pool { length pool.now + 1 < 2 ^ 16 }
    requires code { FitsTables pool.now code.now }
    requires placed { placed.now ≡ placed_code pool.now code.now }
    ensures { OnOk result (out.new.items ≡ out.old.items ++ items_text pool.now code.now) }
{
    put_u2(out, code.max_stack)?;
    put_u2(out, code.max_locals)?;
    put_u4(out, placed.bytes.len() as u32)?;
    put(out, placed.bytes.as_slice())?;
    put_handlers(
        alloc,
        pool,
        placed.places.as_slice(),
        code.handlers.as_slice(),
        out,
    )
}

/// The contents of the attribute Code of a method that begins with this frame, or the limit that their length passes.
pub fn code_contents(
    alloc: Global,
    pool: &ConstantTable,
    first: &Frame,
    code: &Code,
    placed: &PlacedCode,
) -> Result<Vec<u8>, Or<WriteLimit>>
    requires pool { length pool.now + 1 < 2 ^ 16 }
    requires code { FitsTables pool.now code.now }
    requires placed { placed.now ≡ placed_code pool.now code.now }
    ensures due { Gives (λ info. info.items) result (contents_due pool.now first.now.locals code.now) }
    ensures short { IfOk result (λ info. length info.items < 2 ^ 32) }
{
    frames_are_short(code, code.max_locals, code.max_stack);
    let lines = line_table(alloc, placed.places.as_slice(), code.ins.as_slice())?;
    let frames = write_frames_with(alloc, &code.frames, first, &placed.places, pool)?.into_vec();
    let length = contents_length(code, placed.bytes.len(), lines.len(), frames.len());
    if length > 4_294_967_295 {
        return Err(Or::Fault(WriteLimit::AttributeTooLong(length)));
    }
    let mut info = Vec::new(alloc);
    put_items(alloc, pool, code, placed, &mut info)?;
    put_tables(alloc, pool, code, &lines, &frames, &mut info)?;
    Ok(info)
}
