// What stands behind the instructions of a Code (JVMS 4.7.3).
#![tactic(auto, unfolding(crate::proofs::Unfolding::contents))]

ghost use Rattle.std.specs.Prelude.{◌≡◌, ◌<◌, ◌++◌, length, option_map, IfOk};
ghost use Rattle.format_reading.specs.Reader.{ReadsAsOr, ReadsOr};
ghost use Rattle.frame_read.specs.Before.{table_of};
ghost use Rattle.class_model.specs.ReadingAttributes.{attribute, attributes, counted_attributes};
ghost use Rattle.class_model.specs.ReadingCodeAttribute.{known_of_code, nothing_seen, frames_of, left_out_of};
ghost use Rattle.class_read.specs.bodies.CodeAttributes.{code_attribute, code_contents, frames_by, code_with};
ghost use Rattle.class_read.specs.bodies.CodeAttributes.{behind_instructions};

use crate::attributes::{Line, check_end, check_once, line_number_table, read_units};
use crate::handlers::read_handlers;
use crate::lines::lined;
use crate::methods::Body;
use crate::names::is_named;
use class_model::{Code, Frame, Frames, Handler, LeftKind, Op};
use code_read::Decoded;
use format_reading::{FormatFault, of_part};
use frame_read::{FrameReader, StackMapTable, Starts, frames_at};
use jv_base::{Cursor, Items, M, Or, Units};
use known_pool::KnownPool;
use std::alloc::Global;
use std::marker::Model;

/// An attribute of a Code that is read (JVMS 4.7.4, 4.7.12).
#[derive(Clone, Copy)]
pub enum CodeAttribute {
    LineNumberTable,
    StackMapTable,
}

/// What was seen of the attributes of a Code.
#[derive(Drop)]
pub struct SeenOfCode {
    lines: Items<Line>,
    map: Option<StackMapTable>,
}

impl Model for SeenOfCode {
    ghost use Rattle.std.specs.Prelude.{option_map};
    ghost use Rattle.frame_read.specs.Before.{table_of};
    ghost use Rattle.class_model.specs.ReadingCodeAttribute.{CodeSeen};

    ghost Value = { CodeSeen };

    ghost view = { λ s. record { lines = s.lines; map = option_map table_of s.map } };
}

// ---- attributes

fn code_attribute(name: &Units) -> Option<CodeAttribute>
    ensures { result ≡ code_attribute name.now }
{
    if is_named(name.as_slice(), b"LineNumberTable") {
        Some(CodeAttribute::LineNumberTable)
    } else if is_named(name.as_slice(), b"StackMapTable") {
        Some(CodeAttribute::StackMapTable)
    } else {
        None
    }
}

// Rows, and those of one more table.
fn joined(lines: Items<Line>, more: Items<Line>) -> M<Items<Line>>
    ensures { IfOk result (λ all. all ≡ lines ++ more) }
{
    let mut lines = lines.into_vec();
    lines.append(&mut more.into_vec())?;
    Ok(Items::from_vec(lines))
}

fn contents(
    alloc: Global,
    frames: &FrameReader,
    at: u32,
    known: CodeAttribute,
    seen: SeenOfCode,
    part: &mut Cursor,
) -> Result<SeenOfCode, Or<FormatFault>>
    ensures { ReadsOr result part.new (code_contents (frames_by frames.now) at seen known part.old) }
{
    match known {
        CodeAttribute::LineNumberTable => {
            let rows = line_number_table(alloc, part)?;
            let lines = joined(seen.lines, rows)?;
            Ok(SeenOfCode { lines, ..seen })
        }
        CodeAttribute::StackMapTable => {
            check_once(at, seen.map.is_some())?;
            let map = frames_at(alloc, frames, part)?;
            Ok(SeenOfCode {
                map: Some(map),
                ..seen
            })
        }
    }
}

#[tactic(auto, unfolding(crate::proofs::Unfolding::attribute), using(crate::proofs::KnownCode::of_code))]
fn attribute(
    alloc: Global,
    frames: &FrameReader,
    seen: SeenOfCode,
    cursor: &mut Cursor,
) -> Result<SeenOfCode, Or<FormatFault>>
    ensures { ReadsOr result cursor.new (attribute frames.now.pool.now
        (known_of_code (frames_by frames.now)) seen cursor.old) }
{
    let at = cursor.place();
    let name = read_units(frames.pool, cursor)?;
    let length = cursor.u4()?;
    let Some(known) = code_attribute(name) else {
        cursor.take(length)?;
        return Ok(seen);
    };
    let mut part = cursor.part(length)?;
    match contents(alloc, frames, at, known, seen, &mut part) {
        Ok(seen) => {
            check_end(at, &part, cursor)?;
            Ok(seen)
        }
        Err(fault) => Err(of_part(at, fault)),
    }
}

#[tactic(auto)]
fn attributes(
    alloc: Global,
    count: u16,
    frames: &FrameReader,
    cursor: &mut Cursor,
) -> Result<SeenOfCode, Or<FormatFault>>
    ensures { ReadsOr result cursor.new
        (attributes count frames.now.pool.now (known_of_code (frames_by frames.now)) nothing_seen cursor.old) }
{
    let mut seen = SeenOfCode {
        lines: Items::new(alloc),
        map: None,
    };
    for _ in 0..count {
        seen = attribute(alloc, frames, seen, cursor)?;
    }
    Ok(seen)
}

// The attributes behind their count.
#[tactic(auto, unfolding(format_reading::specs::Reader::u2, format_reading::specs::Reader::bind))]
fn counted(
    alloc: Global,
    frames: &FrameReader,
    cursor: &mut Cursor,
) -> Result<SeenOfCode, Or<FormatFault>>
    ensures { ReadsOr result cursor.new
        (counted_attributes frames.now.pool.now (known_of_code (frames_by frames.now)) nothing_seen cursor.old) }
{
    let count = cursor.u2()?;
    attributes(alloc, count, frames, cursor)
}

// ---- all together

// The frames, and what is left out in them. A code without a StackMapTable has none (JVMS 4.7.4).
fn frames_of(alloc: Global, map: Option<StackMapTable>) -> (Frames, Option<LeftKind>)
    ensures { result ≡ (frames_of (option_map table_of map), left_out_of (option_map table_of map)) }
{
    match map {
        Some(map) if map.names_float => (map.frames, Some(LeftKind::FloatType)),
        Some(map) => (map.frames, None),
        None => (Frames::new(alloc), None),
    }
}

fn code_with(
    alloc: Global,
    max_stack: u16,
    max_locals: u16,
    decoded: Decoded,
    handlers: Items<Handler>,
    seen: SeenOfCode,
) -> M<Body>
    ensures { IfOk result (λ body. body ≡ code_with max_stack max_locals decoded.starts decoded.ops handlers seen) }
{
    let Decoded { ops, starts } = decoded;
    let SeenOfCode { lines, map } = seen;
    let ins = lined(alloc, lines.as_slice(), starts.as_slice(), ops)?;
    let (frames, left_out) = frames_of(alloc, map);
    let code = Code {
        max_stack,
        max_locals,
        ins,
        handlers,
        frames,
    };
    Ok((Some(code), left_out))
}

/// What stands behind the instructions of a code, with these: the exception table and the attributes. The last
/// instruction ends at `end`, and `first` is the method's initial frame.
#[tactic(auto, unfolding(crate::specs::bodies::CodeAttributes::behind_instructions, crate::proofs::Unfolding::steps))]
pub(crate) fn behind_instructions(
    alloc: Global,
    pool: &KnownPool,
    first: &Frame,
    max_stack: u16,
    max_locals: u16,
    end: u32,
    decoded: Decoded,
    cursor: &mut Cursor,
) -> Result<Body, Or<FormatFault>>
    requires { length decoded.starts < 65536 }
    ensures { ReadsOr result cursor.new
        (behind_instructions pool.now first.now.locals max_stack max_locals end decoded.starts decoded.ops cursor.old) }
{
    let count = decoded.starts.len() as u32;
    let (handlers, seen) = {
        let starts = Starts::new(alloc, decoded.starts.as_slice())?;
        let handlers = read_handlers(alloc, pool, &starts, count, end, cursor)?;
        let frames = FrameReader {
            pool,
            first,
            max_stack,
            max_locals,
            ops: &decoded.ops,
            starts: &starts,
        };
        (handlers, counted(alloc, &frames, cursor)?)
    };
    let body = code_with(alloc, max_stack, max_locals, decoded, handlers, seen)?;
    Ok(body)
}
