// The attribute Code (JVMS 4.7.3).
ghost use Rattle.std.specs.Prelude.{◌≡◌, ◌<◌, ◌≤◌, ◌^◌, IfOk};
ghost use Rattle.format_reading.specs.Reader.{Reads, ReadsOr, u4, item};
ghost use Rattle.class_model.specs.ReadingCodeAttribute.{code_length};
ghost use Rattle.class_read.specs.bodies.Codes.{behind_read, code_in_parts};
ghost use Rattle.class_read.specs.bodies.Instructions.{count_of};
ghost use Rattle.class_read.specs.bodies.Methods.{code_of_method};

use crate::code_attributes::behind_instructions;
use crate::faults::fault;
use crate::initial_frame::initial_frame;
use crate::instructions::{Instructions, read_instructions};
use crate::methods::{Body, MethodHead};
use crate::passed_over::pass_over;
use class_model::Frame;
use format_reading::{FormatFault, FormatKind};
use jv_base::{Cursor, Name, Or};
use known_pool::KnownPool;
use std::alloc::Global;

/// The contents of the Code at an offset, of a method in a class of this name. There is none where an instruction
/// is left out.
pub fn read_code(
    alloc: Global,
    pool: &KnownPool,
    class: &Name,
    head: &MethodHead,
    attribute: u32,
    cursor: &mut Cursor,
) -> Result<Body, Or<FormatFault>>
    ensures { ReadsOr result cursor.new (code_of_method pool.now class.now head.now attribute cursor.old) }
{
    let first = initial_frame(alloc, class, head)?;
    code_in_parts(alloc, pool, &first, attribute, cursor)
}

#[tactic(auto, unfolding(crate::specs::bodies::Codes::code_in_parts, crate::proofs::Unfolding::lists))]
fn code_in_parts(
    alloc: Global,
    pool: &KnownPool,
    first: &Frame,
    attribute: u32,
    cursor: &mut Cursor,
) -> Result<Body, Or<FormatFault>>
    ensures { ReadsOr result cursor.new (code_in_parts pool.now first.now.locals attribute cursor.old) }
{
    let max_stack = cursor.u2()?;
    let max_locals = cursor.u2()?;
    let length = code_length(cursor)?;
    let read = read_instructions(alloc, pool, attribute, length, cursor)?;
    behind_read(
        alloc, pool, first, max_stack, max_locals, length, read, cursor,
    )
}

// How many bytes the instructions have.
fn code_length(cursor: &mut Cursor) -> Result<u32, FormatFault>
    ensures read { Reads result cursor.new (item u4 code_length cursor.old) }
    ensures some { IfOk result (λ n. 0 < n) }
    ensures few { IfOk result (λ n. n < 2 ^ 16) }
{
    let at = cursor.place();
    let length = cursor.u4()?;
    if length == 0 || length >= 65_536 {
        return Err(fault(at, FormatKind::BadCode));
    }
    Ok(length)
}

// What stands behind the instructions.
fn behind_read(
    alloc: Global,
    pool: &KnownPool,
    first: &Frame,
    max_stack: u16,
    max_locals: u16,
    end: u32,
    read: Instructions,
    cursor: &mut Cursor,
) -> Result<Body, Or<FormatFault>>
    requires { count_of read < 2 ^ 16 }
    ensures { ReadsOr result cursor.new
        (behind_read pool.now first.now.locals max_stack max_locals end read cursor.old) }
{
    match read {
        Instructions::All(decoded) => behind_instructions(
            alloc, pool, first, max_stack, max_locals, end, decoded, cursor,
        ),
        Instructions::LeftOut(kind) => {
            pass_over(cursor)?;
            Ok((None, Some(kind)))
        }
    }
}
