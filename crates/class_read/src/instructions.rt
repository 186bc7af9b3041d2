// The instructions of a Code (JVMS 4.7.3, 4.9.1).
ghost use Rattle.std.specs.Prelude.{◌≡◌, ◌+◌, ◌≤◌, ◌<◌, ◌^◌, length, IfOk};
ghost use Rattle.jv_base.specs.Outcome.{IsDue};
ghost use Rattle.format_reading.specs.Reader.{ReadsOr, u4, item};
ghost use Rattle.class_model.specs.ReadingCode.{left_out_kind};
ghost use Rattle.class_model.specs.ReadingCodeAttribute.{code_length};
ghost use Rattle.code_read.specs.Decoded.{code_decoded};
ghost use Rattle.class_laws.specs.ReadingLaws.{AreBytes};
ghost use Rattle.class_read.specs.bodies.Instructions.{read_instructions, in_file, or_left_out, offset_told, count_of};

use crate::faults::fault;
use class_model::LeftKind;
use code_read::{CodeFault, Decoded, decode_code};
use format_reading::{FormatFault, FormatKind};
use jv_base::{Cursor, Or};
use known_pool::KnownPool;
use std::alloc::Global;

/// The instructions of a code, or what is left out in it.
#[derive(Drop)]
pub enum Instructions {
    /// Each instruction is one that is kept.
    All(Decoded),
    /// The kind of the first that is left out.
    LeftOut(LeftKind),
}

fn left_out_kind(opcode: u8) -> LeftKind
    ensures { result ≡ left_out_kind opcode }
{
    match opcode {
        0x12..=0x14 | 0xBA => LeftKind::Constant,
        _ => LeftKind::Opcode,
    }
}

// A fault of a code that begins at an offset, as one of the class file; what is left out is none.
fn or_left_out(from: u32, wrong: CodeFault) -> Result<Instructions, FormatFault>
    requires { from + offset_told wrong < 2 ^ 32 }
    ensures { result ≡ or_left_out from wrong }
{
    match wrong {
        CodeFault::BadOpcode(at) => Err(fault(from + at, FormatKind::BadOpcode)),
        CodeFault::BadOperand(at) => Err(fault(from + at, FormatKind::BadOperand)),
        CodeFault::Cut(at) => Err(fault(from + at, FormatKind::BadCode)),
        CodeFault::LeftOutOpcode(_, opcode) => Ok(Instructions::LeftOut(left_out_kind(opcode))),
        CodeFault::BadTarget(at) => Err(fault(from + at, FormatKind::BadTarget)),
    }
}

// The instructions of a code that begins at an offset.
fn decoded(
    alloc: Global,
    pool: &KnownPool,
    from: u32,
    code: &[u8],
) -> Result<Instructions, Or<FormatFault>>
    requires length { length code.now < 4294967295 }
    requires end { from + length code.now < 2 ^ 32 }
    ensures exact { IsDue result (in_file from (code_decoded pool.now code.now)) }
    ensures bytes { AreBytes code.now }
    ensures count { IfOk result (λ read. count_of read ≤ length code.now) }
{
    match decode_code(alloc, code, pool) {
        Ok(decoded) => Ok(Instructions::All(decoded)),
        Err(Or::Fault(wrong)) => Ok(or_left_out(from, wrong)?),
        Err(Or::OutOfMemory) => Err(Or::OutOfMemory),
    }
}

/// The next `length` bytes as the instructions of the Code at an offset. A target is asked for only where each
/// instruction is one that is kept.
pub fn read_instructions(
    alloc: Global,
    pool: &KnownPool,
    attribute: u32,
    length: u32,
    cursor: &mut Cursor,
) -> Result<Instructions, Or<FormatFault>>
    requires { 0 < length }
    ensures read { ReadsOr result cursor.new (read_instructions pool.now attribute length cursor.old) }
    ensures count { IfOk result (λ read. count_of read ≤ length) }
{
    let code = cursor.take(length)?;
    let from = cursor.place() - length;
    decoded(alloc, pool, from, code)
}
