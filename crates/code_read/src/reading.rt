// The instructions of a code, read from left to right (JVMS 4.9.1).
ghost use Rattle.std.specs.Prelude.{◌≡◌, ◌≤◌, length, IfOk};
ghost use Rattle.jv_base.specs.Outcome.{IsDue};
ghost use Rattle.format_reading.specs.Reader.{ReadsOr};
ghost use Rattle.code_read.specs.Decoding.{placed_at, placed_to_end};

use crate::fault::{CodeFault, code_fault};
use crate::instruction::begun;
use crate::unaimed::Placed;
use jv_base::{Cursor, Items, Or};
use known_pool::KnownPool;
use std::alloc::Global;

fn placed_at(alloc: Global, pool: &KnownPool, cursor: &mut Cursor) -> Result<Placed, Or<CodeFault>>
    ensures { ReadsOr result cursor.new (placed_at pool.now cursor.old) }
{
    let at = cursor.place();
    let Ok(opcode) = cursor.u1() else {
        return Err(Or::Fault(CodeFault::Cut(at)));
    };
    match begun(alloc, pool, at, opcode, cursor) {
        Ok(op) => Ok(Placed { at, op }),
        Err(Or::Fault(wrong)) => Err(Or::Fault(code_fault(at, wrong))),
        Err(Or::OutOfMemory) => Err(Or::OutOfMemory),
    }
}

/// The instructions up to the end of the bytes, `count` at most.
pub fn placed_to_end(
    alloc: Global,
    pool: &KnownPool,
    count: usize,
    cursor: &mut Cursor,
) -> Result<Items<Placed>, Or<CodeFault>>
    ensures placed { IsDue result (placed_to_end count pool.now cursor.old) }
    ensures count { IfOk result (λ placed. length placed ≤ count) }
{
    let mut placed = Items::new(alloc);
    for _ in 0..count {
        if cursor.is_at_end() {
            return Ok(placed);
        }
        let next = placed_at(alloc, pool, cursor)?;
        placed.push(next)?;
    }
    Ok(placed)
}
