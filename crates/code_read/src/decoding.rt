// A code, as its instructions (JVMS 4.9.1).
ghost use Rattle.std.specs.Prelude.{◌≡◌, ◌<◌, length, Ok, IfOk};
ghost use Rattle.jv_base.specs.Longest.{IfFault};
ghost use Rattle.jv_base.specs.Outcome.{IsDue};
ghost use Rattle.code_read.specs.declared.decoding.Decoded.{Decoded};
ghost use Rattle.code_read.specs.Decoded.{HaveUnits, IsDecoded, ToldLeftOut, code_decoded, decoded, all_decoded};
ghost use Rattle.code_read.specs.ReadBack.{CanonicalIsDecoded};
ghost use Rattle.code_read.specs.Targets.{starts_of};

use crate::fault::CodeFault;
use crate::reading::placed_to_end;
use crate::targets::{all_aimed, numbers_of};
use crate::unaimed::Placed;
use class_model::Op;
use jv_base::{Cursor, Items, M, Or};
use known_pool::KnownPool;
use std::alloc::Global;

/// The instructions of a code, and the offset of each one's first byte.
#[derive(Drop)]
pub struct Decoded {
    pub ops: Items<Op>,
    /// As many as there are instructions, ascending from 0.
    pub starts: Items<u32>,
}

fn starts_of(alloc: Global, placed: &[Placed]) -> M<Items<u32>>
    ensures { IfOk result (λ starts. starts ≡ starts_of placed.now) }
{
    let mut starts = Items::with_capacity(alloc, placed.len())?;
    for next in placed {
        starts.push(next.at)?;
    }
    Ok(starts)
}

fn all_decoded(alloc: Global, placed: Items<Placed>) -> Result<Decoded, Or<CodeFault>>
    requires { length placed < 4294967295 }
    ensures { IsDue result (all_decoded placed) }
{
    let starts = starts_of(alloc, placed.as_slice())?;
    let table = numbers_of(alloc, placed.as_slice())?;
    let ops = all_aimed(alloc, table.as_slice(), placed)?;
    Ok(Decoded { ops, starts })
}

// The instructions of a code by the steps of the decoder: first each is read, then each target is found.
#[tactic(auto, unfolding(crate::specs::Decoded::decoded))]
fn decoded_in_steps(alloc: Global, bytes: &[u8], pool: &KnownPool) -> Result<Decoded, Or<CodeFault>>
    requires { length bytes.now < 4294967295 }
    ensures { IsDue result (decoded pool.now bytes.now) }
{
    let mut cursor = Cursor::new(bytes);
    let placed = placed_to_end(alloc, pool, bytes.len(), &mut cursor)?;
    all_decoded(alloc, placed)
}

/// The instructions that are the bytes of a code, the constants that they name standing in a pool
/// (JVMS 4.9.1, 6.5). A target is the number of an instruction.
///
/// They are what the reading of class files gives for a code. The first fault from left to right counts. A target
/// is asked for only where each instruction is one, so `BadTarget` comes behind all others.
pub fn decode_code(alloc: Global, bytes: &[u8], pool: &KnownPool) -> Result<Decoded, Or<CodeFault>>
    requires { length bytes.now < 4294967295 }
    ensures found { HaveUnits pool.now → IfOk result (λ decoded. IsDecoded pool.now bytes.now decoded) }
    ensures only { (decoded : Decoded) → IsDecoded pool.now bytes.now decoded → IsDue result (Ok decoded) }
    ensures left_out { HaveUnits pool.now → IfFault result (ToldLeftOut pool.now bytes.now) }
    ensures exact { IsDue result (code_decoded pool.now bytes.now) }
{
    decoded_in_steps(alloc, bytes, pool)
}

/// The canonical bytes of the instructions of a well-formed code, which is not too long and has no
/// branch that is too far, are decoded as those instructions.
pub fn canonical_is_decoded()
    ensures { CanonicalIsDecoded }
{}
