// A code in its canonical spelling (JVMS 4.7.3, 4.9.1).
ghost use Rattle.std.specs.Prelude.{◌≡◌, ℕ, ◌+◌, ◌^◌, ◌<◌, ◌<◌, ◌≤◌, All, Ok, length, IfOk};
ghost use Rattle.jv_base.specs.Outcome.{IsDue};
ghost use Rattle.class_model.specs.CanonicalCode as canonical;
ghost use Rattle.class_model.specs.WellFormed.{IsGoodOp, HasFewWords};
ghost use Rattle.class_model.specs.WriteLimits.{branch_to, branch_fits, branches_fit};
ghost use Rattle.code_write.specs.Coded.{HasIndices, coded};
ghost use Rattle.code_write.specs.Constants.{constants_in};

use crate::constants::constants_in;
use crate::sizes::places;
use crate::writing::{distance, put_op};
use class_model::{Ins, Op, Pool, WriteLimit};
use constant_table::ConstantTable;
use jv_base::{Bytes, Items, M, Or};
use std::alloc::Global;

/// The bytes of a code, and the offset of each instruction's first byte.
#[derive(Drop)]
pub struct Coded {
    pub bytes: Bytes,
    /// As many as there are instructions, ascending from 0.
    pub starts: Items<u32>,
}

// The first branch that is too far, from the instruction of a number on.
fn check_branch(places: &[u32], number: u32, op: &Op) -> Result<(), WriteLimit>
    requires number { number < length places.now }
    requires good { IsGoodOp (length places.now) op.now }
    ensures { result ≡ branch_fits places.now number (branch_to op.now) }
{
    match op {
        Op::IfZero(_, to)
        | Op::IfCmp(_, to)
        | Op::IfRef { to, .. }
        | Op::IfNull { to, .. }
        | Op::Goto(to) => check_target(places, number, *to),
        _ => Ok(()),
    }
}

fn check_target(places: &[u32], number: u32, to: u32) -> Result<(), WriteLimit>
    requires number { number < length places.now }
    requires target { to < length places.now }
    ensures { result ≡ branch_fits places.now number (Some to) }
{
    let distance = distance(places, places[number as usize], to);
    if -32_768 <= distance && distance <= 32_767 {
        Ok(())
    } else {
        Err(WriteLimit::BranchTooFar(number, distance))
    }
}

fn check_branches(places: &[u32], ins: &[Ins]) -> Result<(), WriteLimit>
    requires count { length ins.now < 4294967295 }
    requires places { length ins.now ≤ length places.now }
    requires good { All (λ (i : Ins). IsGoodOp (length places.now) i.op) ins.now }
    ensures { result ≡ branches_fit places.now 0 ins.now }
{
    for (number, instruction) in ins.iter().enumerate() {
        check_branch(places, number as u32, &instruction.op)?;
    }
    Ok(())
}

// The bytes of the instructions, which begin at these places.
#[tactic(auto, unfolding(class_model::specs::CanonicalCode::places, class_model::specs::CanonicalCode::code_bytes))]
fn code_bytes(alloc: Global, table: &ConstantTable, places: &[u32], ins: &[Ins]) -> M<Bytes>
    requires good { All (λ (i : Ins). IsGoodOp (length places.now) i.op) ins.now }
    requires words { All (λ (i : Ins). HasFewWords i.op) ins.now }
    requires indices { All (λ (i : Ins). HasIndices table.now i.op) ins.now }
    requires places { places.now ≡ canonical.places table.now ins.now }
    requires length { length (canonical.code_bytes table.now places.now ins.now) < 2 ^ 16 }
    requires near { branches_fit places.now 0 ins.now ≡ Ok tt }
    ensures { IfOk result (λ bytes. bytes ≡ canonical.code_bytes table.now places.now ins.now) }
{
    let mut bytes = Vec::new(alloc);
    for instruction in ins {
        let at = bytes.len() as u32;
        put_op(alloc, table, places, at, &instruction.op, &mut bytes)?;
    }
    Ok(Items::from_vec(bytes))
}

/// The canonical bytes of the instructions of a code: each in its shortest spelling, ldc where the index is
/// at most 255, goto in place of goto_w (JVMS 6.5). The constants that they name are those of the table.
///
/// The length of the code counts first, and then the first branch that is too far.
#[tactic(auto, unfolding(crate::specs::Coded::coded))]
pub fn encode_with(
    alloc: Global,
    ins: &Items<Ins>,
    table: &ConstantTable,
) -> Result<Coded, Or<WriteLimit>>
    requires count { length ins.now < 4294967295 }
    requires good { All (λ (i : Ins). IsGoodOp (length ins.now) i.op) ins.now }
    requires words { All (λ (i : Ins). HasFewWords i.op) ins.now }
    requires indices { All (λ (i : Ins). HasIndices table.now i.op) ins.now }
    ensures exact { IsDue result (coded table.now ins.now) }
{
    let places = places(alloc, table, ins.as_slice())?;
    if let Err(limit) = check_branches(places.as_slice(), ins.as_slice()) {
        return Err(Or::Fault(limit));
    }
    let bytes = code_bytes(alloc, table, places.as_slice(), ins.as_slice())?;
    let mut starts = places.into_vec();
    starts.truncate(ins.len());
    Ok(Coded {
        bytes,
        starts: Items::from_vec(starts),
    })
}

/// The canonical bytes of the instructions of a code, as `encode_with` gives them. The constants that they
/// name are those of the pool.
pub fn encode_code(alloc: Global, ins: &Items<Ins>, pool: &Pool) -> Result<Coded, Or<WriteLimit>>
    requires count { length ins.now < 4294967295 }
    requires good { All (λ (i : Ins). IsGoodOp (length ins.now) i.op) ins.now }
    requires words { All (λ (i : Ins). HasFewWords i.op) ins.now }
    requires indices { All (λ (i : Ins). HasIndices (constants_in pool.now.entries) i.op) ins.now }
    ensures exact { IsDue result (coded (constants_in pool.now.entries) ins.now) }
{
    let table = constants_in(alloc, pool)?;
    encode_with(alloc, ins, &table)
}
