// The targets of instructions, as their numbers (JVMS 4.9.1).
ghost use Rattle.std.specs.Prelude.{◌≡◌, ◌<◌, ◌≤◌, ℕ, ℤ, OnOk, IfOk, length};
ghost use Rattle.std.specs.Int.{w32, cast_signed};
ghost use Rattle.class_model.specs.declared.op.Op.TheVariants as op;
ghost use Rattle.jv_base.specs.Outcome.{IsDue};
ghost use Rattle.class_model.specs.InstructionMeaning.{aim_at, aimed, branch};
ghost use Rattle.class_model.specs.Instructions.{branch_target};
ghost use Rattle.class_model.specs.Opcodes.{branch_op};
ghost use Rattle.code_read.specs.Targets.{starts_of, collected, case_aimed, table_aimed};
ghost use Rattle.code_read.specs.bodies.Targets.{found, noted, aim_in};
ghost use Rattle.code_read.specs.Targets.{lookup_aimed, op_aimed, placed_aimed};

use crate::fault::CodeFault;
use crate::opcodes::branch_op;
use crate::unaimed::{Match, Placed, Unaimed};
use class_model::{Case, Op};
use format_reading::FormatKind;
use jv_base::{Items, M, Or, Shared};
use std::alloc::Global;

// ---- the number of the instruction at each offset

fn grow(table: &mut Vec<Option<u32>>, count: usize) -> M<()>
    ensures same { (offset : ℕ) → found table.new.items offset ≡ found table.old.items offset }
    ensures long { OnOk result (count ≤ length table.new.items) }
{
    for _ in table.len()..count {
        table.push(None)?;
    }
    Ok(())
}

// The first instruction that begins at an offset counts.
fn note(table: &mut Vec<Option<u32>>, start: u32, number: u32) -> M<()>
    ensures { OnOk result ((offset : ℕ) → found table.new.items offset
        ≡ noted (found table.old.items offset) start number offset) }
{
    let start = start as usize;
    grow(table, start + 1)?;
    if table[start].is_none() {
        table[start] = Some(number);
    }
    Ok(())
}

/// For each offset of the code the number of the instruction that begins there, if one does.
pub fn numbers_of(alloc: Global, placed: &[Placed]) -> M<Vec<Option<u32>>>
    requires { length placed.now < 4294967295 }
    ensures { IfOk result (λ table. (target : ℤ) → aim_in table.items target ≡ aim_at (starts_of placed.now) target) }
{
    let mut table = Vec::new(alloc);
    for (number, next) in placed.iter().enumerate() {
        note(&mut table, next.at, number as u32)?;
    }
    Ok(table)
}

fn aim(table: &[Option<u32>], target: i64) -> Result<u32, FormatKind>
    ensures { result ≡ aim_in table.now target }
{
    if target < 0 {
        return Err(FormatKind::BadTarget);
    }
    match table.get(target as usize) {
        Some(Some(number)) => Ok(*number),
        _ => Err(FormatKind::BadTarget),
    }
}

// The target that is a signed number of bytes away from an offset.
fn aimed(table: &[Option<u32>], at: u32, offset: i32) -> Result<u32, FormatKind>
    ensures { result ≡ aim_in table.now (branch_target at offset) }
{
    aim(table, i64::from(at) + i64::from(offset))
}

// The same, where the number of bytes stands as it is written, in two's complement.
fn offset_aimed(table: &[Option<u32>], at: u32, offset: u32) -> Result<u32, FormatKind>
    ensures { result ≡ aimed (aim_in table.now) at offset }
{
    aimed(table, at, offset.cast_signed())
}

// ---- instructions

fn targets(
    alloc: Global,
    table: &[Option<u32>],
    at: u32,
    offsets: &[u32],
) -> Result<Items<u32>, Or<FormatKind>>
    ensures { IsDue result (collected (aimed (aim_in table.now) at) offsets.now) }
{
    let mut targets = Items::with_capacity(alloc, offsets.len())?;
    for offset in offsets {
        match offset_aimed(table, at, *offset) {
            Ok(to) => targets.push(to)?,
            Err(kind) => return Err(Or::Fault(kind)),
        }
    }
    Ok(targets)
}

fn case_aimed(table: &[Option<u32>], at: u32, next: Match) -> Result<Case, FormatKind>
    ensures { result ≡ case_aimed (aim_in table.now) at next }
{
    Ok(Case {
        key: next.key.cast_signed(),
        to: offset_aimed(table, at, next.offset)?,
    })
}

fn cases(
    alloc: Global,
    table: &[Option<u32>],
    at: u32,
    matches: &[Match],
) -> Result<Items<Case>, Or<FormatKind>>
    ensures { IsDue result (collected (case_aimed (aim_in table.now) at) matches.now) }
{
    let mut cases = Items::with_capacity(alloc, matches.len())?;
    for next in matches {
        match case_aimed(table, at, *next) {
            Ok(case) => cases.push(case)?,
            Err(kind) => return Err(Or::Fault(kind)),
        }
    }
    Ok(cases)
}

fn branch(table: &[Option<u32>], at: u32, opcode: u8, offset: i32) -> Result<Op, FormatKind>
    ensures { result ≡ branch (aim_in table.now) at (branch_op opcode) offset }
{
    match branch_op(opcode, aimed(table, at, offset)?) {
        Some(op) => Ok(op),
        None => Err(FormatKind::BadOperand),
    }
}

fn shared_targets(
    alloc: Global,
    table: &[Option<u32>],
    at: u32,
    offsets: &[u32],
) -> Result<Shared<Items<u32>>, Or<FormatKind>>
    ensures { IsDue result (collected (aimed (aim_in table.now) at) offsets.now) }
{
    let targets = targets(alloc, table, at, offsets)?;
    Ok(Shared::new(alloc, targets)?)
}

fn shared_cases(
    alloc: Global,
    table: &[Option<u32>],
    at: u32,
    matches: &[Match],
) -> Result<Shared<Items<Case>>, Or<FormatKind>>
    ensures { IsDue result (collected (case_aimed (aim_in table.now) at) matches.now) }
{
    let cases = cases(alloc, table, at, matches)?;
    Ok(Shared::new(alloc, cases)?)
}

fn table_op(low: u32, other: u32, cases: Shared<Items<u32>>) -> Op
    ensures { result ≡ op.TableSwitch (cast_signed w32 low) other cases }
{
    Op::TableSwitch {
        low: low.cast_signed(),
        other,
        cases,
    }
}

fn table_aimed(
    alloc: Global,
    table: &[Option<u32>],
    at: u32,
    default: u32,
    low: u32,
    offsets: &[u32],
) -> Result<Op, Or<FormatKind>>
    ensures { IsDue result (table_aimed (aim_in table.now) at default low offsets.now) }
{
    let other = match offset_aimed(table, at, default) {
        Ok(to) => to,
        Err(kind) => return Err(Or::Fault(kind)),
    };
    let cases = shared_targets(alloc, table, at, offsets)?;
    Ok(table_op(low, other, cases))
}

fn lookup_aimed(
    alloc: Global,
    table: &[Option<u32>],
    at: u32,
    default: u32,
    matches: &[Match],
) -> Result<Op, Or<FormatKind>>
    ensures { IsDue result (lookup_aimed (aim_in table.now) at default matches.now) }
{
    let other = match offset_aimed(table, at, default) {
        Ok(to) => to,
        Err(kind) => return Err(Or::Fault(kind)),
    };
    let cases = shared_cases(alloc, table, at, matches)?;
    Ok(Op::LookupSwitch { other, cases })
}

fn op_aimed(
    alloc: Global,
    table: &[Option<u32>],
    at: u32,
    op: Unaimed,
) -> Result<Op, Or<FormatKind>>
    ensures { IsDue result (op_aimed (aim_in table.now) at op) }
{
    match op {
        Unaimed::Whole(op) => Ok(op),
        Unaimed::Branch { opcode, offset } => match branch(table, at, opcode, offset) {
            Ok(op) => Ok(op),
            Err(kind) => Err(Or::Fault(kind)),
        },
        Unaimed::TableSwitch {
            default,
            low,
            offsets,
        } => table_aimed(alloc, table, at, default, low, offsets.as_slice()),
        Unaimed::LookupSwitch { default, matches } => {
            lookup_aimed(alloc, table, at, default, matches.as_slice())
        }
    }
}

fn placed_aimed(alloc: Global, table: &[Option<u32>], placed: Placed) -> Result<Op, Or<CodeFault>>
    ensures { IsDue result (placed_aimed (aim_in table.now) placed) }
{
    let Placed { at, op } = placed;
    match op_aimed(alloc, table, at, op) {
        Ok(op) => Ok(op),
        Err(Or::Fault(_)) => Err(Or::Fault(CodeFault::BadTarget(at))),
        Err(Or::OutOfMemory) => Err(Or::OutOfMemory),
    }
}

/// The instructions with the numbers of their targets.
pub fn all_aimed(
    alloc: Global,
    table: &[Option<u32>],
    placed: Items<Placed>,
) -> Result<Items<Op>, Or<CodeFault>>
    ensures { IsDue result (collected (placed_aimed (aim_in table.now)) placed) }
{
    let mut ops = Items::with_capacity(alloc, placed.len())?;
    for next in placed.into_vec() {
        let op = placed_aimed(alloc, table, next)?;
        ops.push(op)?;
    }
    Ok(ops)
}
