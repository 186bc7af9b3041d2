// How many bytes instructions take, and so where each begins (JVMS 4.9.1).
ghost use Rattle.class_model.specs.declared.constant.PoolConstant.{PoolConstant};
ghost use Rattle.class_model.specs.declared.op.Kind.{Kind};
ghost use Rattle.std.specs.Prelude.{◌≡◌, ℕ, List, ◌+◌, ◌^◌, ◌<◌, ◌≤◌, ◌∷◌, ◌++◌, [], ℤ, pos, ◌≤ℤ◌, IsTrue, length};
ghost use Rattle.std.specs.Prelude.{IfOk, OnOk};
ghost use Rattle.std.specs.Int.{w16};
ghost use Rattle.std.specs.Int.RustNames.{FitsSigned};
ghost use Rattle.jv_base.specs.Outcome.{IsDue};
ghost use Rattle.class_model.specs.InstructionStructure.{info_bytes, pad_length};
ghost use Rattle.class_model.specs.CanonicalCode as canonical;
ghost use Rattle.code_write.specs.Coded.{load_info, placed};

use class_model::{Ins, Op, WriteLimit};
use constant_table::ConstantTable;
use jv_base::{Items, M, Or, OutOfMemory};
use std::alloc::Global;

/// The limit of a code's length (JVMS 4.7.3).
const MOST_BYTES: u64 = 65_535;

/// How many bytes pad a switch at an offset, so that its default begins at a multiple of four (JVMS 6.5).
pub fn padding(at: u64) -> u64
    ensures value { result ≡ pad_length at }
    ensures most { result ≤ 3 }
{
    3 - at % 4
}

// ---- pushes

/// Whether the number fits the operand of sipush.
pub fn is_short(number: i32) -> bool
    ensures value { result ≡ canonical.is_short number }
    ensures fits { IsTrue result → FitsSigned w16 number }
{
    -32_768 <= number && number <= 32_767
}

/// Whether lconst_<l> pushes the number.
pub fn is_lconst(number: i64) -> bool
    ensures value { result ≡ canonical.is_lconst number }
    ensures fits { IsTrue result → (pos 0 ≤ℤ number) × (number ≤ℤ pos 1) }
{
    0 <= number && number <= 1
}

// ldc, or ldc_w.
fn load_size(index: usize) -> u64
    ensures { result ≡ length (info_bytes (load_info index)) }
{
    if index <= 255 { 2 } else { 3 }
}

fn push_int_size(table: &ConstantTable, number: i32) -> u64
    ensures { result ≡ length (info_bytes (canonical.push_int table.now number)) }
{
    if -1 <= number && number <= 5 {
        1
    } else if -128 <= number && number <= 127 {
        2
    } else if is_short(number) {
        3
    } else {
        load_size(table.int_index(number))
    }
}

fn push_long_size(table: &ConstantTable, number: i64) -> u64
    ensures { result ≡ length (info_bytes (canonical.push_long table.now number)) }
{
    if is_lconst(number) { 1 } else { 3 }
}

// ---- slots

fn slot_size(slot: u16) -> u64
    ensures { (opcode first : ℕ) (kind : Kind) → result
        ≡ length (info_bytes (canonical.slot_info opcode first kind slot)) }
{
    if slot < 4 {
        1
    } else if slot < 256 {
        2
    } else {
        4
    }
}

fn increment_size(slot: u16, delta: i16) -> u64
    ensures { result ≡ length (info_bytes (canonical.inc_info slot delta)) }
{
    if slot < 256 && -128 <= delta && delta <= 127 {
        3
    } else {
        6
    }
}

// ---- instructions

/// How many bytes an instruction at an offset takes.
pub fn op_size(table: &ConstantTable, at: u64, op: &Op) -> u64
    ensures { result ≡ canonical.size_of table.now at op.now }
{
    match op {
        Op::PushInt(number) => push_int_size(table, *number),
        Op::PushLong(number) => push_long_size(table, *number),
        Op::PushText(text) => load_size(table.string_index(text)),
        Op::Load(_, slot) | Op::Store(_, slot) => slot_size(*slot),
        Op::Inc(slot, delta) => increment_size(*slot, *delta),
        Op::TableSwitch { cases, .. } => 13 + padding(at) + 4 * cases.as_slice().len() as u64,
        Op::LookupSwitch { cases, .. } => 9 + padding(at) + 8 * cases.as_slice().len() as u64,
        Op::IfZero(..)
        | Op::IfCmp(..)
        | Op::IfRef { .. }
        | Op::IfNull { .. }
        | Op::Goto(_)
        | Op::GetStatic(_)
        | Op::PutStatic(_)
        | Op::GetField(_)
        | Op::PutField(_)
        | Op::InvokeVirtual(_)
        | Op::InvokeSpecial(_)
        | Op::InvokeStatic(_)
        | Op::New(_)
        | Op::ANewArray(_)
        | Op::CheckCast(_)
        | Op::InstanceOf(_) => 3,
        Op::InvokeInterface(_) => 5,
        Op::NewArray(_) => 2,
        Op::MultiNewArray(..) => 4,
        Op::Nop
        | Op::PushNull
        | Op::ALoad(_)
        | Op::AStore(_)
        | Op::Pop
        | Op::Pop2
        | Op::Dup
        | Op::DupX1
        | Op::DupX2
        | Op::Dup2
        | Op::Dup2X1
        | Op::Dup2X2
        | Op::Swap
        | Op::Arith(..)
        | Op::Neg(_)
        | Op::Shift(..)
        | Op::Logic(..)
        | Op::Conv(_)
        | Op::LCmp
        | Op::Return(_)
        | Op::ArrayLength
        | Op::Throw => 1,
    }
}

// The offset behind an instruction. No memory holds instructions of 2^64 bytes.
fn behind(at: u64, size: u64) -> M<u64>
    ensures { IfOk result (λ next. next ≡ at + size) }
{
    at.checked_add(size).ok_or(OutOfMemory)
}

// Puts a place behind the others; none is needed of a code that is too long.
fn note(places: &mut Items<u32>, at: u64) -> M<()>
    ensures { OnOk result (at < 2 ^ 16 → places.new ≡ places.old ++ at ∷ []) }
{
    if at <= MOST_BYTES {
        places.push(at as u32)?;
    }
    Ok(())
}

/// Where each instruction begins, and where the last one ends.
#[tactic(auto, unfolding(class_model::specs::CanonicalCode::places))]
pub fn places(
    alloc: Global,
    table: &ConstantTable,
    ins: &[Ins],
) -> Result<Items<u32>, Or<WriteLimit>>
    ensures { IsDue result (placed table.now ins.now) }
{
    let mut places = Items::new(alloc);
    let mut at = 0;
    for instruction in ins {
        note(&mut places, at)?;
        at = behind(at, op_size(table, at, &instruction.op))?;
    }
    note(&mut places, at)?;
    if at > MOST_BYTES {
        return Err(Or::Fault(WriteLimit::CodeTooLong(at)));
    }
    Ok(places)
}
