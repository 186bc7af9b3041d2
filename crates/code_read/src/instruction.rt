// One instruction, read from left to right (JVMS 6.5).
ghost use Rattle.std.specs.Prelude.{◌≡◌, ◌≤◌, ◌+◌, ◌≤ℤ◌, ℕ, List, IfOk, Err, None, option_map, option_and_then};
ghost use Rattle.std.specs.Prelude.{option_copied, slice_get};
ghost use Rattle.jv_base.specs.declared.outcome.Or.TheVariants.{Fault};
ghost use Rattle.class_model.specs.declared.pool.Entry.{Entry};
ghost use Rattle.code_read.specs.declared.fault.Wrong.TheVariants as wrong;
ghost use Rattle.std.specs.Int.{w32, cast_signed};
ghost use Rattle.format_reading.specs.Reader.{ReadsOr, onwards, lead, item, u1, many, u4};
ghost use Rattle.class_model.specs.InstructionStructure.{Bipush, Sipush, Local, WideLocal, Branch, pad_length};
ghost use Rattle.class_model.specs.Instructions.{is_left_out_load};
ghost use Rattle.class_model.specs.InstructionMeaning.{loaded, loaded_wide, member_op, class_op, method_named, of_type};
ghost use Rattle.class_model.specs.InstructionMeaning.{can_be_operand};
ghost use Rattle.class_model.specs.ReadingCode.{is_left_out_at, ldc, ldc_wide, one_byte, two_bytes, iinc, wide_iinc};
ghost use Rattle.class_model.specs.ReadingCode.{widened, goto_wide, member, class_operand, is_count, invoke_interface};
ghost use Rattle.class_model.specs.ReadingCode.{array_type_read, multi_new_array, table_length, table_switch, ascends};
ghost use Rattle.class_model.specs.ReadingCode.{lookup_switch, begun};
ghost use Rattle.code_read.specs.bodies.Fault.{with_wrong};
ghost use Rattle.code_read.specs.Meaning.{meaning_of_read};
ghost use Rattle.code_read.specs.bodies.Meaning.{whole_op, match_read, matches_from, matches_behind};
ghost use Rattle.code_read.specs.bodies.Meaning.{begun_by_table};

use crate::fault::Wrong;
use crate::opcodes::{
    array_type_of, field_op, is_branch, is_left_out_array_type, is_left_out_local,
    is_left_out_opcode, is_local, is_on_field, is_on_method, is_on_type, local_op, method_op,
    plain_op, takes_interface_method, type_op,
};
use crate::unaimed::{Match, Unaimed};
use class_model::opcode::{
    ANEWARRAY, BIPUSH, GOTO, GOTO_W, IINC, INVOKEDYNAMIC, INVOKEINTERFACE, LDC, LDC_W, LDC2_W,
    LOOKUPSWITCH, MULTIANEWARRAY, NEW, NEWARRAY, SIPUSH, TABLESWITCH, WIDE,
};
use class_model::{Entry, Op};
use jv_base::{Cursor, FieldType, Items, M, Or, Shared};
use known_pool::{KnownMember, KnownPool};
use std::alloc::Global;

// ---- what an operand means

// Whether the entry is a class, a float or a double, which no instruction loads here.
fn is_left_out_load(entry: &Entry) -> bool
    ensures { result ≡ is_left_out_load entry.now }
{
    match entry {
        Entry::Class(_) => true,
        Entry::LeftOut(tag) => *tag == 4 || *tag == 6,
        _ => false,
    }
}

fn is_left_out_at(pool: &KnownPool, index: u16) -> bool
    ensures { result ≡ is_left_out_at (slice_get pool.now index) }
{
    match pool.entry_at(index) {
        Some(entry) => is_left_out_load(entry),
        None => false,
    }
}

// What ldc and ldc_w load: an int or a string.
fn loaded(pool: &KnownPool, index: u16) -> M<Option<Op>>
    ensures { IfOk result (λ op. op ≡ loaded pool.now index) }
{
    if let Some(Entry::Integer(value)) = pool.entry_at(index) {
        return Ok(Some(Op::PushInt(*value)));
    }
    match pool.string_units_at(index) {
        Some(units) => Ok(Some(Op::PushText(units.clone()?))),
        None => Ok(None),
    }
}

// What ldc_w loads, and ldc2_w, which loads a long.
fn loaded_wide(opcode: u8, pool: &KnownPool, index: u16) -> M<Option<Op>>
    ensures { IfOk result (λ op. op ≡ loaded_wide opcode pool.now index) }
{
    if opcode == LDC_W {
        return loaded(pool, index);
    }
    match pool.entry_at(index) {
        Some(Entry::Long(value)) => Ok(Some(Op::PushLong(*value))),
        _ => Ok(None),
    }
}

// The method that an instruction of this opcode names.
fn method_named(opcode: u8, pool: &KnownPool, index: u16) -> Option<&KnownMember>
    ensures { option_copied result ≡ method_named opcode pool.now index }
{
    match pool.methodref_at(index) {
        Some(method) => Some(method),
        None if takes_interface_method(opcode) => pool.interface_methodref_at(index),
        None => None,
    }
}

// The instruction on a field or a method.
fn member_op(opcode: u8, pool: &KnownPool, index: u16) -> M<Option<Op>>
    ensures { IfOk result (λ op. op ≡ member_op opcode pool.now index) }
{
    if is_on_field(opcode) {
        return match pool.fieldref_at(index) {
            Some(field) => Ok(field_op(opcode, field.reference().clone()?)),
            None => Ok(None),
        };
    }
    match method_named(opcode, pool, index) {
        Some(method) => Ok(method_op(opcode, method.reference().clone()?)),
        None => Ok(None),
    }
}

// Whether the type can be the operand: the elements of a new array have at most 254 dimensions.
fn can_be_operand(opcode: u8, ty: &FieldType) -> bool
    ensures { result ≡ can_be_operand opcode ty.now }
{
    opcode != ANEWARRAY || ty.dims <= 254
}

fn of_type(opcode: u8, ty: Shared<FieldType>) -> Option<Op>
    ensures { result ≡ of_type opcode ty }
{
    if can_be_operand(opcode, &ty) {
        type_op(opcode, ty)
    } else {
        None
    }
}

// new, anewarray, checkcast and instanceof.
fn class_op(alloc: Global, opcode: u8, pool: &KnownPool, index: u16) -> M<Option<Op>>
    ensures { IfOk result (λ op. op ≡ class_op opcode pool.now index) }
{
    if opcode == NEW {
        return match pool.class_at(index) {
            Some(name) => Ok(Some(Op::New(name.clone()?))),
            None => Ok(None),
        };
    }
    match pool.type_at(index)? {
        Some(ty) => Ok(of_type(opcode, Shared::new(alloc, ty)?)),
        None => Ok(None),
    }
}

// ---- instructions, behind their opcode

// The instruction of this opcode is left out.
fn left_out(opcode: u8) -> Result<Unaimed, Or<Wrong>>
    ensures { result ≡ Err (Fault (wrong.LeftOut opcode)) }
{
    Err(Or::Fault(Wrong::LeftOut(opcode)))
}

fn bad_operand() -> Result<Unaimed, Or<Wrong>>
    ensures { result ≡ Err (Fault wrong.Operand) }
{
    Err(Or::Fault(Wrong::Operand))
}

// What an operand means, which has to mean something.
fn whole(op: Option<Op>) -> Result<Unaimed, Or<Wrong>>
    ensures { result ≡ whole_op op }
{
    match op {
        Some(op) => Ok(Unaimed::Whole(op)),
        None => bad_operand(),
    }
}

fn bipush(cursor: &mut Cursor) -> Result<Unaimed, Or<Wrong>>
    ensures { (pool : List Entry) → ReadsOr result cursor.new
        (meaning_of_read pool (one_byte (λ byte. Bipush byte) cursor.old)) }
{
    let byte = cursor.u1()?;
    Ok(Unaimed::Whole(Op::PushInt(i32::from(byte.cast_signed()))))
}

fn sipush(cursor: &mut Cursor) -> Result<Unaimed, Or<Wrong>>
    ensures { (pool : List Entry) → ReadsOr result cursor.new
        (meaning_of_read pool (two_bytes (λ short. Sipush short) cursor.old)) }
{
    let short = cursor.u2()?;
    Ok(Unaimed::Whole(Op::PushInt(i32::from(short.cast_signed()))))
}

fn ldc(pool: &KnownPool, cursor: &mut Cursor) -> Result<Unaimed, Or<Wrong>>
    ensures { ReadsOr result cursor.new (meaning_of_read pool.now (ldc pool.now cursor.old)) }
{
    let index = u16::from(cursor.u1()?);
    if is_left_out_at(pool, index) {
        return left_out(LDC);
    }
    whole(loaded(pool, index)?)
}

fn ldc_wide(pool: &KnownPool, opcode: u8, cursor: &mut Cursor) -> Result<Unaimed, Or<Wrong>>
    ensures { ReadsOr result cursor.new (meaning_of_read pool.now (ldc_wide pool.now opcode cursor.old)) }
{
    let index = cursor.u2()?;
    if is_left_out_at(pool, index) {
        return left_out(opcode);
    }
    whole(loaded_wide(opcode, pool, index)?)
}

fn local(opcode: u8, cursor: &mut Cursor) -> Result<Unaimed, Or<Wrong>>
    ensures { (pool : List Entry) → ReadsOr result cursor.new
        (meaning_of_read pool (one_byte (λ index. Local opcode index) cursor.old)) }
{
    let index = cursor.u1()?;
    whole(local_op(opcode, u16::from(index)))
}

fn wide_local(opcode: u8, cursor: &mut Cursor) -> Result<Unaimed, Or<Wrong>>
    ensures { (pool : List Entry) → ReadsOr result cursor.new
        (meaning_of_read pool (two_bytes (λ index. WideLocal opcode index) cursor.old)) }
{
    let index = cursor.u2()?;
    whole(local_op(opcode, index))
}

fn iinc(cursor: &mut Cursor) -> Result<Unaimed, Or<Wrong>>
    ensures { (pool : List Entry) → ReadsOr result cursor.new (meaning_of_read pool (iinc cursor.old)) }
{
    let index = cursor.u1()?;
    let by = cursor.u1()?;
    Ok(Unaimed::Whole(Op::Inc(u16::from(index), i16::from(by.cast_signed()))))
}

fn wide_iinc(cursor: &mut Cursor) -> Result<Unaimed, Or<Wrong>>
    ensures { (pool : List Entry) → ReadsOr result cursor.new (meaning_of_read pool (wide_iinc cursor.old)) }
{
    let index = cursor.u2()?;
    let by = cursor.u2()?;
    Ok(Unaimed::Whole(Op::Inc(index, by.cast_signed())))
}

fn widened(opcode: u8, cursor: &mut Cursor) -> Result<Unaimed, Or<Wrong>>
    ensures { (pool : List Entry) (at : ℕ) → ReadsOr result cursor.new
        (meaning_of_read pool (onwards at (widened opcode) cursor.old)) }
{
    match opcode {
        IINC => wide_iinc(cursor),
        _ if is_left_out_local(opcode) => left_out(WIDE),
        _ if is_local(opcode) => wide_local(opcode, cursor),
        _ => Err(Or::Fault(Wrong::Opcode)),
    }
}

fn wide(cursor: &mut Cursor) -> Result<Unaimed, Or<Wrong>>
    ensures { (pool : List Entry) → ReadsOr result cursor.new (meaning_of_read pool (lead u1 widened cursor.old)) }
{
    let opcode = cursor.u1()?;
    widened(opcode, cursor)
}

fn branch(opcode: u8, cursor: &mut Cursor) -> Result<Unaimed, Or<Wrong>>
    ensures { (pool : List Entry) → ReadsOr result cursor.new
        (meaning_of_read pool (two_bytes (λ offset. Branch opcode offset) cursor.old)) }
{
    let offset = cursor.u2()?;
    Ok(Unaimed::Branch {
        opcode,
        offset: i32::from(offset.cast_signed()),
    })
}

fn goto_wide(cursor: &mut Cursor) -> Result<Unaimed, Or<Wrong>>
    ensures { (pool : List Entry) → ReadsOr result cursor.new (meaning_of_read pool (goto_wide cursor.old)) }
{
    let offset = cursor.u4()?;
    Ok(Unaimed::Branch {
        opcode: GOTO,
        offset: offset.cast_signed(),
    })
}

fn member(pool: &KnownPool, opcode: u8, cursor: &mut Cursor) -> Result<Unaimed, Or<Wrong>>
    ensures { ReadsOr result cursor.new (meaning_of_read pool.now (member pool.now opcode cursor.old)) }
{
    let index = cursor.u2()?;
    whole(member_op(opcode, pool, index)?)
}

fn class_operand(
    alloc: Global,
    pool: &KnownPool,
    opcode: u8,
    cursor: &mut Cursor,
) -> Result<Unaimed, Or<Wrong>>
    ensures { ReadsOr result cursor.new (meaning_of_read pool.now (class_operand pool.now opcode cursor.old)) }
{
    let index = cursor.u2()?;
    whole(class_op(alloc, opcode, pool, index)?)
}

fn is_count(wanted: Option<u32>, count: u8) -> bool
    ensures { result ≡ is_count wanted count }
{
    match wanted {
        Some(wanted) => u32::from(count) == wanted,
        None => false,
    }
}

fn invoke_interface(pool: &KnownPool, cursor: &mut Cursor) -> Result<Unaimed, Or<Wrong>>
    ensures { ReadsOr result cursor.new (meaning_of_read pool.now (invoke_interface pool.now cursor.old)) }
{
    let index = cursor.u2()?;
    let Some(method) = pool.interface_methodref_at(index) else {
        return bad_operand();
    };
    let count = cursor.u1()?;
    if !is_count(method.count(), count) {
        return bad_operand();
    }
    if cursor.u1()? != 0 {
        return bad_operand();
    }
    Ok(Unaimed::Whole(Op::InvokeInterface(method.reference().clone()?)))
}

fn new_array(cursor: &mut Cursor) -> Result<Unaimed, Or<Wrong>>
    ensures { (pool : List Entry) → ReadsOr result cursor.new
        (meaning_of_read pool (item u1 array_type_read cursor.old)) }
{
    let code = cursor.u1()?;
    if is_left_out_array_type(code) {
        return left_out(NEWARRAY);
    }
    match array_type_of(code) {
        Some(ty) => Ok(Unaimed::Whole(Op::NewArray(ty))),
        None => bad_operand(),
    }
}

fn multi_new_array(
    alloc: Global,
    pool: &KnownPool,
    cursor: &mut Cursor,
) -> Result<Unaimed, Or<Wrong>>
    ensures { ReadsOr result cursor.new (meaning_of_read pool.now (multi_new_array pool.now cursor.old)) }
{
    let index = cursor.u2()?;
    let Some(ty) = pool.type_at(index)? else {
        return bad_operand();
    };
    let dimensions = cursor.u1()?;
    if dimensions == 0 || dimensions > ty.dims {
        return bad_operand();
    }
    Ok(Unaimed::Whole(Op::MultiNewArray(Shared::new(alloc, ty)?, dimensions)))
}

// ---- switches

// How many bytes pad a switch at an offset (JVMS 6.5).
fn pad_length(at: u32) -> u32
    ensures { result ≡ pad_length at }
{
    3 - at % 4
}

fn offset(cursor: &mut Cursor) -> Result<u32, Or<Wrong>>
    ensures { ReadsOr result cursor.new (with_wrong (u4 cursor.old)) }
{
    Ok(cursor.u4()?)
}

fn offsets(alloc: Global, count: u64, cursor: &mut Cursor) -> Result<Items<u32>, Or<Wrong>>
    ensures { ReadsOr result cursor.new (with_wrong (many count u4 cursor.old)) }
{
    let mut offsets = Items::new(alloc);
    for _ in 0..count {
        let next = offset(cursor)?;
        offsets.push(next)?;
    }
    Ok(offsets)
}

// How many offsets a tableswitch has, whose high is at least its low.
fn table_length(low: u32, high: u32) -> u64
    requires { cast_signed w32 low ≤ℤ cast_signed w32 high }
    ensures { result ≡ table_length low high }
{
    i64::from(high.cast_signed()).abs_diff(i64::from(low.cast_signed())) + 1
}

fn table_switch(alloc: Global, at: u32, cursor: &mut Cursor) -> Result<Unaimed, Or<Wrong>>
    ensures { (pool : List Entry) → ReadsOr result cursor.new (meaning_of_read pool (table_switch at cursor.old)) }
{
    let _ = cursor.take(pad_length(at))?;
    let default = cursor.u4()?;
    let low = cursor.u4()?;
    let high = cursor.u4()?;
    if low.cast_signed() > high.cast_signed() {
        return bad_operand();
    }
    let offsets = offsets(alloc, table_length(low, high), cursor)?;
    Ok(Unaimed::TableSwitch {
        default,
        low,
        offsets,
    })
}

// Whether a key is greater than the one before.
fn ascends(previous: Option<u32>, key: u32) -> bool
    ensures { result ≡ ascends previous key }
{
    match previous {
        Some(previous) => previous.cast_signed() < key.cast_signed(),
        None => true,
    }
}

// A key that is greater than the one before, and its offset.
#[tactic(auto, unfolding(crate::specs::bodies::Meaning::match_read, format_reading::specs::Reader::u4, format_reading::specs::Reader::lead, format_reading::specs::Reader::bind, format_reading::specs::Reader::give))]
fn match_at(previous: Option<u32>, cursor: &mut Cursor) -> Result<Match, Or<Wrong>>
    ensures { ReadsOr result cursor.new (with_wrong (match_read previous cursor.old)) }
{
    let key = cursor.u4()?;
    if !ascends(previous, key) {
        return Err(Or::Fault(Wrong::Operand));
    }
    let offset = cursor.u4()?;
    Ok(Match { key, offset })
}

fn matches(alloc: Global, count: u32, cursor: &mut Cursor) -> Result<Items<Match>, Or<Wrong>>
    ensures { ReadsOr result cursor.new (with_wrong (matches_from count None cursor.old)) }
{
    let mut matches = Items::new(alloc);
    let mut previous = None;
    for _ in 0..count {
        let next = match_at(previous, cursor)?;
        previous = Some(next.key);
        matches.push(next)?;
    }
    Ok(matches)
}

// A lookupswitch behind its count.
fn lookup_matches(
    alloc: Global,
    default: u32,
    count: u32,
    cursor: &mut Cursor,
) -> Result<Unaimed, Or<Wrong>>
    ensures { (pool : List Entry) (pad : List ℕ)
        → ReadsOr result cursor.new (meaning_of_read pool (matches_behind pad default count cursor.old)) }
{
    let matches = matches(alloc, count, cursor)?;
    Ok(Unaimed::LookupSwitch { default, matches })
}

fn lookup_switch(alloc: Global, at: u32, cursor: &mut Cursor) -> Result<Unaimed, Or<Wrong>>
    ensures { (pool : List Entry) → ReadsOr result cursor.new (meaning_of_read pool (lookup_switch at cursor.old)) }
{
    let _ = cursor.take(pad_length(at))?;
    let default = cursor.u4()?;
    let count = cursor.u4()?;
    if count >= 0x8000_0000 {
        return bad_operand();
    }
    lookup_matches(alloc, default, count, cursor)
}

// ---- instructions

// What an opcode of one of the tables begins.
fn begun_by_table(
    alloc: Global,
    pool: &KnownPool,
    opcode: u8,
    cursor: &mut Cursor,
) -> Result<Unaimed, Or<Wrong>>
    ensures { (at : ℕ) → ReadsOr result cursor.new
        (meaning_of_read pool.now (onwards at (begun_by_table pool.now opcode) cursor.old)) }
{
    if is_local(opcode) {
        return local(opcode, cursor);
    }
    if is_branch(opcode) {
        return branch(opcode, cursor);
    }
    if is_on_field(opcode) || is_on_method(opcode) {
        return member(pool, opcode, cursor);
    }
    if opcode == NEW || is_on_type(opcode) {
        return class_operand(alloc, pool, opcode, cursor);
    }
    if is_left_out_opcode(opcode) {
        return left_out(opcode);
    }
    Err(Or::Fault(Wrong::Opcode))
}

/// What an opcode at an offset of the code begins.
pub fn begun(
    alloc: Global,
    pool: &KnownPool,
    at: u32,
    opcode: u8,
    cursor: &mut Cursor,
) -> Result<Unaimed, Or<Wrong>>
    ensures { (offset : ℕ) → ReadsOr result cursor.new
        (meaning_of_read pool.now (onwards offset (begun pool.now at opcode) cursor.old)) }
{
    if let Some(op) = plain_op(opcode) {
        return Ok(Unaimed::Whole(op));
    }
    match opcode {
        BIPUSH => bipush(cursor),
        SIPUSH => sipush(cursor),
        LDC => ldc(pool, cursor),
        LDC_W | LDC2_W => ldc_wide(pool, opcode, cursor),
        IINC => iinc(cursor),
        WIDE => wide(cursor),
        GOTO_W => goto_wide(cursor),
        TABLESWITCH => table_switch(alloc, at, cursor),
        LOOKUPSWITCH => lookup_switch(alloc, at, cursor),
        INVOKEINTERFACE => invoke_interface(pool, cursor),
        NEWARRAY => new_array(cursor),
        MULTIANEWARRAY => multi_new_array(alloc, pool, cursor),
        INVOKEDYNAMIC => left_out(opcode),
        _ => begun_by_table(alloc, pool, opcode, cursor),
    }
}
