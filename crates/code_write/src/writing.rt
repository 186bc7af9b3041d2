// The bytes of instructions (JVMS 6.5).
ghost use Rattle.std.specs.Prelude.{◌≡◌, ℕ, ◌+◌, ◌^◌, ◌<◌, ◌∷◌, ◌++◌, [], ℤ, pos, negsuc, ◌-ℤ◌, ◌+ℤ◌, ◌<ℤ◌, true};
ghost use Rattle.std.specs.Prelude.{false, length, map, replicate, slice_index, All, IfOk, OnOk, unwrap_or};
ghost use Rattle.std.specs.Int.{w16, w32, to_be_bytes, cast_unsigned};
ghost use Rattle.std.specs.List.{flat_map};
ghost use Rattle.class_model.specs.Between.{int_between};
ghost use Rattle.class_model.specs.declared.op.Case.{Case};
ghost use Rattle.class_model.specs.declared.constant.PoolConstant.{PoolConstant};
ghost use Rattle.class_model.specs.InstructionStructure.{MatchOffset, match_offset, info_bytes, pad_length};
ghost use Rattle.class_model.specs.InstructionMeaning.{count_of};
ghost use Rattle.class_model.specs.CanonicalPool as pools;
ghost use Rattle.class_model.specs.CanonicalCode as canonical;
ghost use Rattle.class_model.specs.WellFormed.{IsGoodOp, HasFewWords};
ghost use Rattle.class_model.specs.WriteLimits.{branch_to};
ghost use Rattle.code_write.specs.Coded.{HasIndex, HasIndices, IsNear, load_info};
ghost use Rattle.code_write.specs.bodies.Coded.{match_of};

use crate::sizes::{is_lconst, is_short, padding};
use class_model::opcode::{
    ACONST_NULL, ANEWARRAY, ARRAYLENGTH, ATHROW, BIPUSH, CHECKCAST, DUP, DUP_X1, DUP_X2, DUP2,
    DUP2_X1, DUP2_X2, GETFIELD, GETSTATIC, GOTO, I2B, I2C, I2L, I2S, IADD, IALOAD, IAND, IASTORE,
    IDIV, IF_ACMPEQ, IF_ACMPNE, IF_ICMPEQ, IFEQ, IFNONNULL, IFNULL, IINC, ILOAD, ILOAD_0, IMUL,
    INEG, INSTANCEOF, INVOKEINTERFACE, INVOKESPECIAL, INVOKESTATIC, INVOKEVIRTUAL, IOR, IREM,
    IRETURN, ISHL, ISHR, ISTORE, ISTORE_0, ISUB, IUSHR, IXOR, L2I, LCMP, LCONST_0, LDC, LDC_W,
    LDC2_W, LOOKUPSWITCH, MULTIANEWARRAY, NEW, NEWARRAY, NOP, POP, POP2, PUTFIELD, PUTSTATIC,
    RETURN, SIPUSH, SWAP, TABLESWITCH, WIDE,
};
use class_model::{ArithOp, Case, Cond, ConvOp, Elem, Kind, LogicOp, MemberRef, Num, Op, ShiftOp};
use constant_table::{ConstantTable, put, put_u4};
use jv_base::{Base, FieldType, M, Name, Units};
use known_pool::count_of;
use std::alloc::Global;

// ---- opcodes

// The first of the four of a load or a store, or the one that takes the slot as its operand, is that of an int.
fn kind_number(kind: Kind) -> u8
    ensures value { result ≡ canonical.kind_number kind }
    ensures most { result < 5 }
{
    match kind {
        Kind::Int => 0,
        Kind::Long => 1,
        Kind::Ref => 4,
    }
}

fn num_number(num: Num) -> u8
    ensures value { result ≡ canonical.num_number num }
    ensures most { result < 2 }
{
    match num {
        Num::Int => 0,
        Num::Long => 1,
    }
}

fn elem_number(elem: Elem) -> u8
    ensures value { result ≡ canonical.elem_number elem }
    ensures most { result < 8 }
{
    match elem {
        Elem::Int => 0,
        Elem::Long => 1,
        Elem::Ref => 4,
        Elem::Byte => 5,
        Elem::Char => 6,
        Elem::Short => 7,
    }
}

fn cond_number(cond: Cond) -> u8
    ensures value { result ≡ canonical.cond_number cond }
    ensures most { result < 6 }
{
    match cond {
        Cond::Eq => 0,
        Cond::Ne => 1,
        Cond::Lt => 2,
        Cond::Ge => 3,
        Cond::Gt => 4,
        Cond::Le => 5,
    }
}

fn arith_opcode(arith: ArithOp) -> u8
    ensures value { result ≡ canonical.arith_opcode arith }
    ensures most { result < 128 }
{
    match arith {
        ArithOp::Add => IADD,
        ArithOp::Sub => ISUB,
        ArithOp::Mul => IMUL,
        ArithOp::Div => IDIV,
        ArithOp::Rem => IREM,
    }
}

fn shift_opcode(shift: ShiftOp) -> u8
    ensures value { result ≡ canonical.shift_opcode shift }
    ensures most { result < 128 }
{
    match shift {
        ShiftOp::Shl => ISHL,
        ShiftOp::Shr => ISHR,
        ShiftOp::Ushr => IUSHR,
    }
}

fn logic_opcode(logic: LogicOp) -> u8
    ensures value { result ≡ canonical.logic_opcode logic }
    ensures most { result < 254 }
{
    match logic {
        LogicOp::And => IAND,
        LogicOp::Or => IOR,
        LogicOp::Xor => IXOR,
    }
}

fn conv_opcode(conv: ConvOp) -> u8
    ensures { result ≡ canonical.conv_opcode conv }
{
    match conv {
        ConvOp::I2l => I2L,
        ConvOp::L2i => L2I,
        ConvOp::I2b => I2B,
        ConvOp::I2c => I2C,
        ConvOp::I2s => I2S,
    }
}

fn return_opcode(kind: Option<Kind>) -> u8
    ensures { result ≡ canonical.return_opcode kind }
{
    match kind {
        Some(kind) => IRETURN + kind_number(kind),
        None => RETURN,
    }
}

// The operand of newarray.
fn array_type_code(base: &Base) -> u8
    ensures { result ≡ canonical.array_type_code base.now }
{
    match base {
        Base::Boolean => 4,
        Base::Char => 5,
        Base::Byte => 8,
        Base::Short => 9,
        Base::Int => 10,
        Base::Long => 11,
        _ => 0,
    }
}

// ---- bytes

// An opcode with an operand of two bytes.
fn put_with_u2(out: &mut Vec<u8>, opcode: u8, operand: u16) -> M<()>
    ensures { OnOk result (out.new.items ≡ out.old.items ++ opcode ∷ to_be_bytes w16 operand) }
{
    put(out, &[opcode])?;
    put(out, &operand.to_be_bytes())
}

// ---- pushes

// An opcode with an index.
fn put_index(opcode: u8, index: usize, out: &mut Vec<u8>) -> M<()>
    requires { index < 2 ^ 16 }
    ensures { OnOk result (out.new.items ≡ out.old.items ++ opcode ∷ to_be_bytes w16 index) }
{
    put_with_u2(out, opcode, index as u16)
}

// ldc where the index is a byte, else ldc_w.
fn put_load(index: usize, out: &mut Vec<u8>) -> M<()>
    requires { index < 2 ^ 16 }
    ensures { OnOk result (out.new.items ≡ out.old.items ++ info_bytes (load_info index)) }
{
    if index <= 255 {
        put(out, &[LDC, index as u8])
    } else {
        put_with_u2(out, LDC_W, index as u16)
    }
}

fn put_push_int(table: &ConstantTable, number: i32, out: &mut Vec<u8>) -> M<()>
    requires { canonical.is_short number ≡ false → HasIndex table.now (PoolConstant.Integer number) }
    ensures { OnOk result (out.new.items ≡ out.old.items ++ info_bytes (canonical.push_int table.now number)) }
{
    if -1 <= number && number <= 5 {
        put(out, &[(number + 3) as u8])
    } else if -128 <= number && number <= 127 {
        put(out, &[BIPUSH, (number as i8).cast_unsigned()])
    } else if is_short(number) {
        put_with_u2(out, SIPUSH, (number as i16).cast_unsigned())
    } else {
        put_load(table.int_index(number), out)
    }
}

fn put_push_long(table: &ConstantTable, number: i64, out: &mut Vec<u8>) -> M<()>
    requires { canonical.is_lconst number ≡ false → HasIndex table.now (PoolConstant.Long number) }
    ensures { OnOk result (out.new.items ≡ out.old.items ++ info_bytes (canonical.push_long table.now number)) }
{
    if is_lconst(number) {
        put(out, &[LCONST_0 + number as u8])
    } else {
        put_index(LDC2_W, table.long_index(number), out)
    }
}

fn put_push_text(table: &ConstantTable, text: &Units, out: &mut Vec<u8>) -> M<()>
    requires { HasIndex table.now (PoolConstant.Str text.now) }
    ensures { OnOk result (out.new.items ≡ out.old.items
        ++ info_bytes (canonical.load_constant table.now (PoolConstant.Str text.now))) }
{
    put_load(table.string_index(text), out)
}

// ---- slots

// One opcode for each of the first four slots, else the opcode and the slot, behind wide where it needs two
// bytes.
fn put_slot(opcode: u8, first: u8, kind: Kind, slot: u16, out: &mut Vec<u8>) -> M<()>
    requires opcode { opcode < 128 }
    requires first { first < 128 }
    ensures { OnOk result (out.new.items ≡ out.old.items ++ info_bytes (canonical.slot_info opcode first kind slot)) }
{
    let kind = kind_number(kind);
    if slot < 4 {
        put(out, &[first + (4 * kind + slot as u8)])
    } else if slot < 256 {
        put(out, &[opcode + kind, slot as u8])
    } else {
        put(out, &[WIDE])?;
        put_with_u2(out, opcode + kind, slot)
    }
}

fn put_increment(slot: u16, delta: i16, out: &mut Vec<u8>) -> M<()>
    ensures { OnOk result (out.new.items ≡ out.old.items ++ info_bytes (canonical.inc_info slot delta)) }
{
    if slot < 256 && -128 <= delta && delta <= 127 {
        put(out, &[IINC, slot as u8, (delta as i8).cast_unsigned()])
    } else {
        put(out, &[WIDE])?;
        put_with_u2(out, IINC, slot)?;
        put(out, &delta.cast_unsigned().to_be_bytes())
    }
}

// ---- targets

/// How far it is from an offset to an instruction; the instructions begin at these places.
pub fn distance(places: &[u32], at: u32, to: u32) -> i64
    requires { to < length places.now }
    ensures { result ≡ canonical.distance [] (slice_index places.now) at to }
{
    i64::from(places[to as usize]) - i64::from(at)
}

fn put_branch(places: &[u32], at: u32, opcode: u8, to: u32, out: &mut Vec<u8>) -> M<()>
    requires target { to < length places.now }
    requires near { int_between (negsuc 32767) (pos 32767) (canonical.distance [] (slice_index places.now) at to)
        ≡ true }
    ensures { OnOk result (out.new.items ≡ out.old.items ++ opcode
        ∷ to_be_bytes w16 (cast_unsigned w16 (canonical.distance [] (slice_index places.now) at to))) }
{
    let near = distance(places, at, to) as i16;
    put_with_u2(out, opcode, near.cast_unsigned())
}

// The distance as a switch has it.
fn put_far(places: &[u32], at: u32, to: u32, out: &mut Vec<u8>) -> M<()>
    requires target { to < length places.now }
    requires at { at < 2 ^ 16 }
    requires places { All (λ place. place < 2 ^ 16) places.now }
    ensures { OnOk result (out.new.items ≡ out.old.items
        ++ to_be_bytes w32 (canonical.far [] (slice_index places.now) at to)) }
{
    let far = distance(places, at, to) as i32;
    put_u4(out, far.cast_unsigned())
}

// ---- switches

// The opcode, padding, and the default.
fn put_switch(opcode: u8, places: &[u32], at: u32, other: u32, out: &mut Vec<u8>) -> M<()>
    requires target { other < length places.now }
    requires at { at < 2 ^ 16 }
    requires places { All (λ place. place < 2 ^ 16) places.now }
    ensures { OnOk result (out.new.items ≡ out.old.items ++ opcode
        ∷ (replicate (pad_length at) 0 ++ to_be_bytes w32 (canonical.far [] (slice_index places.now) at other))) }
{
    put(out, &[opcode])?;
    for _ in 0..padding(u64::from(at)) {
        out.push(0)?;
    }
    put_far(places, at, other, out)
}

fn put_targets(places: &[u32], at: u32, cases: &[u32], out: &mut Vec<u8>) -> M<()>
    requires targets { All (λ to. to < length places.now) cases.now }
    requires at { at < 2 ^ 16 }
    requires places { All (λ place. place < 2 ^ 16) places.now }
    ensures { OnOk result (out.new.items ≡ out.old.items
        ++ flat_map (to_be_bytes w32) (map (canonical.far [] (slice_index places.now) at) cases.now)) }
{
    for to in cases {
        put_far(places, at, *to, out)?;
    }
    Ok(())
}

fn put_match(places: &[u32], at: u32, case: Case, out: &mut Vec<u8>) -> M<()>
    requires target { case.to < length places.now }
    requires at { at < 2 ^ 16 }
    requires places { All (λ place. place < 2 ^ 16) places.now }
    ensures { OnOk result (out.new.items ≡ out.old.items ++ match_offset (match_of (slice_index places.now) at case)) }
{
    put_u4(out, case.key.cast_unsigned())?;
    put_far(places, at, case.to, out)
}

fn put_matches(places: &[u32], at: u32, cases: &[Case], out: &mut Vec<u8>) -> M<()>
    requires targets { All (λ (case : Case). case.to < length places.now) cases.now }
    requires at { at < 2 ^ 16 }
    requires places { All (λ place. place < 2 ^ 16) places.now }
    ensures { OnOk result (out.new.items ≡ out.old.items
        ++ flat_map match_offset (map (match_of (slice_index places.now) at) cases.now)) }
{
    for case in cases {
        put_match(places, at, *case, out)?;
    }
    Ok(())
}

// The greatest of so many keys from the least on.
fn high_key(low: i32, count: usize) -> u32
    requires least { 0 < count }
    requires most { (low +ℤ pos count) <ℤ pos (2 ^ 31 + 1) }
    ensures { result ≡ cast_unsigned w32 (low +ℤ pos count -ℤ pos 1) }
{
    let high = (i64::from(low) + count as i64 - 1) as i32;
    high.cast_unsigned()
}

// The least and the greatest key of a tableswitch of so many.
fn put_keys(low: i32, count: usize, out: &mut Vec<u8>) -> M<()>
    requires least { 0 < count }
    requires most { (low +ℤ pos count) <ℤ pos (2 ^ 31 + 1) }
    ensures { OnOk result (out.new.items ≡ out.old.items
        ++ (to_be_bytes w32 (cast_unsigned w32 low)
        ++ to_be_bytes w32 (cast_unsigned w32 (low +ℤ pos count -ℤ pos 1)))) }
{
    put_u4(out, low.cast_unsigned())?;
    put_u4(out, high_key(low, count))
}

fn put_table_switch(
    places: &[u32],
    at: u32,
    low: i32,
    other: u32,
    cases: &[u32],
    out: &mut Vec<u8>,
) -> M<()>
    requires other { other < length places.now }
    requires targets { All (λ to. to < length places.now) cases.now }
    requires least { 0 < length cases.now }
    requires most { (low +ℤ pos (length cases.now)) <ℤ pos (2 ^ 31 + 1) }
    requires at { at < 2 ^ 16 }
    requires places { All (λ place. place < 2 ^ 16) places.now }
    ensures { OnOk result (out.new.items ≡ out.old.items
        ++ info_bytes (canonical.op_info [] (slice_index places.now) at (Op.TableSwitch low other cases.now))) }
{
    put_switch(TABLESWITCH, places, at, other, out)?;
    put_keys(low, cases.len(), out)?;
    put_targets(places, at, cases, out)
}

fn put_lookup_switch(
    places: &[u32],
    at: u32,
    other: u32,
    cases: &[Case],
    out: &mut Vec<u8>,
) -> M<()>
    requires other { other < length places.now }
    requires targets { All (λ (case : Case). case.to < length places.now) cases.now }
    requires count { length cases.now < 2 ^ 32 }
    requires at { at < 2 ^ 16 }
    requires places { All (λ place. place < 2 ^ 16) places.now }
    ensures { OnOk result (out.new.items ≡ out.old.items
        ++ info_bytes (canonical.op_info [] (slice_index places.now) at (Op.LookupSwitch other cases.now))) }
{
    put_switch(LOOKUPSWITCH, places, at, other, out)?;
    put_u4(out, cases.len() as u32)?;
    put_matches(places, at, cases, out)
}

// ---- constants

fn put_field(
    alloc: Global,
    table: &ConstantTable,
    opcode: u8,
    field: &MemberRef,
    out: &mut Vec<u8>,
) -> M<()>
    requires { HasIndex table.now (pools.fieldref field.now) }
    ensures { OnOk result (out.new.items ≡ out.old.items ++ opcode
        ∷ to_be_bytes w16 (pools.index_of table.now (pools.fieldref field.now))) }
{
    let index = table.field_index(alloc, field)?;
    put_with_u2(out, opcode, index as u16)
}

fn put_method(
    alloc: Global,
    table: &ConstantTable,
    opcode: u8,
    method: &MemberRef,
    out: &mut Vec<u8>,
) -> M<()>
    requires { HasIndex table.now (pools.methodref method.now) }
    ensures { OnOk result (out.new.items ≡ out.old.items ++ opcode
        ∷ to_be_bytes w16 (pools.index_of table.now (pools.methodref method.now))) }
{
    let index = table.method_index(alloc, method)?;
    put_with_u2(out, opcode, index as u16)
}

fn put_type(
    alloc: Global,
    table: &ConstantTable,
    opcode: u8,
    ty: &FieldType,
    out: &mut Vec<u8>,
) -> M<()>
    requires { HasIndex table.now (pools.class_constant (pools.type_name ty.now)) }
    ensures { OnOk result (out.new.items ≡ out.old.items ++ opcode
        ∷ to_be_bytes w16 (pools.index_of table.now (pools.class_constant (pools.type_name ty.now)))) }
{
    let index = table.type_index(alloc, ty)?;
    put_with_u2(out, opcode, index as u16)
}

fn put_new(alloc: Global, table: &ConstantTable, name: &Name, out: &mut Vec<u8>) -> M<()>
    requires { HasIndex table.now (pools.class_constant name.now) }
    ensures { OnOk result (out.new.items ≡ out.old.items ++ 0xBB
        ∷ to_be_bytes w16 (pools.index_of table.now (pools.class_constant name.now))) }
{
    let index = table.class_index(alloc, name)?;
    put_with_u2(out, NEW, index as u16)
}

// The argument words with the object's.
fn count_byte(alloc: Global, method: &MemberRef) -> M<u8>
    requires { HasFewWords (Op.InvokeInterface method.now) }
    ensures { IfOk result (λ count. count ≡ unwrap_or (count_of method.now) 0) }
{
    match count_of(alloc, method)? {
        Some(count) => Ok(count as u8),
        None => Ok(0),
    }
}

fn put_invoke_interface(
    alloc: Global,
    table: &ConstantTable,
    method: &MemberRef,
    out: &mut Vec<u8>,
) -> M<()>
    requires index { HasIndex table.now (pools.methodref method.now) }
    requires words { HasFewWords (Op.InvokeInterface method.now) }
    ensures { OnOk result (out.new.items ≡ out.old.items ++ 0xB9
        ∷ (to_be_bytes w16 (pools.index_of table.now (pools.methodref method.now)) ++ unwrap_or (count_of method.now) 0
        ∷ 0 ∷ [])) }
{
    let count = count_byte(alloc, method)?;
    put_method(alloc, table, INVOKEINTERFACE, method, out)?;
    put(out, &[count, 0])
}

fn put_multi_new_array(
    alloc: Global,
    table: &ConstantTable,
    ty: &FieldType,
    dimensions: u8,
    out: &mut Vec<u8>,
) -> M<()>
    requires { HasIndex table.now (pools.class_constant (pools.type_name ty.now)) }
    ensures { OnOk result (out.new.items ≡ out.old.items ++ 0xC5
        ∷ (to_be_bytes w16 (pools.index_of table.now (pools.class_constant (pools.type_name ty.now))) ++ dimensions
        ∷ [])) }
{
    put_type(alloc, table, MULTIANEWARRAY, ty, out)?;
    put(out, &[dimensions])
}

// ---- instructions

/// The instruction at an offset, behind the bytes that are there. Its constants are those of the table, and
/// the instructions of the code begin at these places.
pub fn put_op(
    alloc: Global,
    table: &ConstantTable,
    places: &[u32],
    at: u32,
    op: &Op,
    out: &mut Vec<u8>,
) -> M<()>
    requires good { IsGoodOp (length places.now) op.now }
    requires words { HasFewWords op.now }
    requires indices { HasIndices table.now op.now }
    requires near { IsNear (canonical.distance [] (slice_index places.now) at) (branch_to op.now) }
    requires at { at < 2 ^ 16 }
    requires places { All (λ place. place < 2 ^ 16) places.now }
    requires size { length (info_bytes (canonical.op_info table.now (slice_index places.now) at op.now)) < 2 ^ 16 }
    ensures { OnOk result (out.new.items ≡ out.old.items
        ++ info_bytes (canonical.op_info table.now (slice_index places.now) at op.now)) }
{
    match op {
        Op::Nop => put(out, &[NOP]),
        Op::PushNull => put(out, &[ACONST_NULL]),
        Op::PushInt(number) => put_push_int(table, *number, out),
        Op::PushLong(number) => put_push_long(table, *number, out),
        Op::PushText(text) => put_push_text(table, text, out),
        Op::Load(kind, slot) => put_slot(ILOAD, ILOAD_0, *kind, *slot, out),
        Op::Store(kind, slot) => put_slot(ISTORE, ISTORE_0, *kind, *slot, out),
        Op::Inc(slot, delta) => put_increment(*slot, *delta, out),
        Op::ALoad(elem) => put(out, &[IALOAD + elem_number(*elem)]),
        Op::AStore(elem) => put(out, &[IASTORE + elem_number(*elem)]),
        Op::Pop => put(out, &[POP]),
        Op::Pop2 => put(out, &[POP2]),
        Op::Dup => put(out, &[DUP]),
        Op::DupX1 => put(out, &[DUP_X1]),
        Op::DupX2 => put(out, &[DUP_X2]),
        Op::Dup2 => put(out, &[DUP2]),
        Op::Dup2X1 => put(out, &[DUP2_X1]),
        Op::Dup2X2 => put(out, &[DUP2_X2]),
        Op::Swap => put(out, &[SWAP]),
        Op::Arith(arith, num) => put(out, &[arith_opcode(*arith) + num_number(*num)]),
        Op::Neg(num) => put(out, &[INEG + num_number(*num)]),
        Op::Shift(shift, num) => put(out, &[shift_opcode(*shift) + num_number(*num)]),
        Op::Logic(logic, num) => put(out, &[logic_opcode(*logic) + num_number(*num)]),
        Op::Conv(conv) => put(out, &[conv_opcode(*conv)]),
        Op::LCmp => put(out, &[LCMP]),
        Op::IfZero(cond, to) => put_branch(places, at, IFEQ + cond_number(*cond), *to, out),
        Op::IfCmp(cond, to) => put_branch(places, at, IF_ICMPEQ + cond_number(*cond), *to, out),
        Op::IfRef { eq, to } => put_branch(
            places,
            at,
            if *eq { IF_ACMPEQ } else { IF_ACMPNE },
            *to,
            out,
        ),
        Op::IfNull { null, to } => put_branch(
            places,
            at,
            if *null { IFNULL } else { IFNONNULL },
            *to,
            out,
        ),
        Op::Goto(to) => put_branch(places, at, GOTO, *to, out),
        Op::TableSwitch { low, other, cases } => {
            put_table_switch(places, at, *low, *other, cases.as_slice(), out)
        }
        Op::LookupSwitch { other, cases } => {
            put_lookup_switch(places, at, *other, cases.as_slice(), out)
        }
        Op::Return(kind) => put(out, &[return_opcode(*kind)]),
        Op::GetStatic(field) => put_field(alloc, table, GETSTATIC, field, out),
        Op::PutStatic(field) => put_field(alloc, table, PUTSTATIC, field, out),
        Op::GetField(field) => put_field(alloc, table, GETFIELD, field, out),
        Op::PutField(field) => put_field(alloc, table, PUTFIELD, field, out),
        Op::InvokeVirtual(method) => put_method(alloc, table, INVOKEVIRTUAL, method, out),
        Op::InvokeSpecial(method) => put_method(alloc, table, INVOKESPECIAL, method, out),
        Op::InvokeStatic(method) => put_method(alloc, table, INVOKESTATIC, method, out),
        Op::InvokeInterface(method) => put_invoke_interface(alloc, table, method, out),
        Op::New(name) => put_new(alloc, table, name, out),
        Op::NewArray(base) => put(out, &[NEWARRAY, array_type_code(base)]),
        Op::ANewArray(ty) => put_type(alloc, table, ANEWARRAY, ty, out),
        Op::ArrayLength => put(out, &[ARRAYLENGTH]),
        Op::Throw => put(out, &[ATHROW]),
        Op::CheckCast(ty) => put_type(alloc, table, CHECKCAST, ty, out),
        Op::InstanceOf(ty) => put_type(alloc, table, INSTANCEOF, ty, out),
        Op::MultiNewArray(ty, dimensions) => {
            put_multi_new_array(alloc, table, ty, *dimensions, out)
        }
    }
}
