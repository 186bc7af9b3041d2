// What is computed with numbers (JVMS 2.11.3, 2.11.4, 6.5). Sums, differences and products are the wrapping calls of
// std.
ghost use Rattle.std.specs.Prelude.{◌≡◌, pos};
ghost use Rattle.std.specs.Int.{w16, w32, w8, int_rem_euclid, int_wrap};
ghost use Rattle.class_model.specs.declared.op.Num.TheVariants as num;
ghost use Rattle.jvm_model.specs.Numbers.{compared, holds, joined, shifted};

use class_model::{Cond, LogicOp, ShiftOp};

/// An int, shifted by the low 5 bits of another (JVMS 6.5.ishl, 6.5.ishr, 6.5.iushr).
pub fn shifted_int(shift: ShiftOp, number: i32, by: i32) -> i32
    ensures { result ≡ shifted shift num.Int number by }
{
    let distance = by.rem_euclid(32).unsigned_abs();
    match shift {
        ShiftOp::Shl => number << distance,
        ShiftOp::Shr => number >> distance,
        ShiftOp::Ushr => (number.cast_unsigned() >> distance).cast_signed(),
    }
}

/// A long, shifted by the low 6 bits of an int (JVMS 6.5.lshl, 6.5.lshr, 6.5.lushr).
pub fn shifted_long(shift: ShiftOp, number: i64, by: i32) -> i64
    ensures { result ≡ shifted shift num.Long number by }
{
    let distance = by.rem_euclid(64).unsigned_abs();
    match shift {
        ShiftOp::Shl => number << distance,
        ShiftOp::Shr => number >> distance,
        ShiftOp::Ushr => (number.cast_unsigned() >> distance).cast_signed(),
    }
}

/// Two ints, joined bit by bit (JVMS 6.5.iand, 6.5.ior, 6.5.ixor).
pub fn joined_ints(logic: LogicOp, left: i32, right: i32) -> i32
    ensures { result ≡ joined logic num.Int left right }
{
    match logic {
        LogicOp::And => left & right,
        LogicOp::Or => left | right,
        LogicOp::Xor => left ^ right,
    }
}

/// Two longs, joined bit by bit (JVMS 6.5.land, 6.5.lor, 6.5.lxor).
pub fn joined_longs(logic: LogicOp, left: i64, right: i64) -> i64
    ensures { result ≡ joined logic num.Long left right }
{
    match logic {
        LogicOp::And => left & right,
        LogicOp::Or => left | right,
        LogicOp::Xor => left ^ right,
    }
}

/// 1, 0 or -1, by how two longs compare (JVMS 6.5.lcmp).
pub fn compared(left: i64, right: i64) -> i32
    ensures { result ≡ compared left right }
{
    if right < left {
        1
    } else if left == right {
        0
    } else {
        -1
    }
}

/// Whether a condition holds of two ints (JVMS 6.5.if_cond, 6.5.if_icmp_cond).
pub fn holds(condition: Cond, left: i32, right: i32) -> bool
    ensures { result ≡ holds condition left right }
{
    match condition {
        Cond::Eq => left == right,
        Cond::Ne => left != right,
        Cond::Lt => left < right,
        Cond::Ge => left >= right,
        Cond::Gt => left > right,
        Cond::Le => left <= right,
    }
}

/// The low 32 bits of a long (JVMS 6.5.l2i).
pub fn long_to_int(number: i64) -> i32
    ensures { result ≡ int_wrap w32 number }
{
    let bits = number.rem_euclid(0x1_0000_0000).unsigned_abs();
    (bits as u32).cast_signed()
}

/// The low 8 bits of an int, with their sign (JVMS 6.5.i2b).
pub fn int_to_byte(number: i32) -> i32
    ensures { result ≡ int_wrap w8 number }
{
    let bits = number.rem_euclid(0x100).unsigned_abs();
    i32::from((bits as u8).cast_signed())
}

/// The low 16 bits of an int, with their sign (JVMS 6.5.i2s).
pub fn int_to_short(number: i32) -> i32
    ensures { result ≡ int_wrap w16 number }
{
    let bits = number.rem_euclid(0x1_0000).unsigned_abs();
    i32::from((bits as u16).cast_signed())
}

/// The low 16 bits of an int (JVMS 6.5.i2c).
pub fn int_to_char(number: i32) -> i32
    ensures { result ≡ int_rem_euclid number (pos 65536) }
{
    number.rem_euclid(0x1_0000)
}
