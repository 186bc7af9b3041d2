// Computing with numbers (JVMS 2.11.3, 2.11.4, 6.5).
ghost use Rattle.class_model.specs.declared.op.Num.TheVariants as num;
ghost use Rattle.jvm_model.specs.Instructions.{arithmetic, computes, conversion, pushes};
ghost use Rattle.jvm_model.specs.Numbers.{as_number, compared, joined, number, shifted, width_of};
ghost use Rattle.jvm_model.specs.Stack.{one, two};
ghost use Rattle.jvm_model.specs.Value.{Int, as_int, as_long};
ghost use Rattle.run_steps.specs.Outcomes.{DoesAs};
ghost use Rattle.std.specs.Int.{int_wrapping_neg};
ghost use Rattle.std.specs.Prelude.{◌≡◌, ◌-◌, ◌<◌, ◌^◌};

use crate::constants::push_value;
use crate::{Body, Outcome, Request};
use class_model::{ArithOp, ConvOp, LogicOp, Num, ShiftOp};
use jv_base::M;
use run_values::Value;
use run_values::numbers::{
    compared, int_to_byte, int_to_char, int_to_short, joined_ints, joined_longs, long_to_int,
    shifted_int, shifted_long,
};

/// Two numbers give one (JVMS 6.5.iadd, 6.5.idiv and the like).
pub(crate) fn arithmetic(body: &mut Body, op: ArithOp, num: Num) -> M<Outcome<'static>>
    requires { body.old.at < 2 ^ 64 - 1 }
    ensures { DoesAs result body.old body.new (arithmetic op num) }
{
    match num {
        Num::Int => int_arithmetic(body, op),
        Num::Long => long_arithmetic(body, op),
    }
}

fn int_arithmetic(body: &mut Body, op: ArithOp) -> M<Outcome<'static>>
    requires { body.old.at < 2 ^ 64 - 1 }
    ensures { DoesAs result body.old body.new (arithmetic op num.Int) }
{
    let Some(right) = body.stack.pop_int() else {
        return Ok(Outcome::Stuck);
    };
    let Some(left) = body.stack.pop_int() else {
        return Ok(Outcome::Stuck);
    };
    match op {
        ArithOp::Add => push_value(body, Value::int(left.wrapping_add(right))),
        ArithOp::Sub => push_value(body, Value::int(left.wrapping_sub(right))),
        ArithOp::Mul => push_value(body, Value::int(left.wrapping_mul(right))),
        _ if right == 0 => Ok(Outcome::Wants(Request::DividesByZero)),
        ArithOp::Div => Ok(Outcome::Wants(Request::Known(Value::int(left.wrapping_div(right))))),
        ArithOp::Rem => Ok(Outcome::Wants(Request::Known(Value::int(left.wrapping_rem(right))))),
    }
}

fn long_arithmetic(body: &mut Body, op: ArithOp) -> M<Outcome<'static>>
    requires { body.old.at < 2 ^ 64 - 1 }
    ensures { DoesAs result body.old body.new (arithmetic op num.Long) }
{
    let Some(right) = body.stack.pop_long() else {
        return Ok(Outcome::Stuck);
    };
    let Some(left) = body.stack.pop_long() else {
        return Ok(Outcome::Stuck);
    };
    match op {
        ArithOp::Add => push_value(body, Value::long(left.wrapping_add(right))),
        ArithOp::Sub => push_value(body, Value::long(left.wrapping_sub(right))),
        ArithOp::Mul => push_value(body, Value::long(left.wrapping_mul(right))),
        _ if right == 0 => Ok(Outcome::Wants(Request::DividesByZero)),
        ArithOp::Div => Ok(Outcome::Wants(Request::Known(Value::long(left.wrapping_div(right))))),
        ArithOp::Rem => Ok(Outcome::Wants(Request::Known(Value::long(left.wrapping_rem(right))))),
    }
}

/// A number with the other sign (JVMS 6.5.ineg, 6.5.lneg).
pub(crate) fn negate(body: &mut Body, num: Num) -> M<Outcome<'static>>
    requires { body.old.at < 2 ^ 64 - 1 }
    ensures { DoesAs result body.old body.new (pushes (one (as_number num) (λ z. number num (int_wrapping_neg
        (width_of num) z)))) }
{
    match num {
        Num::Int => match body.stack.pop_int() {
            Some(number) => push_value(body, Value::int(number.wrapping_neg())),
            None => Ok(Outcome::Stuck),
        },
        Num::Long => match body.stack.pop_long() {
            Some(number) => push_value(body, Value::long(number.wrapping_neg())),
            None => Ok(Outcome::Stuck),
        },
    }
}

/// A number, shifted by an int (JVMS 6.5.ishl and the like).
pub(crate) fn shift(body: &mut Body, op: ShiftOp, num: Num) -> M<Outcome<'static>>
    requires { body.old.at < 2 ^ 64 - 1 }
    ensures { DoesAs result body.old body.new (pushes (two (as_number num) as_int (λ z k. number num
        (shifted op num z k)))) }
{
    let Some(by) = body.stack.pop_int() else {
        return Ok(Outcome::Stuck);
    };
    match num {
        Num::Int => match body.stack.pop_int() {
            Some(number) => push_value(body, Value::int(shifted_int(op, number, by))),
            None => Ok(Outcome::Stuck),
        },
        Num::Long => match body.stack.pop_long() {
            Some(number) => push_value(body, Value::long(shifted_long(op, number, by))),
            None => Ok(Outcome::Stuck),
        },
    }
}

/// Two numbers, joined bit by bit (JVMS 6.5.iand and the like).
pub(crate) fn logic(body: &mut Body, op: LogicOp, num: Num) -> M<Outcome<'static>>
    requires { body.old.at < 2 ^ 64 - 1 }
    ensures { DoesAs result body.old body.new (computes num (joined op num)) }
{
    match num {
        Num::Int => int_logic(body, op),
        Num::Long => long_logic(body, op),
    }
}

fn int_logic(body: &mut Body, op: LogicOp) -> M<Outcome<'static>>
    requires { body.old.at < 2 ^ 64 - 1 }
    ensures { DoesAs result body.old body.new (computes num.Int (joined op num.Int)) }
{
    let Some(right) = body.stack.pop_int() else {
        return Ok(Outcome::Stuck);
    };
    let Some(left) = body.stack.pop_int() else {
        return Ok(Outcome::Stuck);
    };
    push_value(body, Value::int(joined_ints(op, left, right)))
}

fn long_logic(body: &mut Body, op: LogicOp) -> M<Outcome<'static>>
    requires { body.old.at < 2 ^ 64 - 1 }
    ensures { DoesAs result body.old body.new (computes num.Long (joined op num.Long)) }
{
    let Some(right) = body.stack.pop_long() else {
        return Ok(Outcome::Stuck);
    };
    let Some(left) = body.stack.pop_long() else {
        return Ok(Outcome::Stuck);
    };
    push_value(body, Value::long(joined_longs(op, left, right)))
}

/// How two longs compare (JVMS 6.5.lcmp).
pub(crate) fn compare(body: &mut Body) -> M<Outcome<'static>>
    requires { body.old.at < 2 ^ 64 - 1 }
    ensures { DoesAs result body.old body.new (pushes (two as_long as_long (λ a b. Int (compared a b)))) }
{
    let Some(right) = body.stack.pop_long() else {
        return Ok(Outcome::Stuck);
    };
    let Some(left) = body.stack.pop_long() else {
        return Ok(Outcome::Stuck);
    };
    push_value(body, Value::int(compared(left, right)))
}

/// A number as one of another type (JVMS 6.5.i2l, 6.5.l2i, 6.5.i2b, 6.5.i2c, 6.5.i2s).
pub(crate) fn convert(body: &mut Body, op: ConvOp) -> M<Outcome<'static>>
    requires { body.old.at < 2 ^ 64 - 1 }
    ensures { DoesAs result body.old body.new (conversion op) }
{
    if matches!(op, ConvOp::L2i) {
        return match body.stack.pop_long() {
            Some(number) => push_value(body, Value::int(long_to_int(number))),
            None => Ok(Outcome::Stuck),
        };
    }
    let Some(number) = body.stack.pop_int() else {
        return Ok(Outcome::Stuck);
    };
    let value = match op {
        ConvOp::I2l => Value::long(i64::from(number)),
        ConvOp::I2b => Value::int(int_to_byte(number)),
        ConvOp::I2c => Value::int(int_to_char(number)),
        _ => Value::int(int_to_short(number)),
    };
    push_value(body, value)
}
