// What a frame does at its instruction (JVMS 2.11, 6.5).
ghost use Rattle.jvm_model.specs.Instructions.{sort_of};
ghost use Rattle.jvm_model.specs.Local.{local};
ghost use Rattle.run_steps.specs.Frames.{body_of};
ghost use Rattle.run_steps.specs.Outcomes.{Does, DoesAs};
ghost use Rattle.std.specs.Prelude.{◌≡◌, ◌-◌, ◌<◌, ◌^◌, IfOk};

use crate::arrays::{array_length, get_at, new_array, new_arrays, new_base_array, put_at};
use crate::calls::{call_interface, call_special, call_static, call_virtual};
use crate::constants::{push_text, push_value};
use crate::fields::{get_field, put_field, put_static};
use crate::jumps::{
    jump, jump_by_cases, jump_by_table, jump_if_ints, jump_if_null, jump_if_references,
    jump_if_zero,
};
use crate::leaving::{end, toss};
use crate::math::{arithmetic, compare, convert, logic, negate, shift};
use crate::slots::{increase, load, store};
use crate::types::{cast, test};
use crate::words::{double_words, drop_words, pass, swap_words};
use crate::{Body, Descriptors, Outcome, Request};
use class_model::{Code, Op};
use jv_base::M;
use run_values::Value;
use std::alloc::Global;

/// What a frame does at its instruction, told of its code and itself alone; where there is no instruction it is stuck.
#[tactic(auto, using(std::proofs::lemmas::Option::slice_get_past))]
pub fn local<'a, D: Descriptors>(
    alloc: Global,
    known: &D,
    code: &'a Code,
    body: &mut Body,
) -> M<Outcome<'a>>
    ensures { IfOk result (λ outcome. Does outcome body.old body.new (local code.now (body_of body.old))) }
{
    let at = body.at;
    if at >= code.ins.len() {
        return Ok(Outcome::Stuck);
    }
    instruction(alloc, known, &code.ins[at].op, body)
}

/// By the family of the instruction.
fn instruction<'a, D: Descriptors>(
    alloc: Global,
    known: &D,
    op: &'a Op,
    body: &mut Body,
) -> M<Outcome<'a>>
    requires { body.old.at < 2 ^ 64 - 1 }
    ensures { DoesAs result body.old body.new (sort_of op.now) }
{
    match op {
        Op::Nop => Ok(pass(body)),
        Op::PushNull => push_value(body, Value::null()),
        Op::PushInt(number) => push_value(body, Value::int(*number)),
        Op::PushLong(number) => push_value(body, Value::long(*number)),
        Op::PushText(units) => push_text(body, units),
        Op::Load(kind, slot) => load(body, *kind, *slot),
        Op::Store(kind, slot) => store(body, *kind, *slot),
        Op::Inc(slot, by) => increase(body, *slot, *by),
        Op::Pop => Ok(drop_words(body, 1)),
        Op::Pop2 => Ok(drop_words(body, 2)),
        Op::Dup => double_words(body, 1, 0),
        Op::DupX1 => double_words(body, 1, 1),
        Op::DupX2 => double_words(body, 1, 2),
        Op::Dup2 => double_words(body, 2, 0),
        Op::Dup2X1 => double_words(body, 2, 1),
        Op::Dup2X2 => double_words(body, 2, 2),
        Op::Swap => swap_words(body),
        Op::Arith(op, num) => arithmetic(body, *op, *num),
        Op::Neg(num) => negate(body, *num),
        Op::Shift(op, num) => shift(body, *op, *num),
        Op::Logic(op, num) => logic(body, *op, *num),
        Op::Conv(op) => convert(body, *op),
        Op::LCmp => compare(body),
        Op::Return(kind) => Ok(end(body, *kind)),
        Op::Throw => Ok(toss(body)),
        Op::IfZero(condition, target) => Ok(jump_if_zero(body, *condition, *target)),
        Op::IfCmp(condition, target) => Ok(jump_if_ints(body, *condition, *target)),
        Op::IfRef { eq, to } => Ok(jump_if_references(body, *eq, *to)),
        Op::IfNull { null, to } => Ok(jump_if_null(body, *null, *to)),
        Op::Goto(target) => Ok(jump(body, *target)),
        Op::TableSwitch { low, other, cases } => Ok(jump_by_table(
            body,
            *low,
            *other,
            cases.as_slice(),
        )),
        Op::LookupSwitch { other, cases } => Ok(jump_by_cases(body, *other, cases.as_slice())),
        Op::GetStatic(field) => Ok(Outcome::Wants(Request::GetStatic(field))),
        Op::PutStatic(field) => put_static(alloc, body, field),
        Op::GetField(field) => Ok(get_field(body, field)),
        Op::PutField(field) => put_field(alloc, body, field),
        Op::InvokeVirtual(method) => call_virtual(alloc, known, body, method),
        Op::InvokeSpecial(method) => call_special(alloc, known, body, method),
        Op::InvokeStatic(method) => call_static(alloc, known, body, method),
        Op::InvokeInterface(method) => call_interface(alloc, known, body, method),
        Op::New(class) => Ok(Outcome::Wants(Request::New(class))),
        Op::NewArray(base) => Ok(new_base_array(body, base)),
        Op::ANewArray(component) => Ok(new_array(body, component)),
        Op::MultiNewArray(ty, count) => new_arrays(alloc, body, ty, *count),
        Op::ArrayLength => Ok(array_length(body)),
        Op::ALoad(elem) => Ok(get_at(body, *elem)),
        Op::AStore(elem) => Ok(put_at(body, *elem)),
        Op::CheckCast(ty) => Ok(cast(body, ty)),
        Op::InstanceOf(ty) => Ok(test(body, ty)),
    }
}
