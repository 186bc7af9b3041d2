// Copies of instructions.
ghost use Rattle.std.specs.Prelude.{◌≡◌, IfOk};

use class_model::Op;
use jv_base::M;

/// A copy of an instruction. What takes more than a few bytes is shared with it.
pub(crate) fn copied_op(op: &Op) -> M<Op>
    ensures { IfOk result (λ copy. copy ≡ op.now) }
{
    match op {
        Op::Nop => Ok(Op::Nop),
        Op::PushNull => Ok(Op::PushNull),
        Op::PushInt(value) => Ok(Op::PushInt(*value)),
        Op::PushLong(value) => Ok(Op::PushLong(*value)),
        Op::PushText(units) => Ok(Op::PushText(units.clone()?)),
        Op::Load(kind, slot) => Ok(Op::Load(*kind, *slot)),
        Op::Store(kind, slot) => Ok(Op::Store(*kind, *slot)),
        Op::Inc(slot, by) => Ok(Op::Inc(*slot, *by)),
        Op::ALoad(elem) => Ok(Op::ALoad(*elem)),
        Op::AStore(elem) => Ok(Op::AStore(*elem)),
        Op::Pop => Ok(Op::Pop),
        Op::Pop2 => Ok(Op::Pop2),
        Op::Dup => Ok(Op::Dup),
        Op::DupX1 => Ok(Op::DupX1),
        Op::DupX2 => Ok(Op::DupX2),
        Op::Dup2 => Ok(Op::Dup2),
        Op::Dup2X1 => Ok(Op::Dup2X1),
        Op::Dup2X2 => Ok(Op::Dup2X2),
        Op::Swap => Ok(Op::Swap),
        Op::Arith(arith, num) => Ok(Op::Arith(*arith, *num)),
        Op::Neg(num) => Ok(Op::Neg(*num)),
        Op::Shift(shift, num) => Ok(Op::Shift(*shift, *num)),
        Op::Logic(logic, num) => Ok(Op::Logic(*logic, *num)),
        Op::Conv(conv) => Ok(Op::Conv(*conv)),
        Op::LCmp => Ok(Op::LCmp),
        Op::IfZero(cond, to) => Ok(Op::IfZero(*cond, *to)),
        Op::IfCmp(cond, to) => Ok(Op::IfCmp(*cond, *to)),
        Op::IfRef { eq, to } => Ok(Op::IfRef { eq: *eq, to: *to }),
        Op::IfNull { null, to } => Ok(Op::IfNull {
            null: *null,
            to: *to,
        }),
        Op::Goto(to) => Ok(Op::Goto(*to)),
        Op::TableSwitch { low, other, cases } => Ok(Op::TableSwitch {
            low: *low,
            other: *other,
            cases: cases.clone()?,
        }),
        Op::LookupSwitch { other, cases } => Ok(Op::LookupSwitch {
            other: *other,
            cases: cases.clone()?,
        }),
        Op::Return(kind) => Ok(Op::Return(*kind)),
        Op::GetStatic(field) => Ok(Op::GetStatic(field.clone()?)),
        Op::PutStatic(field) => Ok(Op::PutStatic(field.clone()?)),
        Op::GetField(field) => Ok(Op::GetField(field.clone()?)),
        Op::PutField(field) => Ok(Op::PutField(field.clone()?)),
        Op::InvokeVirtual(method) => Ok(Op::InvokeVirtual(method.clone()?)),
        Op::InvokeSpecial(method) => Ok(Op::InvokeSpecial(method.clone()?)),
        Op::InvokeStatic(method) => Ok(Op::InvokeStatic(method.clone()?)),
        Op::InvokeInterface(method) => Ok(Op::InvokeInterface(method.clone()?)),
        Op::New(name) => Ok(Op::New(name.clone()?)),
        Op::NewArray(base) => Ok(Op::NewArray(base.clone()?)),
        Op::ANewArray(ty) => Ok(Op::ANewArray(ty.clone()?)),
        Op::ArrayLength => Ok(Op::ArrayLength),
        Op::Throw => Ok(Op::Throw),
        Op::CheckCast(ty) => Ok(Op::CheckCast(ty.clone()?)),
        Op::InstanceOf(ty) => Ok(Op::InstanceOf(ty.clone()?)),
        Op::MultiNewArray(ty, count) => Ok(Op::MultiNewArray(ty.clone()?, *count)),
    }
}
