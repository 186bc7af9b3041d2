// Whether two instructions are the same.
//
// A derived `==` would not tell contracts that the two are one value. So each family has a test of its
// own, whether an instruction is of the family and has the given operands.
ghost use Rattle.std.specs.Prelude.{◌≡◌, ◌↔◌, IsTrue};

use crate::{ArithOp, Case, Cond, ConvOp, Elem, Kind, LogicOp, MemberRef, Num, Op, ShiftOp};
use jv_base::{Base, FieldType, Items, Name, Units};

/// Whether two instructions are of one family with the same operands.
pub fn same_op(left: &Op, right: &Op) -> bool
    ensures { IsTrue result ↔ (left.now ≡ right.now) }
{
    match left {
        Op::Nop => is_nop(right),
        Op::PushNull => is_push_null(right),
        Op::PushInt(value) => is_push_int(*value, right),
        Op::PushLong(value) => is_push_long(*value, right),
        Op::PushText(text) => is_push_text(text, right),
        Op::Load(kind, slot) => is_load(*kind, *slot, right),
        Op::Store(kind, slot) => is_store(*kind, *slot, right),
        Op::Inc(slot, by) => is_inc(*slot, *by, right),
        Op::ALoad(elem) => is_a_load(*elem, right),
        Op::AStore(elem) => is_a_store(*elem, right),
        Op::Pop => is_pop(right),
        Op::Pop2 => is_pop2(right),
        Op::Dup => is_dup(right),
        Op::DupX1 => is_dup_x1(right),
        Op::DupX2 => is_dup_x2(right),
        Op::Dup2 => is_dup2(right),
        Op::Dup2X1 => is_dup2_x1(right),
        Op::Dup2X2 => is_dup2_x2(right),
        Op::Swap => is_swap(right),
        Op::Arith(arith, num) => is_arith(*arith, *num, right),
        Op::Neg(num) => is_neg(*num, right),
        Op::Shift(shift, num) => is_shift(*shift, *num, right),
        Op::Logic(logic, num) => is_logic(*logic, *num, right),
        Op::Conv(conv) => is_conv(*conv, right),
        Op::LCmp => is_l_cmp(right),
        Op::IfZero(cond, to) => is_if_zero(*cond, *to, right),
        Op::IfCmp(cond, to) => is_if_cmp(*cond, *to, right),
        Op::IfRef { eq, to } => is_if_ref(*eq, *to, right),
        Op::IfNull { null, to } => is_if_null(*null, *to, right),
        Op::Goto(to) => is_goto(*to, right),
        Op::TableSwitch { low, other, cases } => is_table_switch(*low, *other, cases, right),
        Op::LookupSwitch { other, cases } => is_lookup_switch(*other, cases, right),
        Op::Return(kind) => is_return(*kind, right),
        Op::GetStatic(member) => is_get_static(member, right),
        Op::PutStatic(member) => is_put_static(member, right),
        Op::GetField(member) => is_get_field(member, right),
        Op::PutField(member) => is_put_field(member, right),
        Op::InvokeVirtual(member) => is_invoke_virtual(member, right),
        Op::InvokeSpecial(member) => is_invoke_special(member, right),
        Op::InvokeStatic(member) => is_invoke_static(member, right),
        Op::InvokeInterface(member) => is_invoke_interface(member, right),
        Op::New(class) => is_new(class, right),
        Op::NewArray(base) => is_new_array(base, right),
        Op::ANewArray(ty) => is_a_new_array(ty, right),
        Op::ArrayLength => is_array_length(right),
        Op::Throw => is_throw(right),
        Op::CheckCast(ty) => is_check_cast(ty, right),
        Op::InstanceOf(ty) => is_instance_of(ty, right),
        Op::MultiNewArray(ty, dims) => is_multi_new_array(ty, *dims, right),
    }
}

fn is_nop(right: &Op) -> bool
    ensures { IsTrue result ↔ (Op.Nop ≡ right.now) }
{
    matches!(right, Op::Nop)
}

fn is_push_null(right: &Op) -> bool
    ensures { IsTrue result ↔ (Op.PushNull ≡ right.now) }
{
    matches!(right, Op::PushNull)
}

fn is_push_int(value: i32, right: &Op) -> bool
    ensures { IsTrue result ↔ (Op.PushInt value ≡ right.now) }
{
    match right {
        Op::PushInt(other) => value == *other,
        _ => false,
    }
}

fn is_push_long(value: i64, right: &Op) -> bool
    ensures { IsTrue result ↔ (Op.PushLong value ≡ right.now) }
{
    match right {
        Op::PushLong(other) => value == *other,
        _ => false,
    }
}

fn is_push_text(text: &Units, right: &Op) -> bool
    ensures { IsTrue result ↔ (Op.PushText text.now ≡ right.now) }
{
    match right {
        Op::PushText(other) => *text == **other,
        _ => false,
    }
}

fn is_load(kind: Kind, slot: u16, right: &Op) -> bool
    ensures { IsTrue result ↔ (Op.Load kind slot ≡ right.now) }
{
    match right {
        Op::Load(right_kind, right_slot) => kind == *right_kind && slot == *right_slot,
        _ => false,
    }
}

fn is_store(kind: Kind, slot: u16, right: &Op) -> bool
    ensures { IsTrue result ↔ (Op.Store kind slot ≡ right.now) }
{
    match right {
        Op::Store(right_kind, right_slot) => kind == *right_kind && slot == *right_slot,
        _ => false,
    }
}

fn is_inc(slot: u16, by: i16, right: &Op) -> bool
    ensures { IsTrue result ↔ (Op.Inc slot by ≡ right.now) }
{
    match right {
        Op::Inc(right_slot, right_by) => slot == *right_slot && by == *right_by,
        _ => false,
    }
}

fn is_a_load(elem: Elem, right: &Op) -> bool
    ensures { IsTrue result ↔ (Op.ALoad elem ≡ right.now) }
{
    match right {
        Op::ALoad(other) => elem == *other,
        _ => false,
    }
}

fn is_a_store(elem: Elem, right: &Op) -> bool
    ensures { IsTrue result ↔ (Op.AStore elem ≡ right.now) }
{
    match right {
        Op::AStore(other) => elem == *other,
        _ => false,
    }
}

fn is_pop(right: &Op) -> bool
    ensures { IsTrue result ↔ (Op.Pop ≡ right.now) }
{
    matches!(right, Op::Pop)
}

fn is_pop2(right: &Op) -> bool
    ensures { IsTrue result ↔ (Op.Pop2 ≡ right.now) }
{
    matches!(right, Op::Pop2)
}

fn is_dup(right: &Op) -> bool
    ensures { IsTrue result ↔ (Op.Dup ≡ right.now) }
{
    matches!(right, Op::Dup)
}

fn is_dup_x1(right: &Op) -> bool
    ensures { IsTrue result ↔ (Op.DupX1 ≡ right.now) }
{
    matches!(right, Op::DupX1)
}

fn is_dup_x2(right: &Op) -> bool
    ensures { IsTrue result ↔ (Op.DupX2 ≡ right.now) }
{
    matches!(right, Op::DupX2)
}

fn is_dup2(right: &Op) -> bool
    ensures { IsTrue result ↔ (Op.Dup2 ≡ right.now) }
{
    matches!(right, Op::Dup2)
}

fn is_dup2_x1(right: &Op) -> bool
    ensures { IsTrue result ↔ (Op.Dup2X1 ≡ right.now) }
{
    matches!(right, Op::Dup2X1)
}

fn is_dup2_x2(right: &Op) -> bool
    ensures { IsTrue result ↔ (Op.Dup2X2 ≡ right.now) }
{
    matches!(right, Op::Dup2X2)
}

fn is_swap(right: &Op) -> bool
    ensures { IsTrue result ↔ (Op.Swap ≡ right.now) }
{
    matches!(right, Op::Swap)
}

fn is_arith(arith: ArithOp, num: Num, right: &Op) -> bool
    ensures { IsTrue result ↔ (Op.Arith arith num ≡ right.now) }
{
    match right {
        Op::Arith(right_arith, right_num) => arith == *right_arith && num == *right_num,
        _ => false,
    }
}

fn is_neg(num: Num, right: &Op) -> bool
    ensures { IsTrue result ↔ (Op.Neg num ≡ right.now) }
{
    match right {
        Op::Neg(other) => num == *other,
        _ => false,
    }
}

fn is_shift(shift: ShiftOp, num: Num, right: &Op) -> bool
    ensures { IsTrue result ↔ (Op.Shift shift num ≡ right.now) }
{
    match right {
        Op::Shift(right_shift, right_num) => shift == *right_shift && num == *right_num,
        _ => false,
    }
}

fn is_logic(logic: LogicOp, num: Num, right: &Op) -> bool
    ensures { IsTrue result ↔ (Op.Logic logic num ≡ right.now) }
{
    match right {
        Op::Logic(right_logic, right_num) => logic == *right_logic && num == *right_num,
        _ => false,
    }
}

fn is_conv(conv: ConvOp, right: &Op) -> bool
    ensures { IsTrue result ↔ (Op.Conv conv ≡ right.now) }
{
    match right {
        Op::Conv(other) => conv == *other,
        _ => false,
    }
}

fn is_l_cmp(right: &Op) -> bool
    ensures { IsTrue result ↔ (Op.LCmp ≡ right.now) }
{
    matches!(right, Op::LCmp)
}

fn is_if_zero(cond: Cond, to: u32, right: &Op) -> bool
    ensures { IsTrue result ↔ (Op.IfZero cond to ≡ right.now) }
{
    match right {
        Op::IfZero(right_cond, right_to) => cond == *right_cond && to == *right_to,
        _ => false,
    }
}

fn is_if_cmp(cond: Cond, to: u32, right: &Op) -> bool
    ensures { IsTrue result ↔ (Op.IfCmp cond to ≡ right.now) }
{
    match right {
        Op::IfCmp(right_cond, right_to) => cond == *right_cond && to == *right_to,
        _ => false,
    }
}

fn is_if_ref(eq: bool, to: u32, right: &Op) -> bool
    ensures { IsTrue result ↔ (Op.IfRef eq to ≡ right.now) }
{
    match right {
        Op::IfRef {
            eq: right_eq,
            to: right_to,
        } => eq == *right_eq && to == *right_to,
        _ => false,
    }
}

fn is_if_null(null: bool, to: u32, right: &Op) -> bool
    ensures { IsTrue result ↔ (Op.IfNull null to ≡ right.now) }
{
    match right {
        Op::IfNull {
            null: right_null,
            to: right_to,
        } => null == *right_null && to == *right_to,
        _ => false,
    }
}

fn is_goto(to: u32, right: &Op) -> bool
    ensures { IsTrue result ↔ (Op.Goto to ≡ right.now) }
{
    match right {
        Op::Goto(other) => to == *other,
        _ => false,
    }
}

fn is_table_switch(low: i32, other: u32, cases: &Items<u32>, right: &Op) -> bool
    ensures { IsTrue result ↔ (Op.TableSwitch low other cases.now ≡ right.now) }
{
    match right {
        Op::TableSwitch {
            low: right_low,
            other: right_other,
            cases: right_cases,
        } => low == *right_low && other == *right_other && *cases == **right_cases,
        _ => false,
    }
}

fn is_lookup_switch(other: u32, cases: &Items<Case>, right: &Op) -> bool
    ensures { IsTrue result ↔ (Op.LookupSwitch other cases.now ≡ right.now) }
{
    match right {
        Op::LookupSwitch {
            other: right_other,
            cases: right_cases,
        } => other == *right_other && same_cases(cases, right_cases),
        _ => false,
    }
}

fn same_cases(left: &Items<Case>, right: &Items<Case>) -> bool
    ensures { IsTrue result ↔ (left.now ≡ right.now) }
{
    left == right
}

fn is_return(kind: Option<Kind>, right: &Op) -> bool
    ensures { IsTrue result ↔ (Op.Return kind ≡ right.now) }
{
    match right {
        Op::Return(other) => kind == *other,
        _ => false,
    }
}

fn is_get_static(member: &MemberRef, right: &Op) -> bool
    ensures { IsTrue result ↔ (Op.GetStatic member.now ≡ right.now) }
{
    match right {
        Op::GetStatic(other) => *member == **other,
        _ => false,
    }
}

fn is_put_static(member: &MemberRef, right: &Op) -> bool
    ensures { IsTrue result ↔ (Op.PutStatic member.now ≡ right.now) }
{
    match right {
        Op::PutStatic(other) => *member == **other,
        _ => false,
    }
}

fn is_get_field(member: &MemberRef, right: &Op) -> bool
    ensures { IsTrue result ↔ (Op.GetField member.now ≡ right.now) }
{
    match right {
        Op::GetField(other) => *member == **other,
        _ => false,
    }
}

fn is_put_field(member: &MemberRef, right: &Op) -> bool
    ensures { IsTrue result ↔ (Op.PutField member.now ≡ right.now) }
{
    match right {
        Op::PutField(other) => *member == **other,
        _ => false,
    }
}

fn is_invoke_virtual(member: &MemberRef, right: &Op) -> bool
    ensures { IsTrue result ↔ (Op.InvokeVirtual member.now ≡ right.now) }
{
    match right {
        Op::InvokeVirtual(other) => *member == **other,
        _ => false,
    }
}

fn is_invoke_special(member: &MemberRef, right: &Op) -> bool
    ensures { IsTrue result ↔ (Op.InvokeSpecial member.now ≡ right.now) }
{
    match right {
        Op::InvokeSpecial(other) => *member == **other,
        _ => false,
    }
}

fn is_invoke_static(member: &MemberRef, right: &Op) -> bool
    ensures { IsTrue result ↔ (Op.InvokeStatic member.now ≡ right.now) }
{
    match right {
        Op::InvokeStatic(other) => *member == **other,
        _ => false,
    }
}

fn is_invoke_interface(member: &MemberRef, right: &Op) -> bool
    ensures { IsTrue result ↔ (Op.InvokeInterface member.now ≡ right.now) }
{
    match right {
        Op::InvokeInterface(other) => *member == **other,
        _ => false,
    }
}

fn is_new(class: &Name, right: &Op) -> bool
    ensures { IsTrue result ↔ (Op.New class.now ≡ right.now) }
{
    match right {
        Op::New(other) => class == other,
        _ => false,
    }
}

fn is_new_array(base: &Base, right: &Op) -> bool
    ensures { IsTrue result ↔ (Op.NewArray base.now ≡ right.now) }
{
    match right {
        Op::NewArray(other) => base == other,
        _ => false,
    }
}

fn is_a_new_array(ty: &FieldType, right: &Op) -> bool
    ensures { IsTrue result ↔ (Op.ANewArray ty.now ≡ right.now) }
{
    match right {
        Op::ANewArray(other) => *ty == **other,
        _ => false,
    }
}

fn is_array_length(right: &Op) -> bool
    ensures { IsTrue result ↔ (Op.ArrayLength ≡ right.now) }
{
    matches!(right, Op::ArrayLength)
}

fn is_throw(right: &Op) -> bool
    ensures { IsTrue result ↔ (Op.Throw ≡ right.now) }
{
    matches!(right, Op::Throw)
}

fn is_check_cast(ty: &FieldType, right: &Op) -> bool
    ensures { IsTrue result ↔ (Op.CheckCast ty.now ≡ right.now) }
{
    match right {
        Op::CheckCast(other) => *ty == **other,
        _ => false,
    }
}

fn is_instance_of(ty: &FieldType, right: &Op) -> bool
    ensures { IsTrue result ↔ (Op.InstanceOf ty.now ≡ right.now) }
{
    match right {
        Op::InstanceOf(other) => *ty == **other,
        _ => false,
    }
}

fn is_multi_new_array(ty: &FieldType, dims: u8, right: &Op) -> bool
    ensures { IsTrue result ↔ (Op.MultiNewArray ty.now dims ≡ right.now) }
{
    match right {
        Op::MultiNewArray(right_ty, right_dims) => *ty == **right_ty && dims == *right_dims,
        _ => false,
    }
}
