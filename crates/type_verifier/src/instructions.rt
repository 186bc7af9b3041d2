// The rule of each instruction, by families (JVMS 4.10.1.9).
#![tactic(auto, unfolding(crate::specs::Assignable::is_assignable))]

ghost use Rattle.std.specs.Prelude.{◌≡◌, ◌<◌, ◌∷◌, [], Some, length};
ghost use Rattle.std.specs.Option.{option_map_or};
ghost use Rattle.class_model.specs.declared.frame.VType.TheVariants as vtype;
ghost use Rattle.type_verifier.specs.bodies.Changes.{AfterOr};
ghost use Rattle.type_verifier.specs.Effects.{is_returned_by, result_taken, ruled, stepped, words_of_kind};
ghost use Rattle.type_verifier.specs.Rules.{Assignable, Returns, Takes, conversion, object, string};
ghost use Rattle.type_verifier.specs.bodies.Seen.{environment_of};

use crate::TypeKind;
use crate::arrays::{load_element, make_array, make_arrays, make_numbers, measure, store_element};
use crate::calls::{call_on_object, call_special, call_static};
use crate::descriptors::vtype_of;
use crate::environment::Env;
use crate::fields::{read_field, read_static, write_field, write_static};
use crate::frame::TypeFrame;
use crate::objects::make;
use crate::operands::{compute, convert, take, take_references};
use crate::room::{check_room, words_of_kind};
use crate::types::number;
use crate::variables::{count, load, store};
use crate::words::{Words, double_words, drop_words, swap_words};
use class_model::{ConvOp, Kind, Num, Op, VType};
use jv_base::{FieldType, Or};
use std::alloc::Global;

/// Does what an instruction, which has this number, makes of a frame, or tells the first fault of its rule.
#[tactic(auto, unfolding(crate::specs::Rules::rule_of))]
pub(crate) fn step(
    alloc: Global,
    env: &Env,
    frame: &mut TypeFrame,
    at: u32,
    op: &Op,
) -> Result<(), Or<TypeKind>>
    requires there { env.now.own < length env.now.set.now }
    ensures { AfterOr result frame.new (stepped (environment_of env.now) at op.now frame.old) }
{
    match op {
        Op::Nop | Op::Goto(_) => compute(env, frame, &[], None),
        Op::PushNull => compute(env, frame, &[], Some(VType::Null)),
        Op::PushInt(_) => compute(env, frame, &[], Some(VType::Int)),
        Op::PushLong(_) => compute(env, frame, &[], Some(VType::Long)),
        Op::PushText(_) => push_text(env, frame),
        Op::Load(kind, slot) => load(env, frame, *kind, *slot),
        Op::Store(kind, slot) => store(env, frame, *kind, *slot),
        Op::Inc(slot, _) => count(env, frame, *slot),
        Op::ALoad(elem) => load_element(env, frame, *elem),
        Op::AStore(elem) => store_element(env, frame, *elem),
        Op::Pop => drop_words(env, frame, Words::One),
        Op::Pop2 => drop_words(env, frame, Words::Two),
        Op::Dup => double_words(env, frame, Words::One, Words::Zero),
        Op::DupX1 => double_words(env, frame, Words::One, Words::One),
        Op::DupX2 => double_words(env, frame, Words::One, Words::Two),
        Op::Dup2 => double_words(env, frame, Words::Two, Words::Zero),
        Op::Dup2X1 => double_words(env, frame, Words::Two, Words::One),
        Op::Dup2X2 => double_words(env, frame, Words::Two, Words::Two),
        Op::Swap => swap_words(env, frame),
        Op::Arith(_, num) | Op::Logic(_, num) => {
            compute(env, frame, &[*num, *num], Some(number(*num)))
        }
        Op::Neg(num) => compute(env, frame, &[*num], Some(number(*num))),
        Op::Shift(_, num) => compute(env, frame, &[Num::Int, *num], Some(number(*num))),
        Op::Conv(conversion) => convert_number(env, frame, *conversion),
        Op::LCmp => compute(env, frame, &[Num::Long, Num::Long], Some(VType::Int)),
        Op::IfZero(_, _) | Op::TableSwitch { .. } | Op::LookupSwitch { .. } => {
            compute(env, frame, &[Num::Int], None)
        }
        Op::IfCmp(_, _) => compute(env, frame, &[Num::Int, Num::Int], None),
        Op::IfRef { .. } => take_references(env, frame, true),
        Op::IfNull { .. } => take_references(env, frame, false),
        Op::Return(kind) => leave(env, frame, *kind),
        Op::GetStatic(r) => read_static(alloc, env, frame, r),
        Op::PutStatic(r) => write_static(alloc, env, frame, r),
        Op::GetField(r) => read_field(alloc, env, frame, r),
        Op::PutField(r) => write_field(alloc, env, frame, r),
        Op::InvokeVirtual(r) | Op::InvokeInterface(r) => call_on_object(alloc, env, frame, r),
        Op::InvokeSpecial(r) => call_special(alloc, env, frame, r),
        Op::InvokeStatic(r) => call_static(alloc, env, frame, r),
        Op::New(_) => make(env, frame, at),
        Op::NewArray(base) => make_numbers(env, frame, base),
        Op::ANewArray(ty) => make_array(env, frame, ty),
        Op::ArrayLength => measure(env, frame),
        Op::Throw => convert(env, frame, env.known.throwable(), None),
        Op::CheckCast(ty) => cast(env, frame, ty),
        Op::InstanceOf(_) => convert(env, frame, env.known.object(), Some(VType::Int)),
        Op::MultiNewArray(ty, dimensions) => make_arrays(env, frame, ty, *dimensions),
    }
}

/// ldc of a string.
fn push_text(env: &Env, frame: &mut TypeFrame) -> Result<(), Or<TypeKind>>
    ensures { AfterOr result frame.new (ruled (environment_of env.now) 0 (Takes [] (Some string)) frame.old) }
{
    let text = env.known.string().clone()?;
    compute(env, frame, &[], Some(text))
}

/// i2l and those like it.
fn convert_number(env: &Env, frame: &mut TypeFrame, op: ConvOp) -> Result<(), Or<TypeKind>>
    ensures { AfterOr result frame.new (ruled (environment_of env.now) 0 (conversion op) frame.old) }
{
    match op {
        ConvOp::I2l => compute(env, frame, &[Num::Int], Some(VType::Long)),
        ConvOp::L2i => compute(env, frame, &[Num::Long], Some(VType::Int)),
        _ => compute(env, frame, &[Num::Int], Some(VType::Int)),
    }
}

/// checkcast.
fn cast(env: &Env, frame: &mut TypeFrame, ty: &FieldType) -> Result<(), Or<TypeKind>>
    ensures { AfterOr result frame.new
        (ruled (environment_of env.now) 0 (Takes (Assignable object ∷ []) (Some (vtype.Object ty.now))) frame.old) }
{
    let given = VType::Object(ty.clone()?);
    convert(env, frame, env.known.object(), Some(given))
}

// ---- returning

/// return and those like it.
fn leave(env: &Env, frame: &mut TypeFrame, kind: Option<Kind>) -> Result<(), Or<TypeKind>>
    ensures { AfterOr result frame.new (ruled (environment_of env.now) 0 (Returns kind) frame.old) }
{
    check_room(env.code, frame, words_returned(kind), 0)?;
    take_result(env, frame, kind)?;
    if env.is_in_constructor() && frame.marked {
        return Err(Or::Fault(TypeKind::Uninit));
    }
    Ok(())
}

fn words_returned(kind: Option<Kind>) -> usize
    ensures { result ≡ option_map_or words_of_kind kind 0 }
{
    match kind {
        Some(kind) => words_of_kind(kind),
        None => 0,
    }
}

/// Takes a value of the method's result, or none where it has none.
fn take_result(env: &Env, frame: &mut TypeFrame, kind: Option<Kind>) -> Result<(), Or<TypeKind>>
    ensures { AfterOr result frame.new
        (result_taken (environment_of env.now) kind env.now.method.now.ty.ret frame.old) }
{
    match (kind, &env.method.ty.ret) {
        (None, None) => Ok(()),
        (Some(kind), Some(ty)) => take_typed_result(env, frame, kind, ty),
        _ => Err(Or::Fault(TypeKind::Operand)),
    }
}

fn take_typed_result(
    env: &Env,
    frame: &mut TypeFrame,
    kind: Kind,
    ty: &FieldType,
) -> Result<(), Or<TypeKind>>
    ensures { AfterOr result frame.new (result_taken (environment_of env.now) (Some kind) (Some ty.now) frame.old) }
{
    let wanted = vtype_of(ty)?;
    if !is_returned_by(kind, &wanted) {
        return Err(Or::Fault(TypeKind::Operand));
    }
    take(env.set, frame, &wanted)?;
    Ok(())
}

fn is_returned_by(kind: Kind, ty: &VType) -> bool
    ensures { result ≡ is_returned_by kind ty.now }
{
    matches!(
        (kind, ty),
        (Kind::Int, VType::Int) | (Kind::Long, VType::Long) | (Kind::Ref, VType::Object(_))
    )
}
