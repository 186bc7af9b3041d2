// Instructions that call methods (JVMS 4.10.1.9.invokevirtual to 4.10.1.9.invokeinterface).
#![tactic(auto, using(crate::proofs::Ruling::no_rule), unfolding(crate::specs::Assignable::is_assignable))]

ghost use Rattle.std.specs.Prelude.{◌≡◌, ◌<◌, ◌+◌, false, IfOk, OnOk, length};
ghost use Rattle.std.specs.Option.{option_map};
ghost use Rattle.class_model.specs.Frames.{vtype_of, words_of_type};
ghost use Rattle.class_model.specs.declared.frame.VType.TheVariants as vtype;
ghost use Rattle.type_verifier.specs.bodies.Changes.{After, AfterOr};
ghost use Rattle.type_verifier.specs.Effects.{all_popped, all_words_wanted, gives, if_ruled, popped, ruled};
ghost use Rattle.type_verifier.specs.Effects.{used_from, words_given};
ghost use Rattle.type_verifier.specs.Environment.{own_type};
ghost use Rattle.type_verifier.specs.Members.{is_guarded_method};
ghost use Rattle.type_verifier.specs.Rules.{Assignable, Initialises, Uses, arguments, method_type, object_call};
ghost use Rattle.type_verifier.specs.Rules.{returned};
ghost use Rattle.type_verifier.specs.Rules.{special_call, static_call, wanted_arguments};
ghost use Rattle.type_verifier.specs.bodies.Seen.{environment_of};

use crate::TypeKind;
use crate::assignability::fits_type;
use crate::descriptors::{method_type, returned};
use crate::environment::Env;
use crate::frame::TypeFrame;
use crate::guards::is_guarded_method;
use crate::hierarchy::Hierarchy;
use crate::objects::initialise;
use crate::operands::{give, take, take_number};
use crate::receivers::use_object;
use crate::room::{check_room, plus};
use class_model::{MemberRef, Num};
use jv_base::{Base, FieldType, M, MethodType, Or};
use std::alloc::Global;

// ---- instructions

/// invokestatic.
pub(crate) fn call_static(
    alloc: Global,
    env: &Env,
    frame: &mut TypeFrame,
    r: &MemberRef,
) -> Result<(), Or<TypeKind>>
    ensures { AfterOr result frame.new
        (if_ruled (environment_of env.now) 0 (option_map static_call (method_type r.now)) frame.old) }
{
    let ty = method_type(alloc, r)?;
    call_typed_static(env, frame, &ty)
}

fn call_typed_static(env: &Env, frame: &mut TypeFrame, ty: &MethodType) -> Result<(), Or<TypeKind>>
    ensures { AfterOr result frame.new (ruled (environment_of env.now) 0 (static_call ty.now) frame.old) }
{
    let taken = words_of_arguments(ty.args.as_slice())?;
    check_room(env.code, frame, taken, words_of_result(ty))?;
    take_arguments(env.set, frame, ty.args.as_slice())?;
    give_result(frame, ty)?;
    Ok(())
}

/// invokevirtual and invokeinterface.
pub(crate) fn call_on_object(
    alloc: Global,
    env: &Env,
    frame: &mut TypeFrame,
    r: &MemberRef,
) -> Result<(), Or<TypeKind>>
    requires there { env.now.own < length env.now.set.now }
    ensures { AfterOr result frame.new
        (if_ruled (environment_of env.now) 0
        (option_map (object_call (environment_of env.now) r.now) (method_type r.now)) frame.old) }
{
    let ty = method_type(alloc, r)?;
    call_typed(env, frame, r, &ty)
}

fn call_typed(
    env: &Env,
    frame: &mut TypeFrame,
    r: &MemberRef,
    ty: &MethodType,
) -> Result<(), Or<TypeKind>>
    requires there { env.now.own < length env.now.set.now }
    ensures { AfterOr result frame.new
        (ruled (environment_of env.now) 0 (object_call (environment_of env.now) r.now ty.now) frame.old) }
{
    let taken = words_with_object(ty.args.as_slice())?;
    check_room(env.code, frame, taken, words_of_result(ty))?;
    take_arguments(env.set, frame, ty.args.as_slice())?;
    use_object(env, frame, &r.class, false, is_guarded_method(env, r))?;
    give_result(frame, ty)?;
    Ok(())
}

/// invokespecial.
pub(crate) fn call_special(
    alloc: Global,
    env: &Env,
    frame: &mut TypeFrame,
    r: &MemberRef,
) -> Result<(), Or<TypeKind>>
    requires there { env.now.own < length env.now.set.now }
    ensures { AfterOr result frame.new
        (if_ruled (environment_of env.now) 0
        (option_map (special_call (environment_of env.now) r.now) (method_type r.now)) frame.old) }
{
    let ty = method_type(alloc, r)?;
    call_typed_special(env, frame, r, &ty)
}

fn call_typed_special(
    env: &Env,
    frame: &mut TypeFrame,
    r: &MemberRef,
    ty: &MethodType,
) -> Result<(), Or<TypeKind>>
    requires there { env.now.own < length env.now.set.now }
    ensures { AfterOr result frame.new
        (ruled (environment_of env.now) 0 (special_call (environment_of env.now) r.now ty.now) frame.old) }
{
    if r.name.as_str() == "<init>" {
        call_constructor(env, frame, r, ty)
    } else {
        call_own(env, frame, ty)
    }
}

fn call_constructor(
    env: &Env,
    frame: &mut TypeFrame,
    r: &MemberRef,
    ty: &MethodType,
) -> Result<(), Or<TypeKind>>
    requires there { env.now.own < length env.now.set.now }
    ensures { AfterOr result frame.new (ruled (environment_of env.now) 0
        (Initialises (arguments ty.now) r.now.class (is_guarded_method (environment_of env.now) r.now)) frame.old) }
{
    check_room(env.code, frame, words_with_object(ty.args.as_slice())?, 0)?;
    take_arguments(env.set, frame, ty.args.as_slice())?;
    initialise(env, frame, &r.class, is_guarded_method(env, r))
}

/// Calls a method that is no constructor on an object of the own class.
fn call_own(env: &Env, frame: &mut TypeFrame, ty: &MethodType) -> Result<(), Or<TypeKind>>
    ensures { AfterOr result frame.new (ruled (environment_of env.now) 0
        (Uses (arguments ty.now) (Assignable (own_type (environment_of env.now))) false (returned ty.now)) frame.old) }
{
    let taken = words_with_object(ty.args.as_slice())?;
    check_room(env.code, frame, taken, words_of_result(ty))?;
    take_arguments(env.set, frame, ty.args.as_slice())?;
    take_own(env, frame)?;
    give_result(frame, ty)?;
    Ok(())
}

fn take_own(env: &Env, frame: &mut TypeFrame) -> Result<(), Or<TypeKind>>
    ensures { AfterOr result frame.new
        (used_from (environment_of env.now) (Assignable (own_type (environment_of env.now))) false frame.old
        frame.old.stack) }
{
    let own = env.own_type()?;
    take(env.set, frame, &own)?;
    Ok(())
}

// ---- results

/// How many words the result takes, if there is one.
fn words_of_result(ty: &MethodType) -> usize
    ensures { result ≡ words_given (returned ty.now) }
{
    match &ty.ret {
        Some(ret) => words_of_value(ret),
        None => 0,
    }
}

/// Puts the result onto the stack, if there is one.
fn give_result(frame: &mut TypeFrame, ty: &MethodType) -> M<()>
    ensures { OnOk result (frame.new ≡ gives (returned ty.now) frame.old) }
{
    let given = returned(ty)?;
    give(frame, given)
}

// ---- arguments

/// Takes the arguments of these types, the last first.
fn take_arguments(
    set: &Hierarchy,
    frame: &mut TypeFrame,
    types: &[FieldType],
) -> Result<(), TypeKind>
    ensures { After result frame.new (all_popped set.now (wanted_arguments types.now) frame.old) }
{
    let mut left = types.len();
    while left > 0 {
        left -= 1;
        take_argument(set, frame, &types[left])?;
    }
    Ok(())
}

fn take_argument(set: &Hierarchy, frame: &mut TypeFrame, ty: &FieldType) -> Result<(), TypeKind>
    ensures { After result frame.new (popped set.now (Assignable (vtype_of ty.now)) frame.old) }
{
    if ty.dims != 0 {
        return take_object(set, frame, ty);
    }
    match ty.base {
        Base::Long => take_number(set, frame, Num::Long),
        Base::Float | Base::Double => take_any(set, frame),
        Base::Class(_) => take_object(set, frame, ty),
        _ => take_number(set, frame, Num::Int),
    }
}

fn take_object(set: &Hierarchy, frame: &mut TypeFrame, ty: &FieldType) -> Result<(), TypeKind>
    ensures { After result frame.new (popped set.now (Assignable (vtype.Object ty.now)) frame.old) }
{
    match frame.stack.pop() {
        Some(from) if fits_type(set, &from, ty) => Ok(()),
        _ => Err(TypeKind::Operand),
    }
}

/// Takes a value of any type. A float and a double stand for none: no set with them is taken.
fn take_any(set: &Hierarchy, frame: &mut TypeFrame) -> Result<(), TypeKind>
    ensures { After result frame.new (popped set.now (Assignable vtype.Top) frame.old) }
{
    match frame.stack.pop() {
        Some(_) => Ok(()),
        None => Err(TypeKind::Operand),
    }
}

/// How many words the arguments take. No descriptor has so many that they aren't counted.
fn words_of_arguments(types: &[FieldType]) -> M<usize>
    ensures { IfOk result (λ words. words ≡ all_words_wanted (wanted_arguments types.now)) }
{
    let mut words = 0usize;
    for ty in types {
        words = plus(words, words_of_value(ty))?;
    }
    Ok(words)
}

/// The same with one for the object on which a method is called.
fn words_with_object(types: &[FieldType]) -> M<usize>
    ensures { IfOk result (λ words. words ≡ all_words_wanted (wanted_arguments types.now) + 1) }
{
    plus(words_of_arguments(types)?, 1)
}

/// How many words a value of a type takes.
fn words_of_value(ty: &FieldType) -> usize
    ensures { result ≡ words_of_type (vtype_of ty.now) }
{
    if ty.dims == 0 && matches!(ty.base, Base::Long) {
        2
    } else {
        1
    }
}
