// Objects that no constructor was called on (JVMS 4.10.1.9.new, 4.10.1.9.invokespecial).
ghost use Rattle.std.specs.Prelude.{◌≡◌, IfOk, OnOk, option_copied};
ghost use Rattle.class_model.specs.Frames.{words_of_type};
ghost use Rattle.type_verifier.specs.Assignable.{is_assignable};
ghost use Rattle.type_verifier.specs.bodies.Changes.{AfterOr};
ghost use Rattle.type_verifier.specs.Effects.{class_made_at, object_made, made_class, new_initialised};
ghost use Rattle.type_verifier.specs.Effects.{object_initialised, ruled, substituted, this_initialised};
ghost use Rattle.type_verifier.specs.Environment.{own_type};
ghost use Rattle.type_verifier.specs.Members.{is_class_base, is_class_type, is_own_or_super};
ghost use Rattle.type_verifier.specs.Rules.{Makes};
ghost use Rattle.type_verifier.specs.bodies.Seen.{environment_of};

use crate::TypeKind;
use crate::assignability::assignable;
use crate::environment::Env;
use crate::frame::TypeFrame;
use crate::receivers::check_guard;
use crate::room::check_room;
use crate::types::class_type;
use class_model::{Code, Op, VType};
use jv_base::{Base, FieldType, M, Name, Or};

// ---- new

/// new, which is the instruction of this number.
pub(crate) fn make(env: &Env, frame: &mut TypeFrame, at: u32) -> Result<(), Or<TypeKind>>
    ensures { AfterOr result frame.new (ruled (environment_of env.now) at Makes frame.old) }
{
    check_room(env.code, frame, 0, 1)?;
    make_object(frame, at)
}

fn make_object(frame: &mut TypeFrame, at: u32) -> Result<(), Or<TypeKind>>
    ensures { AfterOr result frame.new (object_made at frame.old) }
{
    let new = VType::Uninit(at);
    if frame.stack.has_copy(&new) {
        return Err(Or::Fault(TypeKind::Uninit));
    }
    frame.locals.substitute(&new, &VType::Top)?;
    frame.stack.push(new)?;
    Ok(())
}

// ---- constructors

/// Whether a type is the class of this name.
pub(crate) fn is_class_type(name: &Name, ty: &FieldType) -> bool
    ensures { result ≡ is_class_type name.now ty.now }
{
    ty.dims == 0 && is_class(name, &ty.base)
}

fn is_class(name: &Name, base: &Base) -> bool
    ensures { result ≡ is_class_base name.now base.now }
{
    match base {
        Base::Class(other) => name == other,
        _ => false,
    }
}

/// Whether a type is the own class or its direct superclass.
fn is_own_or_super(env: &Env, ty: &FieldType) -> bool
    ensures { result ≡ is_own_or_super (environment_of env.now) ty.now }
{
    is_class_type(&env.class.name, ty) || is_class_type(&env.class.super_name, ty)
}

/// The class of what the instruction of a number makes.
fn class_made_at(code: &Code, at: u32) -> Option<&Name>
    ensures { option_copied result ≡ class_made_at code.now at }
{
    match code.ins.get(at as usize) {
        Some(ins) => made_class(&ins.op),
        None => None,
    }
}

fn made_class(op: &Op) -> Option<&Name>
    ensures { option_copied result ≡ made_class op.now }
{
    match op {
        Op::New(name) => Some(name),
        _ => None,
    }
}

/// Calls a constructor of a class on the object at the top of the stack.
pub(crate) fn initialise(
    env: &Env,
    frame: &mut TypeFrame,
    class: &FieldType,
    guarded: bool,
) -> Result<(), Or<TypeKind>>
    ensures { AfterOr result frame.new
        (object_initialised (environment_of env.now) class.now guarded frame.old frame.old.stack) }
{
    match frame.stack.pop() {
        Some(VType::UninitThis) => initialise_this(env, frame, class),
        Some(VType::Uninit(at)) => initialise_new(env, frame, at, class, guarded),
        _ => Err(Or::Fault(TypeKind::Operand)),
    }
}

/// Calls a constructor on `this`, which is taken from the stack.
fn initialise_this(env: &Env, frame: &mut TypeFrame, class: &FieldType) -> Result<(), Or<TypeKind>>
    ensures { AfterOr result frame.new (this_initialised (environment_of env.now) class.now frame.old frame.old.stack) }
{
    if !is_own_or_super(env, class) {
        return Err(Or::Fault(TypeKind::Uninit));
    }
    let own = env.own_type()?;
    substitute(frame, &VType::UninitThis, &own)?;
    frame.marked = false;
    Ok(())
}

/// Calls a constructor on what the new of a number made, which is taken from the stack.
fn initialise_new(
    env: &Env,
    frame: &mut TypeFrame,
    at: u32,
    class: &FieldType,
    guarded: bool,
) -> Result<(), Or<TypeKind>>
    ensures { AfterOr result frame.new (new_initialised (environment_of env.now) at class.now guarded
        (class_made_at env.now.code.now at) frame.old frame.old.stack) }
{
    let Some(name) = class_made_at(env.code, at) else {
        return Err(Or::Fault(TypeKind::Uninit));
    };
    let new = VType::Object(class_type(name)?);
    check_guard(env, guarded, &new)?;
    if !is_class_type(name, class) {
        return Err(Or::Fault(TypeKind::Uninit));
    }
    substitute(frame, &VType::Uninit(at), &new)?;
    Ok(())
}

/// Puts an object that is initialised in place of each copy of one that isn't.
fn substitute(frame: &mut TypeFrame, old: &VType, new: &VType) -> M<()>
    requires { words_of_type new.now ≡ 1 }
    ensures { OnOk result (frame.new ≡ record {
      locals = substituted old.now new.now frame.old.locals;
      stack = substituted old.now new.now frame.old.stack;
      marked = frame.old.marked;
    }) }
{
    frame.locals.substitute(old, new)?;
    frame.stack.substitute(old, new)
}

/// Whether a value is an object of the own class.
pub(crate) fn is_own_object(env: &Env, ty: &VType) -> M<bool>
    ensures { IfOk result (λ own. own ≡ is_assignable env.now.set.now ty.now (own_type (environment_of env.now))) }
{
    let own = env.own_type()?;
    Ok(assignable(env.set, ty, &own))
}
