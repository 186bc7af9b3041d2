// Instructions on fields (JVMS 4.10.1.9.getstatic to 4.10.1.9.putfield).
#![tactic(auto, using(crate::proofs::Ruling::no_rule))]

ghost use Rattle.std.specs.Prelude.{◌<◌, length};
ghost use Rattle.std.specs.Option.{option_map};
ghost use Rattle.type_verifier.specs.bodies.Changes.{AfterOr};
ghost use Rattle.type_verifier.specs.Effects.{if_ruled, ruled};
ghost use Rattle.type_verifier.specs.Rules.{field_read, field_type, field_write, static_read, static_write};
ghost use Rattle.type_verifier.specs.bodies.Seen.{environment_of};

use crate::TypeKind;
use crate::descriptors::field_type;
use crate::environment::Env;
use crate::frame::TypeFrame;
use crate::guards::{is_early_field, is_guarded_field};
use crate::operands::{compute, convert, take};
use crate::receivers::use_object;
use crate::room::check_room;
use crate::types::words_of;
use class_model::{MemberRef, VType};
use jv_base::Or;
use std::alloc::Global;

/// getstatic.
pub(crate) fn read_static(
    alloc: Global,
    env: &Env,
    frame: &mut TypeFrame,
    r: &MemberRef,
) -> Result<(), Or<TypeKind>>
    ensures { AfterOr result frame.new
        (if_ruled (environment_of env.now) 0 (option_map static_read (field_type r.now)) frame.old) }
{
    let ty = field_type(alloc, r)?;
    compute(env, frame, &[], Some(ty))
}

/// putstatic.
pub(crate) fn write_static(
    alloc: Global,
    env: &Env,
    frame: &mut TypeFrame,
    r: &MemberRef,
) -> Result<(), Or<TypeKind>>
    ensures { AfterOr result frame.new
        (if_ruled (environment_of env.now) 0 (option_map static_write (field_type r.now)) frame.old) }
{
    let ty = field_type(alloc, r)?;
    convert(env, frame, &ty, None)
}

/// getfield.
pub(crate) fn read_field(
    alloc: Global,
    env: &Env,
    frame: &mut TypeFrame,
    r: &MemberRef,
) -> Result<(), Or<TypeKind>>
    requires there { env.now.own < length env.now.set.now }
    ensures { AfterOr result frame.new
        (if_ruled (environment_of env.now) 0 (option_map (field_read (environment_of env.now) r.now) (field_type r.now))
        frame.old) }
{
    let ty = field_type(alloc, r)?;
    read_typed(env, frame, r, ty)
}

fn read_typed(
    env: &Env,
    frame: &mut TypeFrame,
    r: &MemberRef,
    ty: VType,
) -> Result<(), Or<TypeKind>>
    requires there { env.now.own < length env.now.set.now }
    ensures { AfterOr result frame.new
        (ruled (environment_of env.now) 0 (field_read (environment_of env.now) r.now ty) frame.old) }
{
    check_room(env.code, frame, 1, words_of(&ty))?;
    use_object(env, frame, &r.class, false, is_guarded_field(env, r))?;
    frame.stack.push(ty)?;
    Ok(())
}

/// putfield.
pub(crate) fn write_field(
    alloc: Global,
    env: &Env,
    frame: &mut TypeFrame,
    r: &MemberRef,
) -> Result<(), Or<TypeKind>>
    requires there { env.now.own < length env.now.set.now }
    ensures { AfterOr result frame.new
        (if_ruled (environment_of env.now) 0
        (option_map (field_write (environment_of env.now) r.now) (field_type r.now)) frame.old) }
{
    let ty = field_type(alloc, r)?;
    write_typed(env, frame, r, &ty)
}

fn write_typed(
    env: &Env,
    frame: &mut TypeFrame,
    r: &MemberRef,
    ty: &VType,
) -> Result<(), Or<TypeKind>>
    requires there { env.now.own < length env.now.set.now }
    ensures { AfterOr result frame.new
        (ruled (environment_of env.now) 0 (field_write (environment_of env.now) r.now ty.now) frame.old) }
{
    check_room(env.code, frame, words_of(ty) + 1, 0)?;
    take(env.set, frame, ty)?;
    use_object(
        env,
        frame,
        &r.class,
        is_early_field(env, r),
        is_guarded_field(env, r),
    )
}
