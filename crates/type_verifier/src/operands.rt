// What instructions take from the stack and put onto it (JVMS 4.10.1.4, 4.10.1.9).
#![tactic(auto, unfolding(crate::specs::Assignable::is_assignable))]

ghost use Rattle.std.specs.Prelude.{◌≡◌, ◌∷◌, [], None, OnOk, if◌then◌else◌, map};
ghost use Rattle.class_model.specs.declared.frame.VType.TheVariants as vtype;
ghost use Rattle.type_verifier.specs.bodies.Changes.{After, AfterOr};
ghost use Rattle.type_verifier.specs.Effects.{all_popped, gives, popped, ruled};
ghost use Rattle.type_verifier.specs.Rules.{AnyArray, Assignable, Reference, SmallArray, Takes, is_array};
ghost use Rattle.type_verifier.specs.Rules.{is_small_array};
ghost use Rattle.type_verifier.specs.Rules.{meets, wanted_number};
ghost use Rattle.type_verifier.specs.bodies.Seen.{environment_of};

use crate::TypeKind;
use crate::assignability::assignable;
use crate::environment::Env;
use crate::frame::TypeFrame;
use crate::hierarchy::Hierarchy;
use crate::room::{check_room, words_given, words_of_numbers};
use crate::types::{is_reference, words_of};
use class_model::{Num, VType};
use jv_base::{Base, FieldType, M, Or};

// ---- one value

/// Takes a value that fits where this type is wanted.
pub(crate) fn take(set: &Hierarchy, frame: &mut TypeFrame, to: &VType) -> Result<(), TypeKind>
    ensures { After result frame.new (popped set.now (Assignable to.now) frame.old) }
{
    match frame.stack.pop() {
        Some(ty) if assignable(set, &ty, to) => Ok(()),
        _ => Err(TypeKind::Operand),
    }
}

/// Takes an int or a long.
pub(crate) fn take_number(set: &Hierarchy, frame: &mut TypeFrame, num: Num) -> Result<(), TypeKind>
    ensures { After result frame.new (popped set.now (wanted_number num) frame.old) }
{
    match (num, frame.stack.pop()) {
        (Num::Int, Some(VType::Int)) | (Num::Long, Some(VType::Long)) => Ok(()),
        _ => Err(TypeKind::Operand),
    }
}

/// Takes a reference, initialised or not.
pub(crate) fn take_reference(set: &Hierarchy, frame: &mut TypeFrame) -> Result<(), TypeKind>
    ensures { After result frame.new (popped set.now Reference frame.old) }
{
    match frame.stack.pop() {
        Some(ty) if is_reference(&ty) => Ok(()),
        _ => Err(TypeKind::Operand),
    }
}

/// Takes an array, or null.
pub(crate) fn take_array(set: &Hierarchy, frame: &mut TypeFrame) -> Result<(), TypeKind>
    ensures { After result frame.new (popped set.now AnyArray frame.old) }
{
    match frame.stack.pop() {
        Some(VType::Null) => Ok(()),
        Some(VType::Object(ty)) if ty.dims != 0 => Ok(()),
        _ => Err(TypeKind::Operand),
    }
}

/// Takes an array of bytes or booleans, or null.
pub(crate) fn take_small_array(set: &Hierarchy, frame: &mut TypeFrame) -> Result<(), TypeKind>
    ensures { After result frame.new (popped set.now SmallArray frame.old) }
{
    match frame.stack.pop() {
        Some(VType::Null) => Ok(()),
        Some(VType::Object(ty)) if is_small_array(&ty) => Ok(()),
        _ => Err(TypeKind::Operand),
    }
}

fn is_small_array(ty: &FieldType) -> bool
    ensures { result ≡ is_small_array ty.now }
{
    ty.dims == 1 && matches!(ty.base, Base::Byte | Base::Boolean)
}

/// Puts a value onto the stack, if there is one.
pub(crate) fn give(frame: &mut TypeFrame, given: Option<VType>) -> M<()>
    ensures { OnOk result (frame.new ≡ gives given frame.old) }
{
    match given {
        Some(ty) => frame.stack.push(ty),
        None => Ok(()),
    }
}

// ---- several values

/// Takes ints and longs.
fn take_numbers(set: &Hierarchy, frame: &mut TypeFrame, nums: &[Num]) -> Result<(), TypeKind>
    ensures { After result frame.new (all_popped set.now (map wanted_number nums.now) frame.old) }
{
    for num in nums {
        take_number(set, frame, *num)?;
    }
    Ok(())
}

/// Of ints and longs, the top first, another value.
pub(crate) fn compute(
    env: &Env,
    frame: &mut TypeFrame,
    nums: &[Num],
    given: Option<VType>,
) -> Result<(), Or<TypeKind>>
    ensures { AfterOr result frame.new
        (ruled (environment_of env.now) 0 (Takes (map wanted_number nums.now) given) frame.old) }
{
    check_room(
        env.code,
        frame,
        words_of_numbers(nums)?,
        words_given(&given),
    )?;
    take_numbers(env.set, frame, nums)?;
    give(frame, given)?;
    Ok(())
}

/// Takes one reference, or two.
pub(crate) fn take_references(
    env: &Env,
    frame: &mut TypeFrame,
    two: bool,
) -> Result<(), Or<TypeKind>>
    ensures { AfterOr result frame.new
        (ruled (environment_of env.now) 0 (Takes (if two then Reference ∷ Reference ∷ [] else Reference ∷ []) None)
        frame.old) }
{
    let words = if two { 2 } else { 1 };
    check_room(env.code, frame, words, 0)?;
    if two {
        take_reference(env.set, frame)?;
    }
    take_reference(env.set, frame)?;
    Ok(())
}

/// Of one value that fits a type another one, or none.
pub(crate) fn convert(
    env: &Env,
    frame: &mut TypeFrame,
    to: &VType,
    given: Option<VType>,
) -> Result<(), Or<TypeKind>>
    ensures { AfterOr result frame.new
        (ruled (environment_of env.now) 0 (Takes (Assignable to.now ∷ []) given) frame.old) }
{
    check_room(env.code, frame, words_of(to), words_given(&given))?;
    take(env.set, frame, to)?;
    give(frame, given)?;
    Ok(())
}
