// Instructions on arrays (JVMS 4.10.1.9.iaload to 4.10.1.9.aastore, 4.10.1.9.newarray, 4.10.1.9.arraylength).
ghost use Rattle.std.specs.Prelude.{◌≡◌, ◌≤◌, ◌∷◌, [], None, Some, IfOk, replicate};
ghost use Rattle.class_model.specs.Frames.{words_of_type};
ghost use Rattle.class_model.specs.declared.frame.VType.TheVariants as vtype;
ghost use Rattle.type_verifier.specs.bodies.Changes.{After, AfterOr};
ghost use Rattle.type_verifier.specs.Effects.{all_popped, element, popped, read_from, ruled};
ghost use Rattle.type_verifier.specs.Rules.{AnyArray, Assignable, ReadsReference, Takes, array_load, array_of};
ghost use Rattle.type_verifier.specs.Rules.{array_of_base};
ghost use Rattle.type_verifier.specs.Rules.{array_store, array_wanted, element_moved, number};
ghost use Rattle.type_verifier.specs.bodies.Seen.{environment_of};

use crate::TypeKind;
use crate::assignability::assignable;
use crate::environment::Env;
use crate::frame::TypeFrame;
use crate::hierarchy::Hierarchy;
use crate::operands::{compute, take, take_array, take_number, take_small_array};
use crate::room::check_room;
use crate::types::{number, words_of};
use class_model::{Elem, Num, VType};
use jv_base::{Base, FieldType, M, Or, OutOfMemory};

// ---- types

/// An array with one dimension more. No type that is read has so many that there is none.
fn array_of(ty: &FieldType) -> M<VType>
    ensures { IfOk result (λ array. array ≡ array_of ty.now) }
{
    let Some(dims) = ty.dims.checked_add(1) else {
        return Err(OutOfMemory);
    };
    Ok(VType::Object(FieldType {
        dims,
        base: ty.base.clone()?,
    }))
}

/// The type of the elements of an array; of null it is null.
fn element(ty: VType) -> VType
    ensures { result ≡ element ty }
{
    match ty {
        VType::Object(FieldType { dims, base }) => VType::Object(FieldType {
            dims: dims.saturating_sub(1),
            base,
        }),
        _ => VType::Null,
    }
}

fn words_of_element(elem: Elem) -> usize
    ensures { result ≡ words_of_type (element_moved elem) }
{
    match elem {
        Elem::Long => 2,
        _ => 1,
    }
}

// ---- elements

/// Takes an array of such elements.
fn take_array_of(env: &Env, frame: &mut TypeFrame, elem: Elem) -> Result<(), TypeKind>
    ensures { After result frame.new (popped env.now.set.now (array_wanted elem) frame.old) }
{
    let known = env.known;
    match elem {
        Elem::Int => take(env.set, frame, known.ints()),
        Elem::Long => take(env.set, frame, known.longs()),
        Elem::Char => take(env.set, frame, known.chars()),
        Elem::Short => take(env.set, frame, known.shorts()),
        Elem::Byte => take_small_array(env.set, frame),
        Elem::Ref => take(env.set, frame, known.objects()),
    }
}

/// Takes what is written to such an array.
fn take_element(env: &Env, frame: &mut TypeFrame, elem: Elem) -> Result<(), TypeKind>
    ensures { After result frame.new (popped env.now.set.now (Assignable (element_moved elem)) frame.old) }
{
    match elem {
        Elem::Ref => take(env.set, frame, env.known.object()),
        Elem::Long => take_number(env.set, frame, Num::Long),
        _ => take_number(env.set, frame, Num::Int),
    }
}

/// iaload and those like it.
pub(crate) fn load_element(env: &Env, frame: &mut TypeFrame, elem: Elem) -> Result<(), Or<TypeKind>>
    ensures { AfterOr result frame.new (ruled (environment_of env.now) 0 (array_load elem) frame.old) }
{
    match elem {
        Elem::Ref => load_reference(env, frame),
        Elem::Long => load_number(env, frame, elem, Num::Long),
        _ => load_number(env, frame, elem, Num::Int),
    }
}

fn load_number(env: &Env, frame: &mut TypeFrame, elem: Elem, num: Num) -> Result<(), Or<TypeKind>>
    ensures { AfterOr result frame.new
        (ruled (environment_of env.now) 0 (Takes (Assignable vtype.Int ∷ array_wanted elem ∷ []) (Some (number num)))
        frame.old) }
{
    check_room(env.code, frame, 2, words_of(&number(num)))?;
    take_number(env.set, frame, Num::Int)?;
    take_array_of(env, frame, elem)?;
    frame.stack.push(number(num))?;
    Ok(())
}

/// aaload.
fn load_reference(env: &Env, frame: &mut TypeFrame) -> Result<(), Or<TypeKind>>
    ensures { AfterOr result frame.new (ruled (environment_of env.now) 0 ReadsReference frame.old) }
{
    check_room(env.code, frame, 2, 1)?;
    take_number(env.set, frame, Num::Int)?;
    read_element(env, frame)
}

fn read_element(env: &Env, frame: &mut TypeFrame) -> Result<(), Or<TypeKind>>
    ensures { AfterOr result frame.new (read_from env.now.set.now frame.old frame.old.stack) }
{
    match frame.stack.pop() {
        Some(ty) if assignable(env.set, &ty, env.known.objects()) => {
            frame.stack.push(element(ty))?;
            Ok(())
        }
        _ => Err(Or::Fault(TypeKind::Operand)),
    }
}

/// iastore and those like it.
pub(crate) fn store_element(
    env: &Env,
    frame: &mut TypeFrame,
    elem: Elem,
) -> Result<(), Or<TypeKind>>
    ensures { AfterOr result frame.new (ruled (environment_of env.now) 0 (array_store elem) frame.old) }
{
    check_room(env.code, frame, words_of_element(elem) + 2, 0)?;
    take_element(env, frame, elem)?;
    take_number(env.set, frame, Num::Int)?;
    take_array_of(env, frame, elem)?;
    Ok(())
}

// ---- whole arrays

/// newarray: an array of numbers.
pub(crate) fn make_numbers(
    env: &Env,
    frame: &mut TypeFrame,
    base: &Base,
) -> Result<(), Or<TypeKind>>
    ensures { AfterOr result frame.new
        (ruled (environment_of env.now) 0 (Takes (Assignable vtype.Int ∷ []) (Some (array_of_base base.now)))
        frame.old) }
{
    let array = VType::Object(FieldType {
        dims: 1,
        base: base.clone()?,
    });
    compute(env, frame, &[Num::Int], Some(array))
}

/// anewarray: an array of these.
pub(crate) fn make_array(
    env: &Env,
    frame: &mut TypeFrame,
    ty: &FieldType,
) -> Result<(), Or<TypeKind>>
    ensures { AfterOr result frame.new
        (ruled (environment_of env.now) 0 (Takes (Assignable vtype.Int ∷ []) (Some (array_of ty.now))) frame.old) }
{
    let array = array_of(ty)?;
    compute(env, frame, &[Num::Int], Some(array))
}

/// multianewarray: an array, some of whose dimensions are made.
pub(crate) fn make_arrays(
    env: &Env,
    frame: &mut TypeFrame,
    ty: &FieldType,
    dimensions: u8,
) -> Result<(), Or<TypeKind>>
    ensures { AfterOr result frame.new (ruled (environment_of env.now) 0
        (Takes (replicate dimensions (Assignable vtype.Int)) (Some (vtype.Object ty.now))) frame.old) }
{
    check_room(env.code, frame, usize::from(dimensions), 1)?;
    take_ints(env.set, frame, dimensions)?;
    let array = VType::Object(ty.clone()?);
    frame.stack.push(array)?;
    Ok(())
}

/// Takes so many ints.
fn take_ints(set: &Hierarchy, frame: &mut TypeFrame, count: u8) -> Result<(), TypeKind>
    ensures { After result frame.new (all_popped set.now (replicate count (Assignable vtype.Int)) frame.old) }
{
    for _ in 0..count {
        take_number(set, frame, Num::Int)?;
    }
    Ok(())
}

/// arraylength.
pub(crate) fn measure(env: &Env, frame: &mut TypeFrame) -> Result<(), Or<TypeKind>>
    ensures { AfterOr result frame.new
        (ruled (environment_of env.now) 0 (Takes (AnyArray ∷ []) (Some vtype.Int)) frame.old) }
{
    check_room(env.code, frame, 1, 1)?;
    take_array(env.set, frame)?;
    frame.stack.push(VType::Int)?;
    Ok(())
}
