// The objects whose members instructions use (JVMS 4.10.1.8, 4.10.1.9.getfield, 4.10.1.9.invokevirtual).
#![tactic(auto, unfolding(crate::specs::Assignable::is_assignable))]

ghost use Rattle.std.specs.Prelude.{◌≡◌, if◌then◌else◌};
ghost use Rattle.jv_base.specs.Outcome.{IsDue};
ghost use Rattle.class_model.specs.declared.frame.VType.TheVariants as vtype;
ghost use Rattle.type_verifier.specs.Assignable.{is_assignable};
ghost use Rattle.type_verifier.specs.bodies.Changes.{AfterOr};
ghost use Rattle.type_verifier.specs.Effects.{guarded_use, used_from};
ghost use Rattle.type_verifier.specs.Rules.{Assignable, OrThis, meets};
ghost use Rattle.type_verifier.specs.bodies.Seen.{environment_of};

use crate::TypeKind;
use crate::assignability::fits_type;
use crate::environment::Env;
use crate::frame::TypeFrame;
use crate::hierarchy::Hierarchy;
use crate::objects::is_own_object;
use class_model::VType;
use jv_base::{FieldType, Or};

/// Takes the object whose member is used. Where it may be `this` before another constructor was called, that is said;
/// where the member is guarded, it is of the own class.
pub(crate) fn use_object(
    env: &Env,
    frame: &mut TypeFrame,
    class: &FieldType,
    or_this: bool,
    guarded: bool,
) -> Result<(), Or<TypeKind>>
    ensures { AfterOr result frame.new (used_from (environment_of env.now)
        (if or_this then OrThis class.now else Assignable (vtype.Object class.now)) guarded frame.old frame.old.stack) }
{
    match frame.stack.pop() {
        Some(ty) if is_receiver(env.set, class, or_this, &ty) => check_guard(env, guarded, &ty),
        _ => Err(Or::Fault(TypeKind::Operand)),
    }
}

fn is_receiver(set: &Hierarchy, class: &FieldType, or_this: bool, ty: &VType) -> bool
    ensures { result ≡ meets set.now (if or_this then OrThis class.now
        else Assignable (vtype.Object class.now)) ty.now }
{
    match ty {
        VType::UninitThis => or_this,
        _ => fits_type(set, ty, class),
    }
}

/// A value whose guarded member is used is an object of the own class.
pub(crate) fn check_guard(env: &Env, guarded: bool, ty: &VType) -> Result<(), Or<TypeKind>>
    ensures { IsDue result (guarded_use (environment_of env.now) guarded ty.now) }
{
    if guarded && !is_own_object(env, ty)? {
        return Err(Or::Fault(TypeKind::Protected));
    }
    Ok(())
}
