// Instructions on local variables (JVMS 4.10.1.7).
#![tactic(auto, unfolding(crate::specs::Assignable::is_assignable))]

ghost use Rattle.std.specs.Prelude.{◌≡◌, ◌≤◌};
ghost use Rattle.type_verifier.specs.bodies.Changes.{After, AfterOr};
ghost use Rattle.type_verifier.specs.Effects.{counted, loaded, ruled, stored};
ghost use Rattle.type_verifier.specs.Rules.{Counts, Loads, Stores, meets, moved};
ghost use Rattle.type_verifier.specs.bodies.Seen.{environment_of};

use crate::TypeKind;
use crate::environment::Env;
use crate::frame::TypeFrame;
use crate::hierarchy::Hierarchy;
use crate::room::{check_room, words_of_kind};
use crate::types::is_reference;
use class_model::{Kind, VType};
use jv_base::Or;

/// Whether an instruction on values of this kind moves a value.
fn is_moved(set: &Hierarchy, kind: Kind, ty: &VType) -> bool
    ensures { result ≡ meets set.now (moved kind) ty.now }
{
    match kind {
        Kind::Int => matches!(ty, VType::Int),
        Kind::Long => matches!(ty, VType::Long),
        Kind::Ref => is_reference(ty),
    }
}

/// Puts the value of a local onto the stack.
pub(crate) fn load(
    env: &Env,
    frame: &mut TypeFrame,
    kind: Kind,
    slot: u16,
) -> Result<(), Or<TypeKind>>
    ensures { AfterOr result frame.new (ruled (environment_of env.now) 0 (Loads kind slot) frame.old) }
{
    check_room(env.code, frame, 0, words_of_kind(kind))?;
    load_local(env.set, frame, kind, usize::from(slot))
}

fn load_local(
    set: &Hierarchy,
    frame: &mut TypeFrame,
    kind: Kind,
    slot: usize,
) -> Result<(), Or<TypeKind>>
    ensures { AfterOr result frame.new (loaded set.now kind slot frame.old) }
{
    let ty = match frame.locals.get(slot) {
        Some(ty) if is_moved(set, kind, ty) => ty.clone()?,
        _ => return Err(Or::Fault(TypeKind::Local)),
    };
    frame.stack.push(ty)?;
    Ok(())
}

/// Takes a value from the stack into a local.
pub(crate) fn store(
    env: &Env,
    frame: &mut TypeFrame,
    kind: Kind,
    slot: u16,
) -> Result<(), Or<TypeKind>>
    ensures { AfterOr result frame.new (ruled (environment_of env.now) 0 (Stores kind slot) frame.old) }
{
    check_room(env.code, frame, words_of_kind(kind), 0)?;
    store_local(env.set, frame, kind, usize::from(slot))?;
    Ok(())
}

fn store_local(
    set: &Hierarchy,
    frame: &mut TypeFrame,
    kind: Kind,
    slot: usize,
) -> Result<(), TypeKind>
    requires { slot ≤ 65535 }
    ensures { After result frame.new (stored set.now kind slot frame.old) }
{
    if frame.locals.len() < slot + words_of_kind(kind) {
        return Err(TypeKind::Local);
    }
    match frame.stack.pop() {
        Some(ty) if is_moved(set, kind, &ty) => {
            frame.locals.put(slot, ty);
            Ok(())
        }
        _ => Err(TypeKind::Operand),
    }
}

/// Adds to an int in a local.
pub(crate) fn count(env: &Env, frame: &mut TypeFrame, slot: u16) -> Result<(), Or<TypeKind>>
    ensures { AfterOr result frame.new (ruled (environment_of env.now) 0 (Counts slot) frame.old) }
{
    check_room(env.code, frame, 0, 0)?;
    match frame.locals.get(usize::from(slot)) {
        Some(VType::Int) => Ok(()),
        _ => Err(Or::Fault(TypeKind::Local)),
    }
}
