// Verification types (JVMS 4.10.1.2).
ghost use Rattle.std.specs.Prelude.{◌≡◌, IfOk, OnOk, if◌then◌else◌};
ghost use Rattle.std.specs.List.{list_any};
ghost use Rattle.class_model.specs.Frames.{words_of_type, words_of_types};
ghost use Rattle.type_verifier.specs.Assignable.{class_type, is_reference};
ghost use Rattle.type_verifier.specs.Frames.{is_uninit_this};
ghost use Rattle.type_verifier.specs.Rules.{number};
ghost use Rattle.type_verifier.specs.Effects.{is_category_1, is_copy, substituted};

use class_model::{Num, VType};
use jv_base::{Base, FieldType, M, Name};

/// How many words a type takes.
pub(crate) fn words_of(ty: &VType) -> usize
    ensures { result ≡ words_of_type ty.now }
{
    usize::from(ty.words())
}

/// A type of one word, but for Top.
pub(crate) fn is_category_1(ty: &VType) -> bool
    ensures { result ≡ is_category_1 ty.now }
{
    !matches!(ty, VType::Top | VType::Long)
}

/// A reference, initialised or not.
pub(crate) fn is_reference(ty: &VType) -> bool
    ensures { result ≡ is_reference ty.now }
{
    matches!(
        ty,
        VType::Null | VType::UninitThis | VType::Object(_) | VType::Uninit(_)
    )
}

pub(crate) fn is_uninit_this(ty: &VType) -> bool
    ensures { result ≡ is_uninit_this ty.now }
{
    matches!(ty, VType::UninitThis)
}

/// Whether both are the same object that isn't initialised.
pub(crate) fn is_copy(old: &VType, ty: &VType) -> bool
    ensures { result ≡ is_copy old.now ty.now }
{
    match (old, ty) {
        (VType::UninitThis, VType::UninitThis) => true,
        (VType::Uninit(one), VType::Uninit(other)) => one == other,
        _ => false,
    }
}

/// Whether some type is such an object.
pub(crate) fn has_copy(types: &[VType], old: &VType) -> bool
    ensures { result ≡ list_any (is_copy old.now) types.now }
{
    types.iter().any(|ty| is_copy(old, ty))
}

/// Puts another type in place of each such object. Where that takes one word, the words stay as they are, also where
/// memory is wanting.
pub(crate) fn substitute(types: &mut [VType], old: &VType, new: &VType) -> M<()>
    ensures are { OnOk result (types.new ≡ substituted old.now new.now types.old) }
    ensures words { words_of_type new.now ≡ 1 → words_of_types types.new ≡ words_of_types types.old }
{
    for index in 0..types.len() {
        replace(&mut types[index], old, new)?;
    }
    Ok(())
}

fn replace(ty: &mut VType, old: &VType, new: &VType) -> M<()>
    ensures is { OnOk result (ty.new ≡ (if is_copy old.now ty.old then new.now else ty.old)) }
    ensures words { words_of_type new.now ≡ 1 → words_of_type ty.new ≡ words_of_type ty.old }
{
    if is_copy(old, ty) {
        *ty = new.clone()?;
    }
    Ok(())
}

/// An int or a long.
pub(crate) fn number(num: Num) -> VType
    ensures { result ≡ number num }
{
    match num {
        Num::Int => VType::Int,
        Num::Long => VType::Long,
    }
}

/// The type of a class.
pub(crate) fn class_type(name: &Name) -> M<FieldType>
    ensures { IfOk result (λ ty. ty ≡ class_type name.now) }
{
    Ok(FieldType {
        dims: 0,
        base: Base::Class(name.clone()?),
    })
}
