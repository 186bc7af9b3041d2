// Types under new names (JVMS 4.3).
ghost use Rattle.std.specs.Prelude.{◌≡◌, IfOk, map, option_map};
ghost use Rattle.class_rename.specs.Renamed.{renamed_base, renamed_method_type, renamed_type};
ghost use Rattle.new_names.specs.NewNames.{names_of};

use jv_base::{Base, FieldType, Items, M, MethodType};
use new_names::NewNames;
use std::alloc::Global;

/// The type of a method under new names.
pub(crate) fn renamed_method_type(
    alloc: Global,
    names: &NewNames<'_>,
    ty: &MethodType,
) -> M<MethodType>
    ensures { IfOk result (λ new. new ≡ renamed_method_type (names_of names.now) ty.now) }
{
    let ret = renamed_result(names, &ty.ret)?;
    let args = renamed_types(alloc, names, ty.args.as_slice())?;
    Ok(MethodType { args, ret })
}

fn renamed_types(alloc: Global, names: &NewNames<'_>, types: &[FieldType]) -> M<Items<FieldType>>
    ensures { IfOk result (λ new. new ≡ map (renamed_type (names_of names.now)) types.now) }
{
    let mut renamed = Items::new(alloc);
    for ty in types {
        renamed.push(renamed_type(names, ty)?)?;
    }
    Ok(renamed)
}

fn renamed_result(names: &NewNames<'_>, ret: &Option<FieldType>) -> M<Option<FieldType>>
    ensures { IfOk result (λ new. new ≡ option_map (renamed_type (names_of names.now)) ret.now) }
{
    match ret {
        Some(ty) => Ok(Some(renamed_type(names, ty)?)),
        None => Ok(None),
    }
}

fn renamed_type(names: &NewNames<'_>, ty: &FieldType) -> M<FieldType>
    ensures { IfOk result (λ new. new ≡ renamed_type (names_of names.now) ty.now) }
{
    let base = renamed_base(names, &ty.base)?;
    Ok(FieldType {
        dims: ty.dims,
        base,
    })
}

fn renamed_base(names: &NewNames<'_>, base: &Base) -> M<Base>
    ensures { IfOk result (λ new. new ≡ renamed_base (names_of names.now) base.now) }
{
    match base {
        Base::Class(name) => Ok(Base::Class(names.class(name).clone()?)),
        _ => Ok(base.clone()?),
    }
}
