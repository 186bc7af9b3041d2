// The names that members and types have.
ghost use Rattle.std.specs.Prelude.{◌≡◌, ℕ, List, [], ◌∷◌, ◌++◌, IfOk, OnOk, not};
ghost use Rattle.std.specs.List.{flat_map};
ghost use Rattle.jv_base.specs.Names.{is_text};
ghost use Rattle.fresh_names.specs.Fresh.{is_taken};
ghost use Rattle.rename_map.specs.Fixed.{field_tells, method_tells, method_type_classes, result_classes, type_classes};
ghost use Rattle.rename_map.specs.bodies.Adding.{Adds};

use class_model::{Field, Method};
use jv_base::{Base, FieldType, M, MethodType, Name};
use key_table::KeySet;

/// What is asked of a member: its name, or the classes in its descriptor.
#[derive(Clone, Copy)]
pub(crate) enum Told {
    Names,
    Classes,
}

/// A member with a name and a descriptor.
pub(crate) trait Tells {
    ghost use Rattle.std.specs.Prelude.{ℕ, List, OnOk};
    ghost use Rattle.jv_base.specs.Names.{is_text};
    ghost use Rattle.rename_map.specs.declared.telling.Told.{Told};
    ghost use Rattle.rename_map.specs.bodies.Adding.{Adds};

    ghost tells: { Told → Self → List (List ℕ) };

    /// Adds the names that it tells.
    fn add_told(&self, told: Told, names: &mut KeySet<Name>) -> M<()>
        ensures { OnOk result (Adds is_text names.old (tells told self.now) names.new) };
}

impl Tells for Field {
    ghost tells = { field_tells };

    fn add_told(&self, told: Told, names: &mut KeySet<Name>) -> M<()> {
        match told {
            Told::Names => add_name(names, &self.name),
            Told::Classes => add_type(names, &self.ty),
        }
    }
}

impl Tells for Method {
    ghost tells = { method_tells };

    fn add_told(&self, told: Told, names: &mut KeySet<Name>) -> M<()> {
        match told {
            Told::Names => add_name(names, &self.name),
            Told::Classes => add_method_type(names, &self.ty),
        }
    }
}

/// Adds a name.
#[tactic(auto, using(crate::proofs::Added::adds_one))]
pub(crate) fn add_name(names: &mut KeySet<Name>, name: &Name) -> M<()>
    ensures { OnOk result (Adds is_text names.old (name.now ∷ []) names.new) }
{
    if names.has(name) {
        return Ok(());
    }
    let name = name.clone()?;
    names.insert(name)?;
    Ok(())
}

/// Adds the class of a type.
#[tactic(auto, using(crate::proofs::Added::adds_none))]
fn add_type(names: &mut KeySet<Name>, ty: &FieldType) -> M<()>
    ensures { OnOk result (Adds is_text names.old (type_classes ty.now) names.new) }
{
    match &ty.base {
        Base::Class(name) => add_name(names, name),
        _ => Ok(()),
    }
}

#[tactic(auto, using(crate::proofs::Added::adds_both))]
fn add_method_type(names: &mut KeySet<Name>, ty: &MethodType) -> M<()>
    ensures { OnOk result (Adds is_text names.old (method_type_classes ty.now) names.new) }
{
    add_arguments(names, ty.args.as_slice())?;
    add_result(names, &ty.ret)
}

fn add_arguments(names: &mut KeySet<Name>, types: &[FieldType]) -> M<()>
    ensures { OnOk result (Adds is_text names.old (flat_map type_classes types.now) names.new) }
{
    for ty in types {
        add_type(names, ty)?;
    }
    Ok(())
}

#[tactic(auto, using(crate::proofs::Added::adds_none))]
fn add_result(names: &mut KeySet<Name>, ty: &Option<FieldType>) -> M<()>
    ensures { OnOk result (Adds is_text names.old (result_classes ty.now) names.new) }
{
    match ty {
        Some(ty) => add_type(names, ty),
        None => Ok(()),
    }
}
