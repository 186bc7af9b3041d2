// New names for kept classes and their members.
ghost use Rattle.std.specs.Prelude.{◌≡◌, ℕ, List, ◌++◌, IfOk, OnOk, map};
ghost use Rattle.jv_base.specs.Types as descriptor;
ghost use Rattle.class_model.specs.declared.class.Field.{Field};
ghost use Rattle.class_model.specs.declared.class.Method.{Method};
ghost use Rattle.class_rename.specs.Names.{names_in, new_method_name, new_name};
ghost use Rattle.fresh_names.specs.Given.{class_given, class_names, field_given, field_names, method_given};
ghost use Rattle.fresh_names.specs.Given.{method_names, names_given};

use crate::giving::give_names;
use crate::stays::Stays;
use crate::{TakenMethods, TakenNames, TakenSet};
use class_model::{Class, Field, Method};
use class_rename::NewNames;
use jv_base::{Items, M, Name, Text, method_text};
use key_table::Table;
use std::alloc::Global;

/// The new names of kept classes and of their members. Each class gets one of its package, which it doesn't leave; all
/// fields of a name get one, and all methods of a name and a descriptor. Names that stay are skipped. What an earlier
/// mapping gives is taken first, in the order in which names stand among the classes with their fields and methods, each
/// where it is free in its package, among fields, or for its descriptor; then the others get `a` to `z`, `aa` and so on
/// in the same order. The time is near linear in the names there are.
pub fn new_names(
    alloc: Global,
    taken: &TakenNames,
    old: &NewNames,
    kept: &Items<Class>,
) -> M<NewNames>
    ensures { IfOk result (λ names. names_in names ≡ names_given taken.now old.now kept.now) }
{
    let kept = kept.as_slice();
    let classes = class_table(alloc, &taken.classes, old.classes(), kept)?;
    let fields = field_table(alloc, &taken.fields, old.fields(), kept)?;
    let methods = method_table(alloc, &taken.methods, old.methods(), kept)?;
    Ok(NewNames::new(classes, fields, methods))
}

// ---- classes

fn class_table(
    alloc: Global,
    taken: &TakenSet,
    old: &Table<Name, Name>,
    kept: &[Class],
) -> M<Table<Name, Name>>
    ensures { IfOk result (λ table. (a : List ℕ) → new_name table a
        ≡ class_given old.now taken.now (class_names kept.now) a) }
{
    let names = class_names(alloc, kept)?;
    give_names(alloc, &Stays::Classes(taken), old, names.as_slice())
}

fn class_names(alloc: Global, kept: &[Class]) -> M<Items<Name>>
    ensures { IfOk result (λ names. names ≡ class_names kept.now) }
{
    let mut names = Items::new(alloc);
    for class in kept {
        names.push(class.name.clone()?)?;
    }
    Ok(names)
}

// ---- fields

fn field_table(
    alloc: Global,
    taken: &TakenSet,
    old: &Table<Name, Name>,
    kept: &[Class],
) -> M<Table<Name, Name>>
    ensures { IfOk result (λ table. (a : List ℕ) → new_name table a
        ≡ field_given old.now taken.now (field_names kept.now) a) }
{
    let names = field_names(alloc, kept)?;
    give_names(alloc, &Stays::Fields(taken), old, names.as_slice())
}

fn field_names(alloc: Global, kept: &[Class]) -> M<Items<Name>>
    ensures { IfOk result (λ names. names ≡ field_names kept.now) }
{
    let mut names = Items::new(alloc);
    for class in kept {
        push_fields(&mut names, class.fields.as_slice())?;
    }
    Ok(names)
}

fn push_fields(names: &mut Items<Name>, fields: &[Field]) -> M<()>
    ensures { OnOk result (names.new ≡ names.old ++ map (λ (f : Field). f.name) fields.now) }
{
    for field in fields {
        names.push(field.name.clone()?)?;
    }
    Ok(())
}

// ---- methods

fn method_table(
    alloc: Global,
    taken: &TakenMethods,
    old: &Table<(Name, Text), Name>,
    kept: &[Class],
) -> M<Table<(Name, Text), Name>>
    ensures { IfOk result (λ table. (a d : List ℕ) → new_method_name table (a, d)
        ≡ method_given old.now taken.now (method_names kept.now) a d) }
{
    let methods = method_names(alloc, kept)?;
    give_names(alloc, &Stays::Methods(taken), old, methods.as_slice())
}

fn method_names(alloc: Global, kept: &[Class]) -> M<Items<(Name, Text)>>
    ensures { IfOk result (λ methods. methods ≡ method_names kept.now) }
{
    let mut methods = Items::new(alloc);
    for class in kept {
        push_methods(alloc, &mut methods, class.methods.as_slice())?;
    }
    Ok(methods)
}

fn push_methods(alloc: Global, names: &mut Items<(Name, Text)>, methods: &[Method]) -> M<()>
    ensures { OnOk result (names.new
        ≡ names.old ++ map (λ (m : Method). (m.name, descriptor.method_text m.ty)) methods.now) }
{
    for method in methods {
        names.push((method.name.clone()?, method_text(alloc, &method.ty)?))?;
    }
    Ok(())
}
