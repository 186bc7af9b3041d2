// Classes by their names (JVMS 4.2.1).
ghost use Rattle.std.specs.Prelude.{◌≡◌, ◌∷◌, ◌++◌, [], IfOk, OnOk, map};
ghost use Rattle.class_pool.specs.Found.{name_of};
ghost use Rattle.class_pool.specs.Hierarchy.{IsClass};
ghost use Rattle.lib_table.specs.Library.{library};
ghost use Rattle.jv_base.specs.declared.types.Base.TheVariants as base;
ghost use Rattle.jvm_model.specs.Types.{is_above_arrays};
ghost use Rattle.set_meanings.specs.bodies.AllNames.{all_names};
ghost use Rattle.set_view.specs.ViewOf.{firsts_of, shape_of};

use class_pool::{ClassId, ClassSet, library_names};
use jv_base::{Items, M, Name, Text};
use lib_table::lib_name;
use std::alloc::Global;

/// The name of a class.
pub(crate) fn class_text(set: &ClassSet, class: ClassId) -> &str
    requires { IsClass set.now class }
    ensures { result.now ≡ name_of set.now class }
{
    match class {
        ClassId::Prog(number) => set.class(number).name.as_str(),
        ClassId::Lib(id) => lib_name(id),
    }
}

/// The same, which is copied where the class is one of the library.
pub fn class_name(alloc: Global, set: &ClassSet, class: ClassId) -> M<Name>
    requires { IsClass set.now class }
    ensures { IfOk result (λ name. name ≡ name_of set.now class) }
{
    match class {
        ClassId::Prog(number) => Ok(set.class(number).name.clone()?),
        ClassId::Lib(id) => Ok(Text::from_str(alloc, lib_name(id))?),
    }
}

/// The names of the classes of the library, and of those of the set.
pub fn all_names(alloc: Global, set: &ClassSet) -> M<Items<Name>>
    ensures { IfOk result (λ names. names ≡ all_names set.now) }
{
    let mut names = Items::new(alloc);
    push_library(alloc, &mut names)?;
    push_set(&mut names, set)?;
    Ok(names)
}

fn push_library(alloc: Global, names: &mut Items<Name>) -> M<()>
    ensures { OnOk result (names.new ≡ names.old ++ map (λ c. c.name) library) }
{
    for name in library_names() {
        names.push(Text::from_str(alloc, name)?)?;
    }
    Ok(())
}

fn push_set(names: &mut Items<Name>, set: &ClassSet) -> M<()>
    ensures { OnOk result (names.new ≡ names.old ++ map (λ c. c.name) set.now) }
{
    for number in 0..set.len() {
        names.push(set.class(number).name.clone()?)?;
    }
    Ok(())
}

/// Whether arrays are of the class of a name (JLS 4.10.3, 10.8).
pub(crate) fn is_above_arrays(name: &str) -> bool
    ensures { result ≡ is_above_arrays (base.Class name.now) }
{
    name == "java/lang/Object" || name == "java/lang/Cloneable" || name == "java/io/Serializable"
}

/// The classes that are initialised before the one of a name.
pub fn firsts(alloc: Global, set: &ClassSet, class: &Name) -> M<Items<Name>>
    ensures { IfOk result (λ names. names ≡ (shape_of set.now).firsts class.now) }
{
    match set.find(class) {
        Some(class) => firsts_of(alloc, set, class),
        None => Ok(Items::new(alloc)),
    }
}

fn firsts_of(alloc: Global, set: &ClassSet, class: ClassId) -> M<Items<Name>>
    requires { IsClass set.now class }
    ensures { IfOk result (λ names. names ≡ firsts_of set.now class) }
{
    let class = &class;
    if set.is_interface(*class) {
        return Ok(Items::new(alloc));
    }
    match set.super_of(*class) {
        Some(above) => one_name(alloc, set, above),
        None => Ok(Items::new(alloc)),
    }
}

fn one_name(alloc: Global, set: &ClassSet, class: ClassId) -> M<Items<Name>>
    requires { IsClass set.now class }
    ensures { IfOk result (λ names. names ≡ name_of set.now class ∷ []) }
{
    let name = class_name(alloc, set, class)?;
    let mut names = Items::new(alloc);
    names.push(name)?;
    Ok(names)
}
