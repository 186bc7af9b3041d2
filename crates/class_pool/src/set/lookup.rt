// Classes, found by their names.
ghost use Rattle.std.specs.Prelude.{◌≡◌, ◌+◌, ◌<◌, IfOk, IfSome, OnOk, Some, length, map, slice_get};
ghost use Rattle.std.specs.List.{position};
ghost use Rattle.indexmap.specs.IndexSet.{insert_key};
ghost use Rattle.jv_base.specs.Names.{is_text};
ghost use Rattle.class_pool.specs.Count.{item_count};
ghost use Rattle.class_pool.specs.bodies.Faults.{NamesDiffer};
ghost use Rattle.class_pool.specs.Hierarchy.{IsClass, class_named, superclass};

use crate::ClassId;
use class_model::Class;
use jv_base::{Items, M, Name};
use key_table::KeySet;
use lib_table::{lib_class, lib_super};
use std::alloc::Global;
use std::marker::Model;

/// Classes with names of their own, numbered from 0 in their order.
#[derive(Drop)]
pub(crate) struct ClassesByName {
    pub(crate) classes: Items<Class>,
    names: KeySet<Name>,
}

impl Model for ClassesByName {
    ghost use Rattle.std.specs.Prelude.{List, ◌≡◌, ◌<◌, map};
    ghost use Rattle.class_model.specs.declared.class.Class.{Class};
    ghost use Rattle.class_pool.specs.Count.{item_count};

    ghost Value = { List Class };

    ghost view = { λ s. s.classes };

    ghost invariant = { λ s. (s.names ≡ map (λ c. c.name) s.classes) × (item_count s.classes < 4294967295) };
}

impl ClassesByName {
    pub(crate) fn of(alloc: Global, classes: Items<Class>) -> M<ClassesByName>
        requires differ { NamesDiffer classes }
        requires few { item_count classes < 4294967295 }
        ensures { IfOk result (λ named. named ≡ classes) }
    {
        let names = names_of(alloc, &classes)?;
        Ok(ClassesByName { classes, names })
    }

    pub(crate) fn len(&self) -> u32
        ensures is { result ≡ length self.now }
        ensures few { item_count self.now < 4294967295 }
    {
        self.classes.len() as u32
    }

    pub(crate) fn into_classes(self) -> Items<Class>
        ensures { result ≡ self }
    {
        self.classes
    }

    /// The class of a name in internal form, here or in the library, by one look-up.
    pub(crate) fn find(&self, name: &Name) -> Option<ClassId>
        ensures found { result ≡ class_named self.now name.now }
        ensures there { IfSome result (IsClass self.now) }
    {
        match self.number_of(name) {
            Some(number) => Some(ClassId::Prog(number)),
            None => {
                let id = lib_class(name)?;
                Some(ClassId::Lib(id))
            }
        }
    }

    pub(crate) fn number_of(&self, name: &Name) -> Option<u32>
        ensures found { result ≡ position (λ c. is_text name.now c.name) self.now }
        ensures there { IfSome result (λ n. n < length self.now) }
    {
        let number = self.names.place(name)?;
        Some(number as u32)
    }

    /// The direct superclass (JVMS 4.1).
    pub(crate) fn super_of(&self, id: ClassId) -> Option<ClassId>
        requires { IsClass self.now id }
        ensures is { result ≡ superclass self.now id }
        ensures there { IfSome result (IsClass self.now) }
    {
        match id {
            ClassId::Prog(number) => self.find(&self.class(number).super_name),
            ClassId::Lib(id) => {
                let above = lib_super(id)?;
                Some(ClassId::Lib(above))
            }
        }
    }

    /// The class with a number.
    pub(crate) fn class(&self, id: u32) -> &Class
        requires { id < length self.now }
        ensures is { slice_get self.now id ≡ Some result.now }
        ensures few { length result.now.fields + length result.now.methods < 4294967295 }
    {
        &self.classes[id as usize]
    }
}

fn names_of(alloc: Global, classes: &Items<Class>) -> M<KeySet<Name>>
    requires { NamesDiffer classes.now }
    ensures { IfOk result (λ names. names ≡ map (λ c. c.name) classes.now) }
{
    let mut names = KeySet::new(alloc);
    for class in classes.as_slice() {
        insert_name(&mut names, &class.name)?;
    }
    Ok(names)
}

fn insert_name(names: &mut KeySet<Name>, name: &Name) -> M<()>
    ensures { OnOk result (names.new ≡ insert_key is_text names.old name.now) }
{
    names.insert(name.clone()?)?;
    Ok(())
}
