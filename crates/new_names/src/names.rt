// The names that a mapping gives.
ghost use Rattle.std.specs.Prelude.{◌≡◌, IfOk};
ghost use Rattle.std.specs.Option.{option_map};
ghost use Rattle.new_names.specs.NewNames.{class_line, names_of};

use crate::members::MemberTable;
use crate::tables::{ClassTable, NameTable, classes_of, fields_of, methods_of};
use jv_base::{M, Name, Text};
use mapping_file::{MapClass, Mapping};
use std::alloc::Global;
use std::marker::Model;

/// The names that a mapping gives, each found by one look-up. Contracts see the mapping.
#[derive(Drop)]
pub struct NewNames<'a> {
    mapping: &'a Mapping,
    classes: ClassTable<'a>,
    fields: NameTable,
    methods: MemberTable,
}

impl<'a> Model for NewNames<'a> {
    ghost use Rattle.mapping_file.specs.declared.mapping.Mapping.{Mapping};
    ghost use Rattle.new_names.specs.NewNames.{all_field_names, all_method_names};
    ghost use Rattle.new_names.specs.bodies.Tables.{TellsClasses, TellsMembers, TellsNames};

    ghost Value = { Mapping };

    ghost view = { λ n. n.mapping.now };

    ghost invariant = { λ n. TellsClasses n.classes n.mapping.now.classes
        × TellsNames n.fields (all_field_names n.mapping.now.classes)
        × TellsMembers n.methods (all_method_names n.mapping.now.classes) };
}

impl<'a> NewNames<'a> {
    /// The names that a mapping gives.
    pub fn of(alloc: Global, mapping: &'a Mapping) -> M<NewNames<'a>>
        ensures { IfOk result (λ names. names ≡ mapping.now) }
    {
        let lines = mapping.classes.as_slice();
        let classes = classes_of(alloc, lines)?;
        let fields = fields_of(alloc, lines)?;
        let methods = methods_of(alloc, lines)?;
        Ok(NewNames {
            mapping,
            classes,
            fields,
            methods,
        })
    }

    /// The line of the class with an old name, if it has one.
    pub fn class_line(&self, name: &Name) -> Option<&'a MapClass>
        ensures { option_map (λ l. l.now) result ≡ class_line self.now name.now }
    {
        self.classes.get(name).copied()
    }

    /// The name of a class: its new one, or its own where it has no line.
    pub fn class<'t>(&'t self, name: &'t Name) -> &'t Name
        ensures { result.now ≡ (names_of self.now).class name.now }
    {
        match self.class_line(name) {
            Some(line) => &line.new,
            None => name,
        }
    }

    /// The name of a field wherever it stands.
    pub fn field<'t>(&'t self, name: &'t Name) -> &'t Name
        ensures { result.now ≡ (names_of self.now).field name.now }
    {
        match self.fields.get(name) {
            Some(new) => new,
            None => name,
        }
    }

    /// The name of a method wherever it stands, by its name and descriptor.
    pub fn method<'t>(&'t self, method: &'t (Name, Text)) -> &'t Name
        ensures { result.now ≡ (names_of self.now).method method.now.0 method.now.1 }
    {
        match self.methods.get(method) {
            Some(new) => new,
            None => &method.0,
        }
    }
}
