// Tables of new names.
ghost use Rattle.std.specs.Prelude.{◌≡◌, IfOk, OnOk};
ghost use Rattle.std.specs.Map.{lookup};
ghost use Rattle.jv_base.specs.Names.{is_text};
ghost use Rattle.jv_base.specs.Types.{method_text};
ghost use Rattle.class_rename.specs.Names.{names_in, new_method_name, new_name};

use jv_base::{M, MethodType, Name, Text, method_text};
use key_table::Table;
use std::alloc::Global;
use std::marker::Model;

/// The new names of classes, of fields, and of methods by their names and descriptors. A name that no table has stays.
/// A look-up takes the logarithm of how many names there are.
#[derive(Drop)]
pub struct NewNames {
    classes: Table<Name, Name>,
    fields: Table<Name, Name>,
    methods: Table<(Name, Text), Name>,
}

impl Model for NewNames {
    ghost use Rattle.class_rename.specs.Names.{Tables};

    ghost Value = { Tables };

    ghost view = { λ n. record {
      classes = n.classes;
      fields = n.fields;
      methods = n.methods;
    } };
}

impl NewNames {
    /// The names that these tables have, by their old ones.
    pub fn new(
        classes: Table<Name, Name>,
        fields: Table<Name, Name>,
        methods: Table<(Name, Text), Name>,
    ) -> Self
        ensures { result ≡ record { classes = classes; fields = fields; methods = methods } }
    {
        NewNames {
            classes,
            fields,
            methods,
        }
    }

    /// The name that a class gets, if it gets another one.
    pub fn class(&self, name: &Name) -> M<Option<Name>>
        ensures { IfOk result (λ new. new ≡ lookup (is_text name.now) self.now.classes) }
    {
        looked_up(&self.classes, name)
    }

    /// The name that fields of this name get.
    pub fn field(&self, name: &Name) -> M<Name>
        ensures { IfOk result (λ new. new ≡ (names_in self.now).field name.now) }
    {
        new_name(&self.fields, name)
    }

    /// The name that methods of this name and this descriptor get.
    pub fn method(&self, name: &Name, descriptor: &Text) -> M<Name>
        ensures { IfOk result (λ new. new ≡ (names_in self.now).method name.now descriptor.now) }
    {
        new_method_name(&self.methods, name, descriptor.clone()?)
    }

    /// The name that methods of this name and this type get.
    pub fn method_of_type(&self, alloc: Global, name: &Name, ty: &MethodType) -> M<Name>
        ensures { IfOk result (λ new. new ≡ (names_in self.now).method name.now (method_text ty.now)) }
    {
        new_method_name(&self.methods, name, method_text(alloc, ty)?)
    }

    /// The names of classes that these tables have.
    pub fn classes(&self) -> &Table<Name, Name>
        ensures { result.now ≡ self.now.classes }
    {
        &self.classes
    }

    /// Those of fields.
    pub fn fields(&self) -> &Table<Name, Name>
        ensures { result.now ≡ self.now.fields }
    {
        &self.fields
    }

    /// Those of methods.
    pub fn methods(&self) -> &Table<(Name, Text), Name>
        ensures { result.now ≡ self.now.methods }
    {
        &self.methods
    }

    /// Gives a class its new name.
    pub(crate) fn rename_class(&self, name: &mut Name) -> M<()>
        ensures { OnOk result (name.new ≡ (names_in self.now).class name.old) }
    {
        if let Some(new) = self.class(&*name)? {
            *name = new;
        }
        Ok(())
    }
}

/// The name that a table has for an old one.
pub(crate) fn looked_up(table: &Table<Name, Name>, name: &Name) -> M<Option<Name>>
    ensures { IfOk result (λ new. new ≡ lookup (is_text name.now) table.now) }
{
    match table.get(name) {
        Some(new) => Ok(Some(new.clone()?)),
        None => Ok(None),
    }
}

/// The name that a table has for an old one, else the old one.
fn new_name(table: &Table<Name, Name>, name: &Name) -> M<Name>
    ensures { IfOk result (λ new. new ≡ new_name table.now name.now) }
{
    match table.get(name) {
        Some(new) => Ok(new.clone()?),
        None => Ok(name.clone()?),
    }
}

/// The name that a table has for a method of this name and descriptor, else its own.
fn new_method_name(table: &Table<(Name, Text), Name>, name: &Name, descriptor: Text) -> M<Name>
    ensures { IfOk result (λ new. new ≡ new_method_name table.now (name.now, descriptor)) }
{
    let key = (name.clone()?, descriptor);
    match table.get(&key) {
        Some(new) => Ok(new.clone()?),
        None => Ok(name.clone()?),
    }
}
