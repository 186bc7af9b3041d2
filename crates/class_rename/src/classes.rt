// Members and classes (JVMS 4.1, 4.5, 4.6).
ghost use Rattle.std.specs.Prelude.{◌≡◌, IfOk, OnOk, map};
ghost use Rattle.class_rename.specs.Names.{Names, names_in};
ghost use Rattle.class_rename.specs.Renamed.{renamed, renamed_field, renamed_method};

use crate::NewNames;
use crate::each::{Rename, RenameReferences, rename_each, rename_references_of_each};
use crate::renamer::Renamer;
use class_model::{Class, Field, Method};
use jv_base::{Items, M};
use std::alloc::Global;

impl Rename for Field {
    ghost renamed = { renamed_field };

    fn rename(&mut self, alloc: Global, names: &NewNames) -> M<()> {
        self.name = names.field(&self.name)?;
        self.ty.rename(alloc, names)
    }
}

impl RenameReferences for Method {
    ghost renamed = { renamed_method };

    fn rename_references(&mut self, alloc: Global, renamer: &mut Renamer) -> M<()> {
        self.name = renamer.names().method_of_type(alloc, &self.name, &self.ty)?;
        self.ty.rename(alloc, renamer.names())?;
        rename_each(alloc, renamer.names(), &mut self.throws)?;
        if let Some(code) = &mut self.code {
            code.rename_references(alloc, renamer)?;
        }
        Ok(())
    }
}

impl RenameReferences for Class {
    ghost renamed = { renamed };

    fn rename_references(&mut self, alloc: Global, renamer: &mut Renamer) -> M<()> {
        renamer.names().rename_class(&mut self.name)?;
        renamer.names().rename_class(&mut self.super_name)?;
        rename_each(alloc, renamer.names(), &mut self.interfaces)?;
        rename_each(alloc, renamer.names(), &mut self.fields)?;
        rename_references_of_each(alloc, renamer, &mut self.methods)
    }
}

/// Puts new names into classes, wherever a class, a field or a method is named (JVMS 4). What names nothing isn't
/// copied. After want of memory nothing is known of the classes.
pub fn rename_classes(alloc: Global, names: &NewNames, classes: &mut Items<Class>) -> M<()>
    ensures { OnOk result (classes.new ≡ map (renamed (names_in names.now)) classes.old) }
{
    let mut renamer = Renamer::new(alloc, names);
    rename_references_of_each(alloc, &mut renamer, classes)
}
