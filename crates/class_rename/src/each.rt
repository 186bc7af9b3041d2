// What is renamed, and lists of it.
ghost use Rattle.std.specs.Prelude.{◌≡◌, IfOk, OnOk, map};
ghost use Rattle.class_rename.specs.Names.{Names, names_in};

use crate::NewNames;
use crate::renamer::Renamer;
use jv_base::{Items, M};
use std::alloc::Global;

/// A part of a class in which nothing is named by a descriptor's text.
pub(crate) trait Rename: Drop {
    ghost use Rattle.std.specs.Prelude.{◌≡◌, OnOk};
    ghost use Rattle.class_rename.specs.Names.{Names, names_in};

    ghost renamed: { Names → Self → Self };

    /// Puts new names in place of the old ones; what names nothing stays where it is. After want of memory nothing is
    /// known of it.
    fn rename(&mut self, alloc: Global, names: &NewNames) -> M<()>
        ensures { OnOk result (self.new ≡ renamed (names_in names.now) self.old) };
}

/// A part of a class with references to members, whose descriptors are texts.
pub(crate) trait RenameReferences: Drop {
    ghost use Rattle.std.specs.Prelude.{◌≡◌, OnOk};
    ghost use Rattle.class_rename.specs.Names.{Names, names_in};

    ghost renamed: { Names → Self → Self };

    /// The same, by names that stay and descriptors that are kept.
    fn rename_references(&mut self, alloc: Global, renamer: &mut Renamer) -> M<()>
        ensures names { renamer.new ≡ renamer.old }
        ensures renamed { OnOk result (self.new ≡ renamed (names_in renamer.old) self.old) };
}

/// The same of each part of a list, which stays where it is.
pub(crate) fn rename_each<T: Rename>(alloc: Global, names: &NewNames, items: &mut Items<T>) -> M<()>
    ensures { OnOk result (items.new ≡ map (T.renamed (names_in names.now)) items.old) }
{
    let mut parts = std::mem::replace(items, Items::new(alloc)).into_vec();
    for part in parts.iter_mut() {
        part.rename(alloc, names)?;
    }
    *items = Items::from_vec(parts);
    Ok(())
}

/// The same of each part with references.
pub(crate) fn rename_references_of_each<T: RenameReferences>(
    alloc: Global,
    renamer: &mut Renamer,
    items: &mut Items<T>,
) -> M<()>
    ensures names { renamer.new ≡ renamer.old }
    ensures renamed { OnOk result (items.new ≡ map (T.renamed (names_in renamer.old)) items.old) }
{
    let mut parts = std::mem::replace(items, Items::new(alloc)).into_vec();
    for part in parts.iter_mut() {
        part.rename_references(alloc, renamer)?;
    }
    *items = Items::from_vec(parts);
    Ok(())
}
