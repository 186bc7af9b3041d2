// New names, with the descriptors and the references that were renamed before.
ghost use Rattle.std.specs.Prelude.{◌≡◌, IfOk, IfSome, if◌then◌else◌, is_ok, nat_eq};
ghost use Rattle.std.specs.Cmp.Lexicographic.{pointwise};
ghost use Rattle.indexmap.specs.IndexMap.{insert_entry};
ghost use Rattle.class_rename.specs.Names.{names_in};
ghost use Rattle.class_rename.specs.Renamed.{renamed_field_ref, renamed_field_text, renamed_method_ref};
ghost use Rattle.class_rename.specs.Renamed.{renamed_method_text};
ghost use Rattle.class_rename.specs.bodies.Known.{AreKnown};

use crate::NewNames;
use crate::names::looked_up;
use crate::references::{References, field_ref, method_ref};
use crate::types::{renamed_field_text, renamed_method_text};
use class_model::MemberRef;
use jv_base::{M, Shared, Text};
use key_table::Table;
use std::alloc::Global;
use std::marker::Model;

/// New names, which contracts see alone. Each descriptor and each reference is renamed once, and all places that name
/// it share what becomes of it: else many references to one long descriptor would take its length as often.
#[derive(Drop)]
pub(crate) struct Renamer<'a> {
    names: &'a NewNames,
    field_texts: Table<Text, Text>,
    method_texts: Table<Text, Text>,
    field_refs: References,
    method_refs: References,
}

impl<'a> Model for Renamer<'a> {
    ghost use Rattle.class_rename.specs.Names.{Tables, names_in};
    ghost use Rattle.class_rename.specs.Renamed.{renamed_field_ref, renamed_field_text, renamed_method_ref};
    ghost use Rattle.class_rename.specs.Renamed.{renamed_method_text};
    ghost use Rattle.class_rename.specs.bodies.Known.{AreKnown};
    ghost use Rattle.class_rename.specs.bodies.References.{AreRenamed};

    ghost Value = { Tables };

    ghost view = { λ r. r.names.now };

    ghost invariant = { λ r. AreKnown (renamed_field_text (names_in r.names.now)) r.field_texts
        × AreKnown (renamed_method_text (names_in r.names.now)) r.method_texts
        × AreRenamed (renamed_field_ref (names_in r.names.now)) r.field_refs
        × AreRenamed (renamed_method_ref (names_in r.names.now)) r.method_refs };
}

impl<'a> Renamer<'a> {
    pub(crate) fn new(alloc: Global, names: &'a NewNames) -> Renamer<'a>
        ensures { result ≡ names.now }
    {
        Renamer {
            names,
            field_texts: Table::new(alloc),
            method_texts: Table::new(alloc),
            field_refs: Table::new(alloc),
            method_refs: Table::new(alloc),
        }
    }

    /// The new names.
    pub(crate) fn names(&self) -> &NewNames
        ensures { result.now ≡ self.now }
    {
        self.names
    }

    /// What becomes of a reference to a field.
    pub(crate) fn field_ref(&mut self, alloc: Global, r: &MemberRef) -> M<Shared<MemberRef>>
        ensures names { self.new ≡ self.old }
        ensures renamed { IfOk result (λ new. new ≡ renamed_field_ref (names_in self.old) r.now) }
    {
        field_ref(
            alloc,
            self.names,
            &mut self.field_texts,
            &mut self.field_refs,
            r,
        )
    }

    /// What becomes of a reference to a method.
    pub(crate) fn method_ref(&mut self, alloc: Global, r: &MemberRef) -> M<Shared<MemberRef>>
        ensures names { self.new ≡ self.old }
        ensures renamed { IfOk result (λ new. new ≡ renamed_method_ref (names_in self.old) r.now) }
    {
        method_ref(
            alloc,
            self.names,
            &mut self.method_texts,
            &mut self.method_refs,
            r,
        )
    }
}

/// The descriptor of a field with new names, by what is known.
pub(crate) fn field_text(
    alloc: Global,
    names: &NewNames,
    table: &mut Table<Text, Text>,
    text: &Text,
) -> M<Text>
    requires { AreKnown (renamed_field_text (names_in names.now)) table.old }
    ensures known { AreKnown (renamed_field_text (names_in names.now)) table.new }
    ensures text { IfOk result (λ new. new ≡ renamed_field_text (names_in names.now) text.now) }
{
    let found = looked_up(table, text)?;
    known_field_text(alloc, names, table, text, found)
}

fn known_field_text(
    alloc: Global,
    names: &NewNames,
    table: &mut Table<Text, Text>,
    text: &Text,
    found: Option<Text>,
) -> M<Text>
    requires known { AreKnown (renamed_field_text (names_in names.now)) table.old }
    requires found { IfSome found (λ new. new ≡ renamed_field_text (names_in names.now) text.now) }
    ensures known { AreKnown (renamed_field_text (names_in names.now)) table.new }
    ensures text { IfOk result (λ new. new ≡ renamed_field_text (names_in names.now) text.now) }
{
    if let Some(found) = found {
        return Ok(found);
    }
    let new = renamed_field_text(alloc, names, text)?;
    remember(table, text, new)
}

/// The descriptor of a method with new names, by what is known.
pub(crate) fn method_text(
    alloc: Global,
    names: &NewNames,
    table: &mut Table<Text, Text>,
    text: &Text,
) -> M<Text>
    requires { AreKnown (renamed_method_text (names_in names.now)) table.old }
    ensures known { AreKnown (renamed_method_text (names_in names.now)) table.new }
    ensures text { IfOk result (λ new. new ≡ renamed_method_text (names_in names.now) text.now) }
{
    let found = looked_up(table, text)?;
    known_method_text(alloc, names, table, text, found)
}

fn known_method_text(
    alloc: Global,
    names: &NewNames,
    table: &mut Table<Text, Text>,
    text: &Text,
    found: Option<Text>,
) -> M<Text>
    requires known { AreKnown (renamed_method_text (names_in names.now)) table.old }
    requires found { IfSome found (λ new. new ≡ renamed_method_text (names_in names.now) text.now) }
    ensures known { AreKnown (renamed_method_text (names_in names.now)) table.new }
    ensures text { IfOk result (λ new. new ≡ renamed_method_text (names_in names.now) text.now) }
{
    if let Some(found) = found {
        return Ok(found);
    }
    let new = renamed_method_text(alloc, names, text)?;
    remember(table, text, new)
}

/// Keeps what became of a text, and gives it back.
fn remember(table: &mut Table<Text, Text>, text: &Text, new: Text) -> M<Text>
    ensures table { table.new ≡ (if is_ok result
        then insert_entry (pointwise nat_eq) table.old text.now new
        else table.old) }
    ensures same { IfOk result (λ kept. kept ≡ new) }
{
    put(table, text, &new)?;
    Ok(new)
}

fn put(table: &mut Table<Text, Text>, text: &Text, new: &Text) -> M<()>
    ensures { table.new ≡ (if is_ok result
        then insert_entry (pointwise nat_eq) table.old text.now new.now
        else table.old) }
{
    let (text, new) = (text.clone()?, new.clone()?);
    table.insert(text, new)?;
    Ok(())
}
