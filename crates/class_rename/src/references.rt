// References to members that were renamed before (JVMS 4.4.2).
ghost use Rattle.std.specs.Prelude.{◌≡◌, IfOk, IfSome, if◌then◌else◌, is_ok};
ghost use Rattle.std.specs.Map.{lookup};
ghost use Rattle.indexmap.specs.IndexMap.{insert_entry};
ghost use Rattle.class_rename.specs.Names.{names_in};
ghost use Rattle.class_rename.specs.Renamed.{renamed_field_ref, renamed_field_text, renamed_method_ref};
ghost use Rattle.class_rename.specs.Renamed.{renamed_method_text, renamed_type};
ghost use Rattle.class_rename.specs.bodies.Known.{AreKnown};
ghost use Rattle.class_rename.specs.bodies.References.{AreRenamed, ref_of, same_reference};

use crate::NewNames;
use crate::renamer::{field_text, method_text};
use crate::types::renamed_type;
use class_model::MemberRef;
use jv_base::{Base, M, Name, Shared, Text};
use key_table::{Key, Table, joined};
use std::alloc::Global;

/// A reference to a member of a class, or of an array of its objects, by which it is found again.
#[derive(Clone, Drop, PartialEq, Eq, PartialOrd, Ord)]
pub(crate) struct Reference {
    class: Name,
    dims: u8,
    name: Name,
    ty: Text,
    of_interface: bool,
}

impl Key for Reference {
    ghost use Rattle.std.proofs.Common.{ap};
    ghost use Rattle.class_rename.specs.bodies.References.{mark_of, same_parts, same_references};

    ghost mark = { mark_of };

    ghost one_mark = { λ a b same. ap mark_of (same_references a b same) };

    ghost copies = { λ a b same. same_parts same };

    fn mark(&self) -> u64 {
        let member = joined(self.name.mark(), self.ty.mark());
        joined(self.class.mark(), member)
    }
}

/// What became of references.
pub(crate) type References = Table<Reference, Shared<MemberRef>>;

/// By what a reference is found again; that to a member of an array of numbers isn't.
fn key_of(r: &MemberRef) -> M<Option<Reference>>
    ensures { IfOk result (λ key. IfSome key (λ k. ref_of k ≡ r.now)) }
{
    match &r.class.base {
        Base::Class(class) => Ok(Some(keyed(r, class)?)),
        _ => Ok(None),
    }
}

fn keyed(r: &MemberRef, class: &Name) -> M<Reference>
    ensures { IfOk result (λ k. k ≡ record {
      class = class.now;
      dims = r.now.class.dims;
      name = r.now.name;
      ty = r.now.ty;
      of_interface = r.now.of_interface;
    }) }
{
    Ok(Reference {
        class: class.clone()?,
        dims: r.class.dims,
        name: r.name.clone()?,
        ty: r.ty.clone()?,
        of_interface: r.of_interface,
    })
}

fn found(table: &References, key: &Reference) -> M<Option<Shared<MemberRef>>>
    ensures { IfOk result (λ new. new ≡ lookup (same_reference key.now) table.now) }
{
    match table.get(key) {
        Some(new) => Ok(Some(new.clone()?)),
        None => Ok(None),
    }
}

/// Keeps what became of a reference, and gives it back.
fn keep(table: &mut References, key: Reference, new: Shared<MemberRef>) -> M<Shared<MemberRef>>
    ensures table { table.new ≡ (if is_ok result then insert_entry same_reference table.old key new
        else table.old) }
    ensures same { IfOk result (λ kept. kept ≡ new) }
{
    let kept = new.clone()?;
    table.insert(key, new)?;
    Ok(kept)
}

// ---- fields

/// What becomes of a reference to a field; all that are alike share it.
pub(crate) fn field_ref(
    alloc: Global,
    names: &NewNames,
    texts: &mut Table<Text, Text>,
    table: &mut References,
    r: &MemberRef,
) -> M<Shared<MemberRef>>
    requires texts { AreKnown (renamed_field_text (names_in names.now)) texts.old }
    requires table { AreRenamed (renamed_field_ref (names_in names.now)) table.old }
    ensures texts { AreKnown (renamed_field_text (names_in names.now)) texts.new }
    ensures table { AreRenamed (renamed_field_ref (names_in names.now)) table.new }
    ensures renamed { IfOk result (λ new. new ≡ renamed_field_ref (names_in names.now) r.now) }
{
    match key_of(r)? {
        Some(key) => known_field_ref(alloc, names, texts, table, key, r),
        None => new_field_ref(alloc, names, texts, r),
    }
}

fn known_field_ref(
    alloc: Global,
    names: &NewNames,
    texts: &mut Table<Text, Text>,
    table: &mut References,
    key: Reference,
    r: &MemberRef,
) -> M<Shared<MemberRef>>
    requires key { ref_of key ≡ r.now }
    requires texts { AreKnown (renamed_field_text (names_in names.now)) texts.old }
    requires table { AreRenamed (renamed_field_ref (names_in names.now)) table.old }
    ensures texts { AreKnown (renamed_field_text (names_in names.now)) texts.new }
    ensures table { AreRenamed (renamed_field_ref (names_in names.now)) table.new }
    ensures renamed { IfOk result (λ new. new ≡ renamed_field_ref (names_in names.now) r.now) }
{
    if let Some(known) = found(table, &key)? {
        return Ok(known);
    }
    let new = new_field_ref(alloc, names, texts, r)?;
    keep(table, key, new)
}

fn new_field_ref(
    alloc: Global,
    names: &NewNames,
    texts: &mut Table<Text, Text>,
    r: &MemberRef,
) -> M<Shared<MemberRef>>
    requires texts { AreKnown (renamed_field_text (names_in names.now)) texts.old }
    ensures texts { AreKnown (renamed_field_text (names_in names.now)) texts.new }
    ensures renamed { IfOk result (λ new. new ≡ renamed_field_ref (names_in names.now) r.now) }
{
    let ty = field_text(alloc, names, texts, &r.ty)?;
    let name = names.field(&r.name)?;
    reference_of(alloc, names, r, name, ty)
}

// ---- methods

/// What becomes of a reference to a method; all that are alike share it.
pub(crate) fn method_ref(
    alloc: Global,
    names: &NewNames,
    texts: &mut Table<Text, Text>,
    table: &mut References,
    r: &MemberRef,
) -> M<Shared<MemberRef>>
    requires texts { AreKnown (renamed_method_text (names_in names.now)) texts.old }
    requires table { AreRenamed (renamed_method_ref (names_in names.now)) table.old }
    ensures texts { AreKnown (renamed_method_text (names_in names.now)) texts.new }
    ensures table { AreRenamed (renamed_method_ref (names_in names.now)) table.new }
    ensures renamed { IfOk result (λ new. new ≡ renamed_method_ref (names_in names.now) r.now) }
{
    match key_of(r)? {
        Some(key) => known_method_ref(alloc, names, texts, table, key, r),
        None => new_method_ref(alloc, names, texts, r),
    }
}

fn known_method_ref(
    alloc: Global,
    names: &NewNames,
    texts: &mut Table<Text, Text>,
    table: &mut References,
    key: Reference,
    r: &MemberRef,
) -> M<Shared<MemberRef>>
    requires key { ref_of key ≡ r.now }
    requires texts { AreKnown (renamed_method_text (names_in names.now)) texts.old }
    requires table { AreRenamed (renamed_method_ref (names_in names.now)) table.old }
    ensures texts { AreKnown (renamed_method_text (names_in names.now)) texts.new }
    ensures table { AreRenamed (renamed_method_ref (names_in names.now)) table.new }
    ensures renamed { IfOk result (λ new. new ≡ renamed_method_ref (names_in names.now) r.now) }
{
    if let Some(known) = found(table, &key)? {
        return Ok(known);
    }
    let new = new_method_ref(alloc, names, texts, r)?;
    keep(table, key, new)
}

fn new_method_ref(
    alloc: Global,
    names: &NewNames,
    texts: &mut Table<Text, Text>,
    r: &MemberRef,
) -> M<Shared<MemberRef>>
    requires texts { AreKnown (renamed_method_text (names_in names.now)) texts.old }
    ensures texts { AreKnown (renamed_method_text (names_in names.now)) texts.new }
    ensures renamed { IfOk result (λ new. new ≡ renamed_method_ref (names_in names.now) r.now) }
{
    let ty = method_text(alloc, names, texts, &r.ty)?;
    let name = names.method(&r.name, &r.ty)?;
    reference_of(alloc, names, r, name, ty)
}

/// A reference to a member of this name and descriptor, where that of the other name was.
fn reference_of(
    alloc: Global,
    names: &NewNames,
    r: &MemberRef,
    name: Name,
    ty: Text,
) -> M<Shared<MemberRef>>
    ensures { IfOk result (λ new. new ≡ record r.now {
      class = renamed_type (names_in names.now) r.now.class;
      name = name;
      ty = ty;
    }) }
{
    let class = renamed_type(names, &r.class)?;
    let new = MemberRef {
        class,
        name,
        ty,
        of_interface: r.of_interface,
    };
    Ok(Shared::new(alloc, new)?)
}
