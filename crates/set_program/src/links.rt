// What names and references mean, kept for those of a set.
ghost use Rattle.std.specs.Prelude.{◌≡◌, ℕ, IfOk, IfSome, IsTrue, List, Some, slice_get};
ghost use Rattle.class_model.specs.declared.class.Class.{Class};
ghost use Rattle.set_program.specs.bodies.Links.{AreLinks, IsCallFor, IsClassFor, IsCodeFor, IsFieldFor, IsKindsFor};
ghost use Rattle.set_program.specs.bodies.Links.{IsStaticFor};

use crate::counts::Counts;
use crate::marks::{call_mark, key_mark, reference_mark, text_mark};
use crate::rows::{NEAR, no_rows, place_of, row_at};
use class_model::{Kind, MemberRef};
use class_pool::{ClassId, MemberAt};
use jv_base::{Items, M, Name, Shared, Text};
use run_heap::{Key, Target};
use std::alloc::Global;

/// A class by its name.
#[derive(Drop)]
pub(crate) struct ClassRow {
    pub name: Name,
    pub id: ClassId,
}

/// The field that a reference means.
#[derive(Drop)]
pub(crate) struct FieldRow {
    pub reference: Shared<MemberRef>,
    pub key: Option<Key>,
}

/// What invokestatic runs for a reference.
#[derive(Drop)]
pub(crate) struct StaticRow {
    pub reference: Shared<MemberRef>,
    pub target: Option<Target>,
}

/// What a call of a reference runs in a method of a class, or on an object of it.
#[derive(Drop)]
pub(crate) struct CallRow {
    pub class: Name,
    pub reference: Shared<MemberRef>,
    pub target: Option<Target>,
}

/// The computational types of the arguments that a descriptor tells, and the same behind that of a receiver.
#[derive(Drop)]
pub(crate) struct KindsRow {
    pub descriptor: Text,
    pub arguments: Option<Items<Kind>>,
    pub operands: Option<Items<Kind>>,
}

/// Where a method stands.
#[derive(Drop)]
pub(crate) struct CodeRow {
    pub key: Key,
    pub member: MemberAt,
}

/// What names and references mean.
#[derive(Drop)]
pub(crate) struct Links {
    pub classes: Vec<Option<ClassRow>>,
    pub fields: Vec<Option<FieldRow>>,
    pub statics: Vec<Option<StaticRow>>,
    /// What invokespecial runs in a method of a class.
    pub specials: Vec<Option<CallRow>>,
    /// What invokevirtual and invokeinterface run on an object of a class.
    pub selections: Vec<Option<CallRow>>,
    pub codes: Vec<Option<CodeRow>>,
    pub kinds: Vec<Option<KindsRow>>,
}

/// Places for what is counted, with no row at any.
pub(crate) fn no_links(alloc: Global, names: usize, counts: Counts) -> M<Links>
    ensures { IfOk result (λ links. (classes : List Class) → AreLinks classes links) }
{
    let classes = no_rows(alloc, names)?;
    let fields = no_rows(alloc, counts.fields)?;
    let statics = no_rows(alloc, counts.statics)?;
    let specials = no_rows(alloc, counts.specials)?;
    let selections = no_rows(alloc, counts.selections)?;
    let codes = no_rows(alloc, counts.methods)?;
    let kinds = no_rows(alloc, counts.calls)?;
    Ok(Links {
        classes,
        fields,
        statics,
        specials,
        selections,
        codes,
        kinds,
    })
}

/// The row of a class, if it is kept.
pub(crate) fn class_row<'a>(rows: &'a [Option<ClassRow>], name: &Name) -> Option<&'a ClassRow>
    ensures at { IfSome result (λ row. (place : ℕ) × slice_get rows.now place ≡ Some (Some row.now)) }
    ensures is { IfSome result (λ row. IsClassFor name.now row.now) }
{
    let first = place_of(text_mark(name), rows.len());
    for step in 0..NEAR {
        let row = row_at(rows, first.saturating_add(step))?;
        if row.name == *name {
            return Some(row);
        }
    }
    None
}

/// The row of a field's reference, if it is kept.
pub(crate) fn field_row<'a>(rows: &'a [Option<FieldRow>], r: &MemberRef) -> Option<&'a FieldRow>
    ensures at { IfSome result (λ row. (place : ℕ) × slice_get rows.now place ≡ Some (Some row.now)) }
    ensures is { IfSome result (λ row. IsFieldFor r.now row.now) }
{
    let first = place_of(reference_mark(r), rows.len());
    for step in 0..NEAR {
        let row = row_at(rows, first.saturating_add(step))?;
        if is_reference(&row.reference, r) {
            return Some(row);
        }
    }
    None
}

/// The row of what invokestatic runs, if it is kept.
pub(crate) fn static_row<'a>(rows: &'a [Option<StaticRow>], r: &MemberRef) -> Option<&'a StaticRow>
    ensures at { IfSome result (λ row. (place : ℕ) × slice_get rows.now place ≡ Some (Some row.now)) }
    ensures is { IfSome result (λ row. IsStaticFor r.now row.now) }
{
    let first = place_of(reference_mark(r), rows.len());
    for step in 0..NEAR {
        let row = row_at(rows, first.saturating_add(step))?;
        if is_reference(&row.reference, r) {
            return Some(row);
        }
    }
    None
}

/// The row of a class and a reference, if it is kept.
pub(crate) fn call_row<'a>(
    rows: &'a [Option<CallRow>],
    class: &Name,
    r: &MemberRef,
) -> Option<&'a CallRow>
    ensures at { IfSome result (λ row. (place : ℕ) × slice_get rows.now place ≡ Some (Some row.now)) }
    ensures is { IfSome result (λ row. IsCallFor class.now r.now row.now) }
{
    let first = place_of(call_mark(class, r), rows.len());
    for step in 0..NEAR {
        let row = row_at(rows, first.saturating_add(step))?;
        if is_reference(&row.reference, r) && row.class == *class {
            return Some(row);
        }
    }
    None
}

/// The row of a method, if it is kept.
pub(crate) fn code_row<'a>(rows: &'a [Option<CodeRow>], key: &Key) -> Option<&'a CodeRow>
    ensures at { IfSome result (λ row. (place : ℕ) × slice_get rows.now place ≡ Some (Some row.now)) }
    ensures is { IfSome result (λ row. IsCodeFor key.now row.now) }
{
    let first = place_of(key_mark(key), rows.len());
    for step in 0..NEAR {
        let row = row_at(rows, first.saturating_add(step))?;
        if key.is_same(&row.key) {
            return Some(row);
        }
    }
    None
}

/// The row of a descriptor, if it is kept.
pub(crate) fn kinds_row<'a>(rows: &'a [Option<KindsRow>], descriptor: &Text) -> Option<&'a KindsRow>
    ensures at { IfSome result (λ row. (place : ℕ) × slice_get rows.now place ≡ Some (Some row.now)) }
    ensures is { IfSome result (λ row. IsKindsFor descriptor.now row.now) }
{
    let first = place_of(text_mark(descriptor), rows.len());
    for step in 0..NEAR {
        let row = row_at(rows, first.saturating_add(step))?;
        if row.descriptor == *descriptor {
            return Some(row);
        }
    }
    None
}

/// Whether two references are one. Most are told apart by their names.
fn is_reference(kept: &MemberRef, r: &MemberRef) -> bool
    ensures { IsTrue result → kept.now ≡ r.now }
{
    kept.name == r.name
        && kept.ty == r.ty
        && kept.class == r.class
        && kept.of_interface == r.of_interface
}
