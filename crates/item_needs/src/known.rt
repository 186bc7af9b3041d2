// What names, descriptors and references want, remembered: a set has most of them many times.
//
// Each has one place by its text, where the one that was looked for last is remembered.
ghost use Rattle.std.specs.Prelude.{◌≡◌, ◌≤◌, ℕ, IfOk, IfSome, IsTrue, None, Some, set, slice_get};
ghost use Rattle.std.specs.List.{All};
ghost use Rattle.item_needs.specs.bodies.Known.{IsFor, IsTextFor};

use class_model::MemberRef;
use jv_base::{Items, M, Text};
use link_check::{PLACES, is_same_ref, is_same_text, text_place};
use std::alloc::Global;

/// What a text stands for.
#[derive(Clone, Copy, PartialEq, Eq)]
pub(crate) enum TextKind {
    /// A class, whose name it is.
    Name,
    /// The type of a field, whose descriptor it is.
    Field,
    /// The type of a method, whose descriptor it is.
    Method,
}

/// What an instruction asks of its reference.
#[derive(Clone, Copy, PartialEq, Eq)]
pub(crate) enum RefKind {
    /// The field that it means.
    Field,
    /// The method that it means.
    Method,
    /// The method that it means, and the one that invokespecial runs.
    Special,
}

/// What one text wants.
#[derive(Drop)]
pub(crate) struct TextRow {
    pub kind: TextKind,
    pub text: Text,
    /// The numbers of the items that it wants.
    pub numbers: Items<u32>,
}

/// What one reference wants.
#[derive(Drop)]
pub(crate) struct Row {
    /// The class that has the reference, by its number.
    pub from: u32,
    pub kind: RefKind,
    pub reference: MemberRef,
    /// The numbers of the items that it wants.
    pub numbers: Items<u32>,
}

impl TextRow {
    pub fn is_for(&self, kind: TextKind, text: &Text) -> bool
        ensures { IsTrue result → IsTextFor kind text.now self.now }
    {
        self.kind == kind && is_same_text(&self.text, text)
    }
}

impl Row {
    pub fn is_for(&self, from: u32, kind: RefKind, r: &MemberRef) -> bool
        ensures { IsTrue result → IsFor from kind r.now self.now }
    {
        self.from == from && self.kind == kind && is_same_ref(&self.reference, r)
    }
}

/// No text at any place.
pub(crate) fn no_texts(alloc: Global) -> M<Vec<Option<TextRow>>>
    ensures { IfOk result (λ rows. All (λ row. row ≡ None) rows.items) }
{
    let mut rows = Vec::with_capacity(alloc, PLACES)?;
    for _ in 0..PLACES {
        rows.push(None)?;
    }
    Ok(rows)
}

/// No reference at any place.
pub(crate) fn no_rows(alloc: Global) -> M<Vec<Option<Row>>>
    ensures { IfOk result (λ rows. All (λ row. row ≡ None) rows.items) }
{
    let mut rows = Vec::with_capacity(alloc, PLACES)?;
    for _ in 0..PLACES {
        rows.push(None)?;
    }
    Ok(rows)
}

/// No reference is wanted by an item yet.
pub(crate) fn no_stamps(alloc: Global) -> M<Vec<u64>>
    ensures { IfOk result (λ stamps. All (λ stamp. stamp ≤ 0) stamps.items) }
{
    let mut stamps = Vec::with_capacity(alloc, PLACES)?;
    for _ in 0..PLACES {
        stamps.push(0)?;
    }
    Ok(stamps)
}

/// Whether the reference at a place is wanted by the item with this stamp already.
pub(crate) fn is_stamped(stamps: &[u64], place: usize, stamp: u64) -> bool
    ensures { IsTrue result → slice_get stamps.now place ≡ Some stamp }
{
    match stamps.get(place) {
        Some(last) => *last == stamp,
        None => false,
    }
}

/// From then on the reference at a place is wanted by the item with this stamp.
pub(crate) fn put_stamp(stamps: &mut Vec<u64>, place: usize, stamp: u64)
    ensures { stamps.new.items ≡ set stamps.old.items place stamp }
{
    if place < stamps.len() {
        stamps[place] = stamp;
    }
}

/// The row of a text, if it is remembered.
pub(crate) fn text_row<'a>(
    rows: &'a [Option<TextRow>],
    kind: TextKind,
    text: &Text,
) -> Option<&'a TextRow>
    ensures at { IfSome result (λ row. (place : ℕ) × slice_get rows.now place ≡ Some (Some row.now)) }
    ensures is { IfSome result (λ row. IsTextFor kind text.now row.now) }
{
    let row = rows.get(text_place(text))?.as_ref()?;
    if row.is_for(kind, text) {
        Some(row)
    } else {
        None
    }
}

/// The row of a reference at its place, if it is remembered.
#[inline(always)]
pub(crate) fn row_of<'a>(
    rows: &'a [Option<Row>],
    place: usize,
    from: u32,
    kind: RefKind,
    r: &MemberRef,
) -> Option<&'a Row>
    ensures at { IfSome result (λ row. slice_get rows.now place ≡ Some (Some row.now)) }
    ensures is { IfSome result (λ row. IsFor from kind r.now row.now) }
{
    let row = rows.get(place)?.as_ref()?;
    if row.is_for(from, kind, r) {
        Some(row)
    } else {
        None
    }
}
