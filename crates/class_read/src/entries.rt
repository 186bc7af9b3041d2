// The entries of a constant pool, from their bytes (JVMS 4.4).
#![tactic(auto, unfolding(crate::proofs::Unfolding::entries))]

ghost use Rattle.std.specs.Prelude.{◌≡◌, ◌<◌, ◌+◌, ◌*◌, ◌^◌, false, IfOk, length, slice_get};
ghost use Rattle.jv_base.specs.Outcome.{IsDue};
ghost use Rattle.format_reading.specs.Reader.{ReadsOr, onwards};
ghost use Rattle.class_model.specs.ConstantPool.{left_out_length, takes_two};
ghost use Rattle.class_model.specs.ReadingPool.{utf8, integer, long, has_no_room, read_entry, slot, slots, left_out};
ghost use Rattle.class_model.specs.ReadingPool.{entries_of, read_pool};
ghost use Rattle.class_read.specs.bodies.Entries.{units_of_bytes, offsets_of, fault_in, faults_in};

use crate::faults::fault;
use crate::lookups::names_right;
use class_model::Entry;
use format_reading::{FormatFault, FormatKind};
use jv_base::{Cursor, Items, M, Or, Shared, Units, units_of_mutf8};
use known_pool::{KnownPool, pool_of};
use std::alloc::Global;
use std::marker::Model;

/// An entry, and the offset of its tag.
#[derive(Drop)]
pub struct PlacedEntry {
    entry: Entry,
    at: u32,
}

impl Model for PlacedEntry {
    ghost use Rattle.class_model.specs.ReadingPool.{Slot};

    ghost Value = { Slot };

    ghost view = { λ p. record { entry = p.entry; at = p.at } };
}

/// constant_pool_count and the constants, where each names what it has to (JVMS 4.1, 4.4).
pub fn read_pool(alloc: Global, cursor: &mut Cursor) -> Result<KnownPool, Or<FormatFault>>
    ensures { ReadsOr result cursor.new (read_pool cursor.old) }
{
    let count = cursor.u2()?;
    let slots = slots(alloc, count.saturating_sub(1), cursor)?;
    let offsets = offsets_of(alloc, slots.as_slice())?;
    let entries = entries_of(alloc, slots)?;
    let pool = pool_of(alloc, entries)?;
    all_named_right(&pool, &offsets)?;
    Ok(pool)
}

// The bytes of a text, which begin at an offset.
#[tactic(auto)]
fn units_of_bytes(alloc: Global, at: u32, bytes: &[u8]) -> Result<Units, Or<FormatFault>>
    requires { length bytes.now < 4294967295 }
    ensures { IsDue result (units_of_bytes at bytes.now) }
{
    match units_of_mutf8(alloc, bytes) {
        Ok(units) => Ok(units),
        Err(Or::Fault(_)) => Err(Or::Fault(fault(at, FormatKind::BadUtf8))),
        Err(Or::OutOfMemory) => Err(Or::OutOfMemory),
    }
}

fn utf8(alloc: Global, cursor: &mut Cursor) -> Result<Entry, Or<FormatFault>>
    ensures { ReadsOr result cursor.new (utf8 cursor.old) }
{
    let length = cursor.u2()?;
    let at = cursor.place();
    let bytes = cursor.take(u32::from(length))?;
    let units = units_of_bytes(alloc, at, bytes)?;
    Ok(Entry::Utf8(Shared::new(alloc, units)?))
}

fn integer(cursor: &mut Cursor) -> Result<Entry, Or<FormatFault>>
    ensures { ReadsOr result cursor.new (integer cursor.old) }
{
    Ok(Entry::Integer(cursor.u4()?.cast_signed()))
}

fn long(cursor: &mut Cursor) -> Result<Entry, Or<FormatFault>>
    ensures { ReadsOr result cursor.new (long cursor.old) }
{
    let high = cursor.u4()?;
    let low = cursor.u4()?;
    Ok(Entry::Long(joined(high, low).cast_signed()))
}

fn joined(high: u32, low: u32) -> u64
    ensures { result ≡ 2 ^ 32 * high + low }
{
    (u64::from(high) << 32) | u64::from(low)
}

// How many bytes stand behind the tag of a constant that is left out.
fn left_out_length(tag: u8) -> Option<u32>
    ensures { result ≡ left_out_length tag }
{
    match tag {
        4 | 18 => Some(4),
        6 => Some(8),
        15 => Some(3),
        16 => Some(2),
        _ => None,
    }
}

// Whether a tag is that of a Long or a Double, for whose second index there is no room (JVMS 4.4.5).
fn has_no_room(room: bool, tag: u8) -> bool
    ensures { result ≡ has_no_room room tag }
{
    !room && (tag == 5 || tag == 6)
}

fn entry(alloc: Global, room: bool, cursor: &mut Cursor) -> Result<Entry, Or<FormatFault>>
    ensures { ReadsOr result cursor.new (read_entry room cursor.old) }
{
    let at = cursor.place();
    let tag = cursor.u1()?;
    if has_no_room(room, tag) {
        return Err(Or::Fault(fault(at, FormatKind::BadTag)));
    }
    match tag {
        1 => utf8(alloc, cursor),
        3 => integer(cursor),
        5 => long(cursor),
        7 => Ok(Entry::Class(cursor.u2()?)),
        8 => Ok(Entry::Str(cursor.u2()?)),
        9 => Ok(Entry::Field(cursor.u2()?, cursor.u2()?)),
        10 => Ok(Entry::Method(cursor.u2()?, cursor.u2()?)),
        11 => Ok(Entry::InterfaceMethod(cursor.u2()?, cursor.u2()?)),
        12 => Ok(Entry::NameAndType(cursor.u2()?, cursor.u2()?)),
        _ => left_out(at, tag, cursor),
    }
}

fn left_out(at: u32, tag: u8, cursor: &mut Cursor) -> Result<Entry, Or<FormatFault>>
    ensures { ReadsOr result cursor.new (onwards at (left_out tag (left_out_length tag)) cursor.old) }
{
    let Some(length) = left_out_length(tag) else {
        return Err(Or::Fault(fault(at, FormatKind::BadTag)));
    };
    cursor.take(length)?;
    Ok(Entry::LeftOut(tag))
}

// The next index, which is the second one of a Long or a Double where `second` is true.
fn slot(
    alloc: Global,
    second: bool,
    room: bool,
    cursor: &mut Cursor,
) -> Result<PlacedEntry, Or<FormatFault>>
    ensures { ReadsOr result cursor.new (slot second room cursor.old) }
{
    let at = cursor.place();
    let entry = if second {
        Entry::Gap
    } else {
        entry(alloc, room, cursor)?
    };
    Ok(PlacedEntry { entry, at })
}

// Whether an entry takes two indices (JVMS 4.4.5).
fn takes_two(slot: &PlacedEntry) -> bool
    ensures { result ≡ takes_two slot.now.entry }
{
    matches!(slot.entry, Entry::Long(_) | Entry::LeftOut(6))
}

// So many indices.
#[tactic(auto)]
fn slots(
    alloc: Global,
    count: u16,
    cursor: &mut Cursor,
) -> Result<Items<PlacedEntry>, Or<FormatFault>>
    ensures { ReadsOr result cursor.new (slots count false cursor.old) }
{
    let mut slots = Items::with_capacity(alloc, usize::from(count))?;
    let mut second = false;
    for done in 0..count {
        let slot = slot(alloc, second, done + 1 < count, cursor)?;
        second = takes_two(&slot);
        slots.push(slot)?;
    }
    Ok(slots)
}

// The offsets of the tags; index 0 has none.
fn offsets_of(alloc: Global, slots: &[PlacedEntry]) -> M<Items<u32>>
    ensures { IfOk result (λ offsets. offsets ≡ offsets_of slots.now) }
{
    let mut offsets = Items::with_capacity(alloc, slots.len() + 1)?;
    offsets.push(0)?;
    for slot in slots {
        offsets.push(slot.at)?;
    }
    Ok(offsets)
}

// The entries behind index 0, which is no entry.
fn entries_of(alloc: Global, slots: Items<PlacedEntry>) -> M<Items<Entry>>
    ensures { IfOk result (λ entries. entries ≡ entries_of slots) }
{
    let mut entries = Items::with_capacity(alloc, slots.len() + 1)?;
    entries.push(Entry::Gap)?;
    for slot in slots.into_vec() {
        entries.push(slot.entry)?;
    }
    Ok(entries)
}

// The first entry that names what isn't there, in the order of indices, used or not.
#[tactic(auto)]
fn all_named_right(pool: &KnownPool, offsets: &Items<u32>) -> Result<(), FormatFault>
    ensures { result ≡ faults_in pool.now pool.now offsets.now }
{
    for index in 0..offsets.len() {
        named_right(pool, offsets, index)?;
    }
    Ok(())
}

#[tactic(auto)]
fn named_right(pool: &KnownPool, offsets: &Items<u32>, index: usize) -> Result<(), FormatFault>
    ensures { result ≡ fault_in pool.now (slice_get pool.now index) (slice_get offsets.now index) }
{
    let Some(entry) = pool.pool().entries.get(index) else {
        return Ok(());
    };
    let Some(offset) = offsets.get(index) else {
        return Ok(());
    };
    match names_right(pool, entry) {
        Ok(()) => Ok(()),
        Err(kind) => Err(fault(*offset, kind)),
    }
}
