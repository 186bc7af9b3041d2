// Modified UTF-8 (JVMS 4.4.7).
ghost use Rattle.std.specs.Prelude.{◌≡◌, ℕ, ◌+◌, ◌%◌, ◌<◌, ◌++◌, List, length, IfOk, OnOk, Ok, Some};
ghost use Rattle.jv_base.specs.Decoding.{SpellsUnits, byte_taken, decoded_on, is_from_to};
ghost use Rattle.jv_base.specs.bodies.Decoding.{HasBits, TakesBits};
ghost use Rattle.jv_base.specs.Decoding.{lead_byte, read_mutf8};
ghost use Rattle.jv_base.specs.Longest.{IfFault, IsLongest};
ghost use Rattle.jv_base.specs.Mutf8.{mutf8, unit_bytes};
ghost use Rattle.jv_base.specs.Outcome.{IsDue};

use crate::{Bytes, Items, M, Or, Units};
use std::alloc::Global;

/// The bytes are no Modified UTF-8. The offset is that of the first byte where no spelling goes on,
/// and where the bytes end too soon, it is how many there are.
#[derive(Clone, Copy, Debug, PartialEq, Eq)]
pub struct BadUtf8 {
    pub offset: u32,
}

/// What the next byte has to be.
#[derive(Clone, Copy)]
enum Awaited {
    /// The first of a unit.
    Lead,
    /// 80, the second byte of the unit 0.
    Zero,
    /// The second of three; these bits stand before it.
    Middle(u16),
    /// The last; these bits stand before it.
    Last(u16),
}

/// What a byte was.
#[derive(Clone, Copy)]
enum Taken {
    /// The end of this unit.
    Whole(u16),
    /// A part of a unit.
    Part(Awaited),
}

/// The units that bytes in Modified UTF-8 spell (JVMS 4.4.7): a unit from 1 to 7F takes one byte, 0 and
/// 80 to 7FF take two, 800 to FFFF take three, and a surrogate is a unit like any other.
pub fn units_of_mutf8(alloc: Global, bytes: &[u8]) -> Result<Units, Or<BadUtf8>>
    requires { length bytes.now < 4294967295 }
    ensures found { IfOk result (λ units. SpellsUnits bytes.now units) }
    ensures only { (units : List ℕ) → SpellsUnits bytes.now units → IsDue result (Ok units) }
    ensures longest { IfFault result (λ e. IsLongest SpellsUnits bytes.now e.offset) }
    ensures exact { IsDue result (read_mutf8 bytes.now) }
{
    decoded(alloc, bytes)
}

/// The bytes of units in Modified UTF-8 (JVMS 4.4.7).
pub fn mutf8_of_units(alloc: Global, units: &Units) -> M<Bytes>
    ensures written { IfOk result (λ bytes. bytes ≡ mutf8 units.now) }
    ensures read_back { IfOk result (λ bytes. read_mutf8 bytes ≡ Ok units.now) }
{
    let mut bytes = Items::with_capacity(alloc, units.len())?;
    for unit in units.as_slice() {
        push_unit(&mut bytes, *unit)?;
    }
    Ok(bytes)
}

#[tactic(auto, unfolding(crate::specs::Decoding::byte_taken))]
fn take(awaited: Awaited, byte: u8) -> Option<Taken>
    requires { HasBits awaited }
    ensures taken { result ≡ byte_taken awaited byte }
    ensures bits { TakesBits result }
{
    match awaited {
        Awaited::Lead => take_lead(byte),
        Awaited::Zero if byte == 0x80 => Some(Taken::Whole(0)),
        Awaited::Middle(bits) if is_continuation(byte, if bits == 0 { 0xA0 } else { 0x80 }) => {
            Some(Taken::Part(Awaited::Last(bits * 0x40 + u16::from(byte - 0x80))))
        }
        Awaited::Last(bits) if is_continuation(byte, 0x80) => {
            Some(Taken::Whole(bits * 0x40 + u16::from(byte - 0x80)))
        }
        _ => None,
    }
}

fn take_lead(byte: u8) -> Option<Taken>
    ensures taken { result ≡ lead_byte byte }
    ensures bits { TakesBits result }
{
    match byte {
        0x01..=0x7F => Some(Taken::Whole(u16::from(byte))),
        0xC0 => Some(Taken::Part(Awaited::Zero)),
        0xC2..=0xDF => Some(Taken::Part(Awaited::Last(u16::from(byte - 0xC0)))),
        0xE0..=0xEF => Some(Taken::Part(Awaited::Middle(u16::from(byte - 0xE0)))),
        _ => None,
    }
}

fn is_continuation(byte: u8, lowest: u8) -> bool
    ensures { result ≡ is_from_to lowest 0xBF byte }
{
    lowest <= byte && byte <= 0xBF
}

fn decoded(alloc: Global, bytes: &[u8]) -> Result<Units, Or<BadUtf8>>
    requires { length bytes.now < 4294967295 }
    ensures { IsDue result (read_mutf8 bytes.now) }
{
    let mut units = Items::with_capacity(alloc, bytes.len())?;
    let mut awaited = Awaited::Lead;
    for (at, byte) in bytes.iter().enumerate() {
        let Some(taken) = take(awaited, *byte) else {
            return Err(Or::Fault(BadUtf8 { offset: at as u32 }));
        };
        awaited = keep(&mut units, taken)?;
    }
    match awaited {
        Awaited::Lead => Ok(units),
        _ => Err(Or::Fault(BadUtf8 {
            offset: bytes.len() as u32,
        })),
    }
}

/// Appends a unit that is whole.
fn keep(units: &mut Units, taken: Taken) -> M<Awaited>
    requires { TakesBits (Some taken) }
    ensures kept { IfOk result (λ next. decoded_on units.old (Some taken)
        ≡ Some (record { units = units.new; awaited = next })) }
    ensures bits { IfOk result HasBits }
{
    match taken {
        Taken::Whole(unit) => {
            units.push(unit)?;
            Ok(Awaited::Lead)
        }
        Taken::Part(next) => Ok(next),
    }
}

#[tactic(auto, unfolding(crate::specs::Mutf8::unit_bytes))]
fn push_unit(bytes: &mut Bytes, unit: u16) -> M<()>
    ensures { OnOk result (bytes.new ≡ bytes.old ++ unit_bytes unit) }
{
    match unit {
        0x01..=0x7F => bytes.push(unit as u8)?,
        0 | 0x80..=0x7FF => {
            bytes.push(0xC0 + (unit / 0x40) as u8)?;
            bytes.push(continuation(unit))?;
        }
        _ => {
            bytes.push(0xE0 + (unit / 0x1000) as u8)?;
            bytes.push(continuation(unit / 0x40))?;
            bytes.push(continuation(unit))?;
        }
    }
    Ok(())
}

/// The last six bits of a unit, as a byte that is not the first.
fn continuation(unit: u16) -> u8
    ensures { result ≡ 0x80 + unit % 0x40 }
{
    0x80 + (unit % 0x40) as u8
}
