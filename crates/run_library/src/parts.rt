// Units of a string by their indices (Java SE 8 API, String.charAt, String.substring).
ghost use Rattle.std.specs.Prelude.{pos, length};
ghost use Rattle.jvm_model.specs.Library as method;
ghost use Rattle.run_library.specs.Acts.{IsDone, IsDoneSo};
ghost use Rattle.run_library.specs.bodies.Naturals.{IsNatural};

use crate::strings::int;
use crate::{Act, Exception};
use jv_base::{Items, M};
use std::alloc::Global;

/// The number, unless it is below zero.
fn natural(number: i32) -> Option<usize>
    ensures { IsNatural result number }
{
    if number < 0 {
        None
    } else {
        Some(number.unsigned_abs() as usize)
    }
}

/// The unit with an index, where there is one.
pub(crate) fn unit_at(units: &[u16], index: i32) -> Act
    ensures { IsDone result (method.unit_at units.now index) }
{
    match natural(index) {
        Some(at) => unit(units, at),
        None => Act::Throws(Exception::TextIndex),
    }
}

fn unit(units: &[u16], at: usize) -> Act
    ensures { IsDone result (method.unit_at units.now (pos at)) }
{
    match units.get(at) {
        Some(unit) => int(i64::from(*unit)),
        None => Act::Throws(Exception::TextIndex),
    }
}

/// The units from an index on, where it is in the string.
pub(crate) fn rest_of(alloc: Global, units: &[u16], from: i32) -> M<Act>
    ensures { IsDoneSo result (method.part_of units.now from (pos (length units.now))) }
{
    match natural(from) {
        Some(from) => part(alloc, units, from, units.len()),
        None => Ok(Act::Throws(Exception::TextIndex)),
    }
}

/// The units from one index to before another, where they ascend within the string.
pub(crate) fn part_of(alloc: Global, units: &[u16], from: i32, to: i32) -> M<Act>
    ensures { IsDoneSo result (method.part_of units.now from to) }
{
    let Some(first) = natural(from) else {
        return Ok(Act::Throws(Exception::TextIndex));
    };
    match natural(to) {
        Some(end) => part(alloc, units, first, end),
        None => Ok(Act::Throws(Exception::TextIndex)),
    }
}

fn part(alloc: Global, units: &[u16], from: usize, to: usize) -> M<Act>
    ensures { IsDoneSo result (method.part_of units.now (pos from) (pos to)) }
{
    if to < from || units.len() < to {
        return Ok(Act::Throws(Exception::TextIndex));
    }
    Ok(Act::MakesText(Items::from_vec(units[from..to].to_vec(alloc)?)))
}
