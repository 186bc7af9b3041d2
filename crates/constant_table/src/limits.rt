// The limits of a pool (JVMS 4.1, 4.4.7).
ghost use Rattle.std.specs.Prelude.{◌≡◌, ◌<◌, length, map};
ghost use Rattle.std.specs.List.{AllByRecursion};
ghost use Rattle.jv_base.specs.Outcome.{IsDue};
ghost use Rattle.class_model.specs.declared.constant.PoolConstant.{PoolConstant};
ghost use Rattle.class_model.specs.WriteLimits.{first_of, text_fits};
ghost use Rattle.constant_table.specs.bodies.Keys.{IsKeyIn, constant_of, text_of};

use crate::key::Key;
use crate::texts::Texts;
use class_model::WriteLimit;
use jv_base::{Or, Units, mutf8_of_units};
use std::alloc::Global;

fn check_units(alloc: Global, units: &Units) -> Result<(), Or<WriteLimit>>
    ensures { IsDue result (text_fits (PoolConstant.Utf8 units.now)) }
{
    if units.len() <= 21_845 {
        return Ok(());
    }
    let length = mutf8_of_units(alloc, units)?.len();
    if length < 65_536 {
        Ok(())
    } else {
        Err(Or::Fault(WriteLimit::TextTooLong(length as u64)))
    }
}

/// A text that is too long (JVMS 4.4.7).
fn check_key(alloc: Global, texts: &Texts, key: Key) -> Result<(), Or<WriteLimit>>
    requires { IsKeyIn (length texts.now) key }
    ensures { IsDue result (text_fits (constant_of texts.now key)) }
{
    match key {
        Key::Utf8(number) => check_number(alloc, texts, number),
        _ => Ok(()),
    }
}

fn check_number(alloc: Global, texts: &Texts, number: usize) -> Result<(), Or<WriteLimit>>
    requires { number < length texts.now }
    ensures { IsDue result (text_fits (PoolConstant.Utf8 (text_of texts.now number))) }
{
    match texts.get(number) {
        Some(units) => check_units(alloc, units),
        None => Ok(()),
    }
}

/// The first text that is too long.
pub fn check_keys(alloc: Global, texts: &Texts, keys: &[Key]) -> Result<(), Or<WriteLimit>>
    requires { AllByRecursion (IsKeyIn (length texts.now)) keys.now }
    ensures { IsDue result (first_of text_fits (map (constant_of texts.now) keys.now)) }
{
    for key in keys {
        check_key(alloc, texts, *key)?;
    }
    Ok(())
}
