// The UTF-16 units of texts, of which string constants are made (JVMS 4.4.3, 4.4.7).
ghost use Rattle.std.specs.Prelude.{◌≡◌, ℕ, List, IfOk, IfSome, Some, is_none};
ghost use Rattle.std.specs.Char.Utf16.{has_unpaired_surrogate};
ghost use Rattle.jv_base.specs.Utf16.{IsTextOf, units_of};

use crate::{Items, M, Text, Units};
use std::alloc::Global;

/// The text whose UTF-16 units these are. There is none exactly where a surrogate is unpaired.
pub fn text_of_units(alloc: Global, units: &[u16]) -> M<Option<Text>>
    ensures found { IfOk result (λ text. IfSome text (λ t. IsTextOf t units.now)) }
    ensures unpaired { IfOk result (λ text. is_none text ≡ has_unpaired_surrogate units.now) }
    ensures only { IfOk result (λ text. (t : List ℕ) → IsTextOf t units.now → text ≡ Some t) }
{
    match String::from_utf16(alloc, units)? {
        Ok(text) => Ok(Some(Text::from_string(alloc, text)?)),
        Err(_) => Ok(None),
    }
}

/// The UTF-16 units of a text.
pub fn units_of_text(alloc: Global, text: &Text) -> M<Units>
    ensures written { IfOk result (λ units. units ≡ units_of text.now) }
    ensures read_back { IfOk result (λ units. IsTextOf text.now units) }
{
    let mut units = Items::with_capacity(alloc, text.len())?;
    for unit in text.as_str().encode_utf16() {
        units.push(unit)?;
    }
    Ok(units)
}
