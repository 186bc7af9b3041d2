// Calls on bytes and types of class files.
ghost use Rattle.std.specs.Prelude.{◌≡◌, ◌≤◌, ◌<◌, ℕ, List, length, IfOk, Ok};
ghost use Rattle.jv_base.specs.Decoding.{SpellsUnits, read_mutf8};
ghost use Rattle.jv_base.specs.Longest.{IfFault, IsLongest};
ghost use Rattle.jv_base.specs.Outcome.{IsDue};
ghost use Rattle.jv_base.specs.Types.{words_of};
ghost use Rattle.format_reading.specs.Fault.{or_inside};

use format_reading::FormatFault;
use jv_base::{BadUtf8, FieldType, Or, Units};
use std::alloc::Global;

/// `units_of_mutf8` of `jv_base`.
pub fn units_of_mutf8(alloc: Global, bytes: &[u8]) -> Result<Units, Or<BadUtf8>>
    requires { length bytes.now < 4294967295 }
    ensures found { IfOk result (λ units. SpellsUnits bytes.now units) }
    ensures only { (units : List ℕ) → SpellsUnits bytes.now units → IsDue result (Ok units) }
    ensures longest { IfFault result (λ e. IsLongest SpellsUnits bytes.now e.offset) }
    ensures exact { IsDue result (read_mutf8 bytes.now) }
{
    jv_base::units_of_mutf8(alloc, bytes)
}

/// `words_of` of `jv_base`.
pub fn words_of(ty: &FieldType) -> u32
    ensures words { result ≡ words_of ty.now }
    ensures few { result ≤ 2 }
{
    jv_base::words_of(ty)
}

/// `of_part` of `format_reading`.
pub fn of_part(attribute: u32, fault: Or<FormatFault>) -> Or<FormatFault>
    ensures { result ≡ or_inside attribute fault }
{
    format_reading::of_part(attribute, fault)
}
