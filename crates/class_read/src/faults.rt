// Faults with their offsets.
ghost use Rattle.std.specs.Prelude.{◌≡◌};
ghost use Rattle.format_reading.specs.Fault.{fault};

use format_reading::{FormatFault, FormatKind};

/// The rule that is broken by the item at an offset.
pub fn fault(offset: u32, kind: FormatKind) -> FormatFault
    ensures { result ≡ fault offset kind }
{
    FormatFault { offset, kind }
}
