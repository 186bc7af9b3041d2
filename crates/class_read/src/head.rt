// What a class file begins with (JVMS 4.1).
#![tactic(auto, unfolding(crate::proofs::Unfolding::head))]

ghost use Rattle.std.specs.Prelude.{◌≡◌};
ghost use Rattle.format_reading.specs.Reader.{Reads, u2, item};
ghost use Rattle.format_reading.specs.declared.fault.FormatKind.TheVariants.{BadVersion};
ghost use Rattle.class_model.specs.ReadingClass.{read_head, wanted};

use crate::faults::fault;
use format_reading::{FormatFault, FormatKind};
use jv_base::Cursor;

/// magic, minor_version and major_version: CAFEBABE, 0 and 52.
pub fn read_head(cursor: &mut Cursor) -> Result<(), FormatFault>
    ensures { Reads result cursor.new (read_head cursor.old) }
{
    let at = cursor.place();
    if cursor.u4()? != 0xCAFE_BABE {
        return Err(fault(at, FormatKind::BadMagic));
    }
    version(0, cursor)?;
    version(52, cursor)
}

fn version(number: u16, cursor: &mut Cursor) -> Result<(), FormatFault>
    ensures { Reads result cursor.new (item u2 (wanted number BadVersion) cursor.old) }
{
    let at = cursor.place();
    if cursor.u2()? == number {
        Ok(())
    } else {
        Err(fault(at, FormatKind::BadVersion))
    }
}
