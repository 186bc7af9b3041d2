// What stands behind an instruction that is left out (JVMS 4.7.3).
ghost use Rattle.std.specs.Prelude.{◌≡◌};
ghost use Rattle.format_reading.specs.Reader.{Reads};
ghost use Rattle.class_model.specs.ReadingCodeAttribute.{skipped_attribute};
ghost use Rattle.class_read.specs.bodies.PassedOver.{attributes_passed, passed_over};

use format_reading::FormatFault;
use jv_base::Cursor;

fn skip_attribute(cursor: &mut Cursor) -> Result<(), FormatFault>
    ensures { Reads result cursor.new (skipped_attribute cursor.old) }
{
    cursor.u2()?;
    let length = cursor.u4()?;
    cursor.take(length)?;
    Ok(())
}

fn pass_attributes(count: u16, cursor: &mut Cursor) -> Result<(), FormatFault>
    ensures { Reads result cursor.new (attributes_passed count cursor.old) }
{
    for _ in 0..count {
        skip_attribute(cursor)?;
    }
    Ok(())
}

/// Passes over the exception table and the attributes of a code by their lengths. Nothing in them is looked at.
#[tactic(auto, unfolding(crate::specs::bodies::PassedOver::passed_over, crate::proofs::Unfolding::passed))]
pub fn pass_over(cursor: &mut Cursor) -> Result<(), FormatFault>
    ensures { Reads result cursor.new (passed_over cursor.old) }
{
    let count = cursor.u2()?;
    cursor.take(8 * u32::from(count))?;
    let count = cursor.u2()?;
    pass_attributes(count, cursor)
}
