// Fields (JVMS 4.5).
ghost use Rattle.std.specs.Prelude.{◌≡◌, ◌+◌, ◌^◌, ◌<◌, ◌++◌, length, map, OnOk};
ghost use Rattle.std.specs.Int.{w16, to_be_bytes};
ghost use Rattle.std.specs.List.{flat_map};
ghost use Rattle.class_model.specs.Structure.{attribute_info, member_info};
ghost use Rattle.class_model.specs.CanonicalClass as canonical;

use crate::attributes::{mark_count, put_constant_value, put_marks};
use crate::indices::text_index;
use class_model::Field;
use constant_table::{ConstantTable, put_u2};
use jv_base::{M, field_text};
use std::alloc::Global;

/// The fields, their count first.
pub fn put_fields(alloc: Global, pool: &ConstantTable, fields: &[Field], out: &mut Vec<u8>) -> M<()>
    requires pool { length pool.now + 1 < 2 ^ 16 }
    requires count { length fields.now < 2 ^ 16 }
    ensures { let infos = map (canonical.field_raw pool.now) fields.now in OnOk result
        (out.new.items ≡ out.old.items ++ (to_be_bytes w16 (length infos) ++ flat_map member_info infos)) }
{
    put_u2(out, fields.len() as u16)?;
    for field in fields {
        put_field(alloc, pool, field, out)?;
    }
    Ok(())
}

/// field_info (JVMS 4.5).
fn put_field(alloc: Global, pool: &ConstantTable, field: &Field, out: &mut Vec<u8>) -> M<()>
    requires { length pool.now + 1 < 2 ^ 16 }
    ensures { OnOk result (out.new.items ≡ out.old.items ++ member_info (canonical.field_raw pool.now field.now)) }
{
    put_u2(out, field.flags.0)?;
    put_u2(out, text_index(alloc, pool, &field.name)?)?;
    put_u2(
        out,
        text_index(alloc, pool, &field_text(alloc, &field.ty)?)?,
    )?;
    put_attributes(alloc, pool, field, out)
}

/// The attributes of a field, their count first: ConstantValue, Synthetic and Deprecated.
fn put_attributes(alloc: Global, pool: &ConstantTable, field: &Field, out: &mut Vec<u8>) -> M<()>
    requires { length pool.now + 1 < 2 ^ 16 }
    ensures { let attributes = (canonical.field_raw pool.now field.now).attributes in OnOk result
        (out.new.items ≡ out.old.items ++ (to_be_bytes w16 (length attributes) ++ flat_map attribute_info attributes)) }
{
    let marks = mark_count(field.synthetic, field.deprecated);
    put_u2(out, u16::from(field.constant.is_some()) + marks)?;
    put_constant_value(alloc, pool, &field.constant, out)?;
    put_marks(alloc, pool, field.synthetic, field.deprecated, out)
}
