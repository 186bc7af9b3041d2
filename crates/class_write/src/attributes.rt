// Attributes (JVMS 4.7). One that is empty isn't written.
ghost use Rattle.std.specs.Prelude.{◌≡◌, ◌+◌, ◌^◌, ◌<◌, ◌≤◌, ◌++◌, [], length, codes, true, OnOk, if◌then◌else◌};
ghost use Rattle.std.specs.Int.{w16, to_be_bytes};
ghost use Rattle.std.specs.List.{flat_map};
ghost use Rattle.class_model.specs.Structure.{attribute_info};
ghost use Rattle.class_model.specs.CanonicalClass as canonical;

use crate::indices::{class_index, text_index, units_index, value_index};
use class_model::Constant;
use constant_table::{ConstantTable, put, put_u2, put_u4};
use jv_base::{M, Name, Text, Units};
use std::alloc::Global;

/// attribute_info, where it is written (JVMS 4.7).
pub fn put_attribute(
    alloc: Global,
    pool: &ConstantTable,
    written: bool,
    name: &str,
    info: &[u8],
    out: &mut Vec<u8>,
) -> M<()>
    requires pool { length pool.now + 1 < 2 ^ 16 }
    requires info { written ≡ true → length info.now < 2 ^ 32 }
    ensures { OnOk result (out.new.items ≡ out.old.items
        ++ flat_map attribute_info (canonical.attribute pool.now written name.now info.now)) }
{
    if !written {
        return Ok(());
    }
    let name = Text::from_str(alloc, name)?;
    put_u2(out, text_index(alloc, pool, &name)?)?;
    put_u4(out, info.len() as u32)?;
    put(out, info)
}

/// How many of Synthetic and Deprecated are written.
pub fn mark_count(synthetic: bool, deprecated: bool) -> u16
    ensures count { result ≡ length (canonical.mark_attributes [] synthetic deprecated) }
    ensures most { result ≤ 2 }
{
    u16::from(synthetic) + u16::from(deprecated)
}

/// Synthetic and then Deprecated, both without contents (JVMS 4.7.8, 4.7.15).
pub fn put_marks(
    alloc: Global,
    pool: &ConstantTable,
    synthetic: bool,
    deprecated: bool,
    out: &mut Vec<u8>,
) -> M<()>
    requires { length pool.now + 1 < 2 ^ 16 }
    ensures { OnOk result (out.new.items ≡ out.old.items
        ++ flat_map attribute_info (canonical.mark_attributes pool.now synthetic deprecated)) }
{
    put_attribute(alloc, pool, synthetic, "Synthetic", &[], out)?;
    put_attribute(alloc, pool, deprecated, "Deprecated", &[], out)
}

/// ConstantValue (JVMS 4.7.2).
pub fn put_constant_value(
    alloc: Global,
    pool: &ConstantTable,
    constant: &Option<Constant>,
    out: &mut Vec<u8>,
) -> M<()>
    requires { length pool.now + 1 < 2 ^ 16 }
    ensures { OnOk result (out.new.items ≡ out.old.items
        ++ flat_map attribute_info (canonical.constant_attributes pool.now constant.now)) }
{
    match constant {
        Some(value) => {
            let index = value_index(pool, value).to_be_bytes();
            put_attribute(alloc, pool, true, "ConstantValue", &index, out)
        }
        None => Ok(()),
    }
}

/// SourceFile (JVMS 4.7.10).
pub fn put_source(
    alloc: Global,
    pool: &ConstantTable,
    source: &Option<Units>,
    out: &mut Vec<u8>,
) -> M<()>
    requires { length pool.now + 1 < 2 ^ 16 }
    ensures { OnOk result (out.new.items ≡ out.old.items
        ++ flat_map attribute_info (canonical.source_attributes pool.now source.now)) }
{
    match source {
        Some(units) => {
            let index = units_index(pool, units).to_be_bytes();
            put_attribute(alloc, pool, true, "SourceFile", &index, out)
        }
        None => Ok(()),
    }
}

/// Indices of the CONSTANT_Class of these names, one behind the other.
pub fn put_class_indices(
    alloc: Global,
    pool: &ConstantTable,
    names: &[Name],
    out: &mut Vec<u8>,
) -> M<()>
    requires { length pool.now + 1 < 2 ^ 16 }
    ensures { OnOk result (out.new.items ≡ out.old.items
        ++ flat_map (λ name. to_be_bytes w16 (canonical.class_index pool.now name)) names.now) }
{
    for name in names {
        put_u2(out, class_index(alloc, pool, name)?)?;
    }
    Ok(())
}

/// Exceptions (JVMS 4.7.5).
pub fn put_exceptions(
    alloc: Global,
    pool: &ConstantTable,
    throws: &[Name],
    out: &mut Vec<u8>,
) -> M<()>
    requires pool { length pool.now + 1 < 2 ^ 16 }
    requires count { length throws.now < 2 ^ 16 }
    ensures { OnOk result (out.new.items ≡ out.old.items ++ flat_map attribute_info
        (canonical.attribute pool.now (canonical.is_some_item throws.now) (codes "Exceptions")
        (canonical.exceptions pool.now throws.now))) }
{
    let mut info = Vec::new(alloc);
    put_u2(&mut info, throws.len() as u16)?;
    put_class_indices(alloc, pool, throws, &mut info)?;
    put_attribute(alloc, pool, !throws.is_empty(), "Exceptions", &info, out)
}
