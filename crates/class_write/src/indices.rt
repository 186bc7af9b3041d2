// The indices of constants in the pool (JVMS 4.4).
ghost use Rattle.std.specs.Prelude.{◌≡◌, ◌+◌, ◌^◌, ◌<◌, length, IfOk};
ghost use Rattle.class_model.specs.declared.constant.PoolConstant.{PoolConstant};
ghost use Rattle.class_model.specs.CanonicalPool.{index_of};
ghost use Rattle.class_model.specs.CanonicalClass as canonical;

use class_model::Constant;
use constant_table::ConstantTable;
use jv_base::{M, Name, Text, Units};
use std::alloc::Global;

/// The index of the CONSTANT_Utf8 of a name or a descriptor.
pub fn text_index(alloc: Global, pool: &ConstantTable, text: &Text) -> M<u16>
    requires { length pool.now + 1 < 2 ^ 16 }
    ensures { IfOk result (λ index. index ≡ canonical.text_index pool.now text.now) }
{
    Ok(pool.text_index(alloc, text)? as u16)
}

/// The index of the CONSTANT_Utf8 of these units.
pub fn units_index(pool: &ConstantTable, units: &Units) -> u16
    requires { length pool.now + 1 < 2 ^ 16 }
    ensures { result ≡ index_of pool.now (PoolConstant.Utf8 units.now) }
{
    pool.units_index(units) as u16
}

/// The index of the CONSTANT_Class of a name.
pub fn class_index(alloc: Global, pool: &ConstantTable, name: &Name) -> M<u16>
    requires { length pool.now + 1 < 2 ^ 16 }
    ensures { IfOk result (λ index. index ≡ canonical.class_index pool.now name.now) }
{
    Ok(pool.class_index(alloc, name)? as u16)
}

fn value_place(pool: &ConstantTable, value: &Constant) -> usize
    ensures { result ≡ canonical.value_index pool.now value.now }
{
    match value {
        Constant::Int(number) => pool.int_index(*number),
        Constant::Long(number) => pool.long_index(*number),
        Constant::Text(units) => pool.string_index(units),
    }
}

/// A constantvalue_index (JVMS 4.7.2).
pub fn value_index(pool: &ConstantTable, value: &Constant) -> u16
    requires { length pool.now + 1 < 2 ^ 16 }
    ensures { result ≡ canonical.value_index pool.now value.now }
{
    value_place(pool, value) as u16
}
