// What is found at an index of the constant pool (JVMS 4.4).
//
// There is none where the index leads to no entry of the kind.
ghost use Rattle.std.specs.Prelude.{◌≡◌, option_copied};
ghost use Rattle.class_model.specs.Pool.{units_at, class_units_at};
ghost use Rattle.class_model.specs.ConstantPool.{name_and_type_at};

use class_model::{Entry, Pool};
use jv_base::Units;

/// The units of a CONSTANT_Utf8 (JVMS 4.4.7).
pub fn units_at(pool: &Pool, index: u16) -> Option<&Units>
    ensures { option_copied result ≡ units_at pool.now.entries index }
{
    match pool.entries.get(usize::from(index)) {
        Some(Entry::Utf8(units)) => Some(&**units),
        _ => None,
    }
}

/// The units of the text that a CONSTANT_Class names (JVMS 4.4.1).
pub fn class_units_at(pool: &Pool, index: u16) -> Option<&Units>
    ensures { option_copied result ≡ class_units_at pool.now.entries index }
{
    match pool.entries.get(usize::from(index)) {
        Some(Entry::Class(name_index)) => units_at(pool, *name_index),
        _ => None,
    }
}

/// The indices of the name and the descriptor in a CONSTANT_NameAndType (JVMS 4.4.6).
pub fn name_and_type_at(pool: &Pool, index: u16) -> Option<(u16, u16)>
    ensures { result ≡ name_and_type_at pool.now.entries index }
{
    match pool.entries.get(usize::from(index)) {
        Some(Entry::NameAndType(name_index, descriptor_index)) => {
            Some((*name_index, *descriptor_index))
        }
        _ => None,
    }
}
