// The index of a class among the constants of a pool (JVMS 4.4.1).
ghost use Rattle.std.specs.Prelude.{◌≡◌, ◌+◌, ◌^◌, ◌<◌, length, IfOk};
ghost use Rattle.class_model.specs.CanonicalPool as canonical;

use constant_table::ConstantTable;
use jv_base::{FieldType, M};
use std::alloc::Global;

/// The index of the CONSTANT_Class of a class or an array type (JVMS 4.4.1).
pub fn class_index(alloc: Global, constants: &ConstantTable, ty: &FieldType) -> M<u16>
    requires { length constants.now + 1 < 2 ^ 16 }
    ensures { IfOk result (λ index. index ≡ canonical.index_of constants.now
        (canonical.class_constant (canonical.type_name ty.now))) }
{
    Ok(constants.type_index(alloc, ty)? as u16)
}
