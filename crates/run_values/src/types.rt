// What is stored of a value, by the type of the variable (JVMS 2.3, 6.5).
ghost use Rattle.std.specs.Prelude.{◌≡◌};
ghost use Rattle.jvm_model.specs.Types.{is_component, kind_of, kind_of_elem, narrowed, stored};

use crate::Value;
use crate::numbers::{int_to_byte, int_to_char, int_to_short};
use class_model::{Elem, Kind};
use jv_base::{Base, FieldType};

/// The computational type of a type (JVMS 2.11.1).
pub fn kind_of(ty: &FieldType) -> Kind
    ensures { result ≡ kind_of ty.now }
{
    if ty.dims != 0 {
        return Kind::Ref;
    }
    match ty.base {
        Base::Long => Kind::Long,
        Base::Class(_) => Kind::Ref,
        _ => Kind::Int,
    }
}

/// The computational type of what an instruction on arrays moves (JVMS 2.11.1).
pub fn kind_of_elem(elem: Elem) -> Kind
    ensures { result ≡ kind_of_elem elem }
{
    match elem {
        Elem::Long => Kind::Long,
        Elem::Ref => Kind::Ref,
        _ => Kind::Int,
    }
}

/// Whether an instruction on arrays works with arrays of a component type (JVMS 6.5.baload, 6.5.bastore).
pub fn is_component(elem: Elem, ty: &FieldType) -> bool
    ensures { result ≡ is_component elem ty.now }
{
    if ty.dims != 0 {
        return matches!(elem, Elem::Ref);
    }
    match elem {
        Elem::Int => matches!(ty.base, Base::Int),
        Elem::Long => matches!(ty.base, Base::Long),
        Elem::Byte => matches!(ty.base, Base::Byte | Base::Boolean),
        Elem::Char => matches!(ty.base, Base::Char),
        Elem::Short => matches!(ty.base, Base::Short),
        Elem::Ref => matches!(ty.base, Base::Class(_)),
    }
}

/// What is stored of an int (JVMS 6.5.bastore, 6.5.castore, 6.5.sastore); of a boolean the low bit.
pub fn narrowed(base: &Base, number: i32) -> i32
    ensures { result ≡ narrowed base.now number }
{
    match base {
        Base::Boolean => number.rem_euclid(2),
        Base::Byte => int_to_byte(number),
        Base::Char => int_to_char(number),
        Base::Short => int_to_short(number),
        _ => number,
    }
}

/// What a field or a component of a type holds when a value was stored.
pub fn stored(ty: &FieldType, value: Value) -> Value
    ensures { result ≡ stored ty.now value }
{
    match value.as_int() {
        Some(number) if ty.dims == 0 => Value::int(narrowed(&ty.base, number)),
        _ => value,
    }
}
