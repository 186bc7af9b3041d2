// Which objects are of which types (JLS 4.10.2, 4.10.3; JVMS 6.5.checkcast, 6.5.instanceof, 6.5.aastore).
ghost use Rattle.std.specs.Prelude.{◌≡◌};
ghost use Rattle.jvm_model.specs.Heap.{type_of};
ghost use Rattle.jvm_model.specs.Types.{array_of, class_type, is_above_arrays, is_base_below, is_type_below};
ghost use Rattle.run_heap.specs.Worlds.{object_of};

use crate::{Known, Object, Shapes};
use jv_base::{Base, FieldType, Name};

/// Whether an object is of a type.
pub fn is_of_type<S: Shapes>(shapes: &S, object: &Object, ty: &FieldType) -> bool
    ensures { result ≡ is_type_below (S.shape shapes.now).is_sub (type_of (object_of object.now)) ty.now }
{
    match object {
        Object::Instance(instance) => is_class_below(shapes, &instance.class, ty),
        Object::Array { component, .. } => is_array_below(shapes, component, ty),
        Object::Text(_) => is_class_below(shapes, shapes.name_of(Known::String), ty),
        Object::Builder(_) => is_class_below(shapes, shapes.name_of(Known::StringBuilder), ty),
    }
}

/// Whether a class is below a type.
pub fn is_class_below<S: Shapes>(shapes: &S, class: &Name, ty: &FieldType) -> bool
    ensures { result ≡ is_type_below (S.shape shapes.now).is_sub (class_type class.now) ty.now }
{
    if ty.dims != 0 {
        return false;
    }
    match &ty.base {
        Base::Class(other) => shapes.is_sub(class, other),
        _ => false,
    }
}

/// Whether arrays of a component type are below a type.
#[tactic(auto, using(crate::proofs::Below::dims_below))]
fn is_array_below<S: Shapes>(shapes: &S, component: &FieldType, ty: &FieldType) -> bool
    ensures { result ≡ is_type_below (S.shape shapes.now).is_sub (array_of component.now) ty.now }
{
    let dims = u16::from(component.dims) + 1;
    let others = u16::from(ty.dims);
    if others < dims {
        is_above_arrays(&ty.base)
    } else if others == dims {
        is_base_below(shapes, &component.base, &ty.base)
    } else {
        false
    }
}

fn is_above_arrays(base: &Base) -> bool
    ensures { result ≡ is_above_arrays base.now }
{
    match base {
        Base::Class(name) => {
            let name = name.as_str();
            name == "java/lang/Object"
                || name == "java/lang/Cloneable"
                || name == "java/io/Serializable"
        }
        _ => false,
    }
}

fn is_base_below<S: Shapes>(shapes: &S, base: &Base, other: &Base) -> bool
    ensures { result ≡ is_base_below (S.shape shapes.now).is_sub base.now other.now }
{
    match base {
        Base::Class(class) => match other {
            Base::Class(name) => shapes.is_sub(class, name),
            _ => false,
        },
        Base::Boolean => matches!(other, Base::Boolean),
        Base::Byte => matches!(other, Base::Byte),
        Base::Char => matches!(other, Base::Char),
        Base::Short => matches!(other, Base::Short),
        Base::Int => matches!(other, Base::Int),
        Base::Long => matches!(other, Base::Long),
        Base::Float => matches!(other, Base::Float),
        Base::Double => matches!(other, Base::Double),
    }
}
