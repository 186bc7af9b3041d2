// Which field and which method of a name and a descriptor is found for a class (JVMS 5.4.3.2 to 5.4.3.4).
ghost use Rattle.std.specs.Prelude.{◌≡◌, IfSome, codes};
ghost use Rattle.std.specs.List.{All};
ghost use Rattle.class_pool.specs.Found.{IsMember};
ghost use Rattle.class_pool.specs.Hierarchy.{IsClass, class_named};
ghost use Rattle.class_pool.specs.Resolution.{class_method_found, field_found, first_declared, interface_method_found};
ghost use Rattle.class_pool.specs.Resolution.{method_found, object_method};
ghost use Rattle.class_pool.specs.Walk.{superclasses_from};

use crate::references::superinterface_methods::superinterface_method;
use class_pool::{ClassId, ClassSet, MemberAt, Superclasses};
use jv_base::{Name, Text};

/// The field that is found for a class: its own, else of its superinterfaces, else the same of its superclass (JVMS
/// 5.4.3.2). Takes no memory.
pub fn field_found(set: &ClassSet, class: ClassId, name: &Name, ty: &Text) -> Option<MemberAt>
    requires { IsClass set.now class }
    ensures is { result ≡ field_found set.now class (name.now, ty.now) }
    ensures there { IfSome result (IsMember set.now) }
{
    for class in Superclasses::of(set, class) {
        let class = &class;
        if let Some(m) = set.declared_in(*class, name, ty) {
            return Some(m);
        }
        if let Some(m) = first_declared(set, set.own_superinterfaces(*class), name, ty) {
            return Some(m);
        }
    }
    None
}

/// The member of the first one of these classes that declares one.
fn first_declared(set: &ClassSet, classes: &[ClassId], name: &Name, ty: &Text) -> Option<MemberAt>
    requires { All (IsClass set.now) classes.now }
    ensures is { result ≡ first_declared set.now (name.now, ty.now) classes.now }
    ensures there { IfSome result (IsMember set.now) }
{
    for class in classes {
        if let Some(m) = set.declared_in(*class, name, ty) {
            return Some(m);
        }
    }
    None
}

/// The method that is found for a class or an interface, whatever kind of reference names it (JVMS 5.4.3.3, 5.4.3.4).
/// Takes no memory.
pub fn method_found(set: &ClassSet, class: &ClassId, name: &Name, ty: &Text) -> Option<MemberAt>
    requires { IsClass set.now class.now }
    ensures is { result ≡ method_found set.now class.now (name.now, ty.now) }
    ensures there { IfSome result (IsMember set.now) }
{
    if set.is_interface(*class) {
        interface_method_found(set, class, name, ty)
    } else {
        class_method_found(set, class, name, ty)
    }
}

/// A method of the class, else of the nearest superclass that declares one, else of the superinterfaces (JVMS 5.4.3.3).
fn class_method_found(set: &ClassSet, class: &ClassId, name: &Name, ty: &Text) -> Option<MemberAt>
    requires { IsClass set.now class.now }
    ensures is { result ≡ class_method_found set.now class.now (name.now, ty.now) }
    ensures there { IfSome result (IsMember set.now) }
{
    match nearest_declared(set, *class, name, ty) {
        Some(m) => Some(m),
        None => superinterface_method(set, class, name, ty),
    }
}

/// The member that a class declares, else the one that the nearest superclass declares.
fn nearest_declared(set: &ClassSet, class: ClassId, name: &Name, ty: &Text) -> Option<MemberAt>
    requires { IsClass set.now class }
    ensures is { result ≡ first_declared set.now (name.now, ty.now) (superclasses_from set.now class) }
    ensures there { IfSome result (IsMember set.now) }
{
    for class in Superclasses::up(set, set.declaring_from(class, name, ty)) {
        if let Some(m) = set.declared_in(class, name, ty) {
            return Some(m);
        }
    }
    None
}

/// A method of the interface, else a public one of Object that isn't static, else one of the superinterfaces (JVMS
/// 5.4.3.4).
fn interface_method_found(
    set: &ClassSet,
    class: &ClassId,
    name: &Name,
    ty: &Text,
) -> Option<MemberAt>
    requires { IsClass set.now class.now }
    ensures is { result ≡ interface_method_found set.now class.now (name.now, ty.now) }
    ensures there { IfSome result (IsMember set.now) }
{
    if let Some(m) = set.declared_in(*class, name, ty) {
        return Some(m);
    }
    if let Some(m) = object_method(set, name, ty) {
        return Some(m);
    }
    superinterface_method(set, class, name, ty)
}

/// The public method of Object that isn't static.
fn object_method(set: &ClassSet, name: &Name, ty: &Text) -> Option<MemberAt>
    ensures is { result ≡ object_method set.now (name.now, ty.now) }
    ensures there { IfSome result (IsMember set.now) }
{
    let m = &set.declared_in(set.object()?, name, ty)?;
    if set.is_public_member(*m) && !set.is_static_member(*m) {
        Some(*m)
    } else {
        None
    }
}
