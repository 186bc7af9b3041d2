// The fields of references and classes (JVMS 4.5, 4.7.2, 5.4.3.2).
ghost use Rattle.std.specs.Prelude.{◌≡◌, IfOk, IfSome, codes, map};
ghost use Rattle.std.specs.Option.{option_map};
ghost use Rattle.class_pool.specs.Found.{IsMember, declared_in, named_at};
ghost use Rattle.class_pool.specs.Hierarchy.{IsClass};
ghost use Rattle.run_heap.specs.Targets.{HasConstants};
ghost use Rattle.set_meanings.specs.bodies.FieldKeys.{field_key};
ghost use Rattle.set_view.specs.ViewOf.{field_of, key_at, shape_of};

use crate::members::key_at;
use class_model::{Class, Field, MemberRef};
use class_pool::{ClassId, ClassSet, MemberAt};
use jv_base::{Items, M, Name, Text, field_text};
use link_check::{class_of, field_found};
use run_heap::Key;
use std::alloc::Global;

/// The field that a reference means.
pub fn field(alloc: Global, set: &ClassSet, r: &MemberRef) -> M<Option<Key>>
    ensures { IfOk result (λ key. key ≡ (shape_of set.now).field r.now) }
{
    match field_of(set, r) {
        Some(m) => Ok(Some(key_at(alloc, set, &m, &r.name, &r.ty)?)),
        None => Ok(None),
    }
}

fn field_of(set: &ClassSet, r: &MemberRef) -> Option<MemberAt>
    ensures is { result ≡ field_of set.now r.now }
    ensures there { IfSome result (IsMember set.now) }
    ensures named { IfSome result (λ m. named_at set.now m ≡ (r.now.name, r.now.ty)) }
{
    match class_of(set, r) {
        Some(class) => field_found(set, class, &r.name, &r.ty),
        None => None,
    }
}

/// The class or interface initialisation method of a class, if it has one.
pub fn clinit(
    alloc: Global,
    set: &ClassSet,
    class: &Name,
    name: &Name,
    descriptor: &Text,
) -> M<Option<Key>>
    requires name { name.now ≡ codes "<clinit>" }
    requires descriptor { descriptor.now ≡ codes "()V" }
    ensures { IfOk result (λ key. key ≡ (shape_of set.now).clinit class.now) }
{
    match set.find(class) {
        Some(class) => member_key(alloc, set, class, name, descriptor),
        None => Ok(None),
    }
}

fn member_key(
    alloc: Global,
    set: &ClassSet,
    class: ClassId,
    name: &Name,
    descriptor: &Text,
) -> M<Option<Key>>
    requires { IsClass set.now class }
    ensures { IfOk result (λ key. key ≡ option_map (key_at set.now)
        (declared_in set.now (name.now, descriptor.now) class)) }
{
    match set.declared_in(class, name, descriptor) {
        Some(m) => Ok(Some(key_at(alloc, set, &m, name, descriptor)?)),
        None => Ok(None),
    }
}

/// The fields of a class of the set.
pub fn fields_of(alloc: Global, set: &ClassSet, class: &Name) -> M<Items<Key>>
    ensures { IfOk result (HasConstants (shape_of set.now) class.now) }
{
    match set.find(class) {
        Some(ClassId::Prog(number)) => keys_of(alloc, class, set.class(number)),
        Some(ClassId::Lib(_)) => Ok(Items::new(alloc)),
        None => Ok(Items::new(alloc)),
    }
}

fn keys_of(alloc: Global, name: &Name, class: &Class) -> M<Items<Key>>
    ensures { IfOk result (λ keys. keys ≡ map (field_key name.now) class.now.fields) }
{
    let mut keys = Items::new(alloc);
    for field in class.fields.as_slice() {
        keys.push(field_key(alloc, name, field)?)?;
    }
    Ok(keys)
}

fn field_key(alloc: Global, class: &Name, field: &Field) -> M<Key>
    ensures { IfOk result (λ key. key ≡ field_key class.now field.now) }
{
    let descriptor = field_text(alloc, &field.ty)?;
    let class = class.clone()?;
    let name = field.name.clone()?;
    Ok(Key::new(class, name, descriptor))
}
