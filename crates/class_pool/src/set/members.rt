// The members of a class by their names and descriptors.
ghost use Rattle.std.specs.Prelude.{◌≡◌, ◌+◌, ◌<◌, length, IfOk};
ghost use Rattle.std.specs.List.Sorted.{IsSorted};
ghost use Rattle.class_pool.specs.bodies.ByName.{HasKeys, IsIndexOf, IsPlace, is_before, key_cmp, key_of, number_at};
ghost use Rattle.class_pool.specs.bodies.Descriptors.{method_texts};
ghost use Rattle.class_pool.specs.Members.{member_named};

use class_model::Class;
use jv_base::{Items, M, Name, Text, field_text};
use std::alloc::Global;
use std::cmp::Ordering;

/// The name, the descriptor and the number of a member. The fields are numbered first, then the methods.
pub(crate) type Key = (Name, (Text, u32));

/// The members of a class in the order of their names, then of their descriptors, then of their numbers, so that no
/// choice of names makes a look-up slow.
#[derive(Drop)]
pub(crate) struct MemberIndex {
    pub(crate) keys: Vec<Key>,
}

impl MemberIndex {
    /// The members of a class, of whose methods these are the descriptors.
    pub(crate) fn of(alloc: Global, class: &Class, texts: &Items<Text>) -> M<MemberIndex>
        requires few { length class.now.fields + length class.now.methods < 4294967295 }
        requires texts { texts.now ≡ method_texts class.now }
        ensures { IfOk result (IsIndexOf class.now) }
    {
        let mut keys = keys_of(alloc, class, texts)?;
        keys.sort()?;
        Ok(MemberIndex { keys })
    }

    /// The number of the first member of the class with a name and a descriptor, by one search.
    pub(crate) fn find(&self, class: &Class, name: &Name, ty: &Text) -> Option<u32>
        requires { IsIndexOf class.now self.now }
        ensures { result ≡ member_named class.now name.now ty.now }
    {
        let keys = self.keys.as_slice();
        number_at(keys, place_of(keys, name, ty), name, ty)
    }
}

/// The number of the key at a place, where it has the name and the descriptor.
pub(crate) fn number_at(keys: &[Key], place: usize, name: &Name, ty: &Text) -> Option<u32>
    ensures { result ≡ number_at keys.now place name.now ty.now }
{
    let key = keys.get(place)?;
    if key.0 == *name && key.1.0 == *ty {
        Some(key.1.1)
    } else {
        None
    }
}

fn keys_of(alloc: Global, class: &Class, texts: &Items<Text>) -> M<Vec<Key>>
    requires few { length class.now.fields + length class.now.methods < 4294967295 }
    requires texts { texts.now ≡ method_texts class.now }
    ensures { IfOk result (λ keys. HasKeys class.now (length class.now.fields + length class.now.methods) keys.items) }
{
    let count = class.fields.len() + class.methods.len();
    let mut keys = Vec::with_capacity(alloc, count)?;
    for number in 0..count as u32 {
        keys.push(key_of(alloc, class, texts, number)?)?;
    }
    Ok(keys)
}

fn key_of(alloc: Global, class: &Class, texts: &Items<Text>, number: u32) -> M<Key>
    requires there { number < length class.now.fields + length class.now.methods }
    requires texts { texts.now ≡ method_texts class.now }
    ensures { IfOk result (λ key. key ≡ key_of class.now number) }
{
    let index = number as usize;
    let fields = class.fields.len();
    if index < fields {
        let field = &class.fields[index];
        let ty = field_text(alloc, &field.ty)?;
        Ok((field.name.clone()?, (ty, number)))
    } else {
        let ty = texts[index - fields].clone()?;
        Ok((class.methods[index - fields].name.clone()?, (ty, number)))
    }
}

/// The place of the first key that doesn't stand before those of a name and a descriptor.
pub(crate) fn place_of(keys: &[Key], name: &Name, ty: &Text) -> usize
    requires { IsSorted key_cmp keys.now }
    ensures { IsPlace keys.now name.now ty.now result result }
{
    let mut low = 0;
    let mut high = keys.len();
    while low < high {
        let middle = low + (high - low) / 2;
        if is_before(&keys[middle], name, ty) {
            low = middle + 1;
        } else {
            high = middle;
        }
    }
    low
}

fn is_before(key: &Key, name: &Name, ty: &Text) -> bool
    ensures { result ≡ is_before name.now ty.now key.now }
{
    match key.0.cmp(name) {
        Ordering::Less => true,
        Ordering::Equal => key.1.0 < *ty,
        Ordering::Greater => false,
    }
}
