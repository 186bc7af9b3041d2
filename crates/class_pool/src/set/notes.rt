// From which class on upwards members are to be looked for.
//
// Where classes have many superclasses, it is noted which class declares the next member of each name and descriptor.
// In other sets the walk over superclasses is short, and nothing is noted.
ghost use Rattle.std.specs.Prelude.{◌≡◌, ◌≤◌, ◌<◌, IfOk, List, Option, length, map};
ghost use Rattle.std.specs.List.Sorted.{IsSorted};
ghost use Rattle.tree_notes.specs.Notes.{IsSame};
ghost use Rattle.tree_notes.specs.declared.nearest.Up.TheVariants.{At};
ghost use Rattle.class_pool.specs.bodies.ByName.{Key as KeyValue, key_cmp};
ghost use Rattle.class_pool.specs.bodies.Notes.{IsNoted, number_in, numbers_of, program_of};
ghost use Rattle.class_pool.specs.declared.id.ClassId.{ClassId as ClassIdValue};
ghost use Rattle.class_pool.specs.declared.set.members.MemberIndex.{MemberIndex as MemberIndexValue};

use crate::ClassId;
use crate::set::members::{Key, MemberIndex, number_at, place_of};
use jv_base::{Items, M, Name, Text};
use std::alloc::Global;
use tree_notes::{Nearest, Up, nearest_of};

/// Of more superclasses one by one is too slow.
const MANY: u32 = 64;

/// From which class on upwards members are to be looked for.
#[derive(Drop)]
pub(crate) struct MemberNotes {
    /// The names and the descriptors of all members, in order.
    keys: Vec<Key>,
    nearest: Nearest,
}

impl MemberNotes {
    /// For each class, of which these are the superclass and the members.
    pub(crate) fn of(
        alloc: Global,
        superclasses: &Items<Option<ClassId>>,
        members: &Items<MemberIndex>,
    ) -> M<MemberNotes>
        ensures { IfOk result (IsNoted superclasses.now members.now) }
    {
        if !has_many(superclasses.as_slice()) {
            return Ok(nothing(alloc));
        }
        let keys = all_keys(alloc, members.as_slice())?;
        if keys.len() >= 4_294_967_295 {
            return Ok(nothing(alloc));
        }
        let parents = parents_of(alloc, superclasses.as_slice())?;
        let numbers = numbers_of(alloc, keys.as_slice(), members.as_slice())?;
        let count = keys.len() + 1;
        let nearest = nearest_of(alloc, parents.as_slice(), numbers.as_slice(), count)?;
        Ok(MemberNotes { keys, nearest })
    }

    /// The place from which on the way upwards from a class a member of a name and a descriptor is to be looked for.
    pub(crate) fn up_from(&self, number: u32, name: &Name, ty: &Text) -> Up
        requires { (above : List (Option ClassIdValue)) × (members : List MemberIndexValue)
            × IsNoted above members self.now }
        ensures { (above : List (Option ClassIdValue)) (members : List MemberIndexValue)
            → IsNoted above members self.now
            → IsSame (map program_of above) (map (numbers_of self.now.keys.items) members)
            (number_in self.now.keys.items (name.now, ty.now)) (At number) result }
    {
        let key = number_in(self.keys.as_slice(), name, ty);
        self.nearest.up_from(number, key)
    }
}

fn nothing(alloc: Global) -> MemberNotes
    ensures { (above : List (Option ClassIdValue)) (members : List MemberIndexValue) → IsNoted above members result }
{
    MemberNotes {
        keys: Vec::new(alloc),
        nearest: Nearest::none(alloc),
    }
}

/// Whether a class has many superclasses.
fn has_many(superclasses: &[Option<ClassId>]) -> bool {
    for above in superclasses {
        if is_far_below(superclasses, *above) {
            return true;
        }
    }
    false
}

/// Whether many classes stand above one whose superclass this is.
fn is_far_below(superclasses: &[Option<ClassId>], mut above: Option<ClassId>) -> bool {
    for _ in 0..MANY {
        match above {
            Some(ClassId::Prog(number)) if (number as usize) < superclasses.len() => {
                above = superclasses[number as usize];
            }
            _ => return false,
        }
    }
    true
}

/// The names and the descriptors of all members, in order.
fn all_keys(alloc: Global, members: &[MemberIndex]) -> M<Vec<Key>>
    ensures { IfOk result (λ keys. IsSorted key_cmp keys.items) }
{
    let mut keys = Vec::new(alloc);
    for index in members {
        add_keys(&mut keys, index)?;
    }
    keys.sort()?;
    Ok(keys)
}

fn add_keys(keys: &mut Vec<Key>, index: &MemberIndex) -> M<()> {
    for key in index.keys.as_slice() {
        keys.push((key.0.clone()?, (key.1.0.clone()?, 0)))?;
    }
    Ok(())
}

/// The numbers of superclasses that are of the set.
fn parents_of(alloc: Global, superclasses: &[Option<ClassId>]) -> M<Items<Option<u32>>>
    ensures { IfOk result (λ parents. parents ≡ map program_of superclasses.now) }
{
    let mut parents = Items::with_capacity(alloc, superclasses.len())?;
    for above in superclasses {
        parents.push(program_of(above))?;
    }
    Ok(parents)
}

fn program_of(class: &Option<ClassId>) -> Option<u32>
    ensures { result ≡ program_of class.now }
{
    match class {
        Some(ClassId::Prog(number)) => Some(*number),
        _ => None,
    }
}

/// For each class the numbers of its members.
fn numbers_of(alloc: Global, keys: &[Key], members: &[MemberIndex]) -> M<Items<Items<u32>>>
    requires order { IsSorted key_cmp keys.now }
    requires few { length keys.now < 4294967295 }
    ensures { IfOk result (λ numbers. numbers ≡ map (numbers_of keys.now) members.now) }
{
    let mut numbers = Items::with_capacity(alloc, members.len())?;
    for index in members {
        numbers.push(own_numbers(alloc, keys, index.keys.as_slice())?)?;
    }
    Ok(numbers)
}

/// Those of members with these keys.
fn own_numbers(alloc: Global, keys: &[Key], own: &[Key]) -> M<Items<u32>>
    requires order { IsSorted key_cmp keys.now }
    requires few { length keys.now < 4294967295 }
    ensures { IfOk result (λ numbers. numbers
        ≡ map (λ (key : KeyValue). number_in keys.now (key.0, key.1.0)) own.now) }
{
    let mut numbers = Items::with_capacity(alloc, own.len())?;
    for key in own {
        let number = number_in(keys, &key.0, &key.1.0);
        numbers.push(number as u32)?;
    }
    Ok(numbers)
}

/// The number of a name and a descriptor that a key has; of all others it is how many keys there are.
fn number_in(keys: &[Key], name: &Name, ty: &Text) -> usize
    requires { IsSorted key_cmp keys.now }
    ensures is { result ≡ number_in keys.now (name.now, ty.now) }
    ensures within { result ≤ length keys.now }
{
    let place = place_of(keys, name, ty);
    match number_at(keys, place, name, ty) {
        Some(_) => place,
        None => keys.len(),
    }
}
