// The items of a set by their numbers.
ghost use Rattle.std.specs.Prelude.{◌≡◌, ◌+◌, ◌<◌, IfOk, IsTrue, Some, false, length, slice_get};
ghost use Rattle.std.specs.Option.{ForSome};
ghost use Rattle.class_pool.specs.Count.{item_count};
ghost use Rattle.class_pool.specs.Found.{IsMember};
ghost use Rattle.class_pool.specs.Items.{class_item, item_of};
ghost use Rattle.class_pool.specs.declared.id.ClassId.TheVariants.{Prog};
ghost use Rattle.item_numbers.specs.bodies.Alone.{AreAlone, IsAlone};
ghost use Rattle.require_sys.specs.bodies.Starts.{AreStarts};
ghost use Rattle.item_numbers.specs.bodies.Tops.{AreLibraryTops, AreTops, IsLibraryTop, IsTop};

use crate::supers::is_same_class;
use crate::tops::{Tops, tops_of};
use class_pool::{ClassId, ClassSet, MemberAt};
use jv_base::{Items, M};
use std::alloc::Global;

/// A set with its items by number: each class, then its fields, then its methods.
#[derive(Drop)]
pub struct Numbered<'a> {
    pub set: &'a ClassSet,
    /// The item of each class, and behind these how many items there are.
    starts: Items<u32>,
    /// Object, where its name leads to a class.
    object: Option<ClassId>,
    /// For each member of Object whether a class of the set may have one with its name and descriptor.
    declared: &'a [bool],
    tops: Tops,
    ghost alone: { ForSome object (λ class. AreAlone set.now class declared.now) },
    ghost few: { item_count set.now < 4294967295 },
    ghost are: { AreStarts set.now starts },
    ghost same: { AreTops set.now tops.methods.items },
    ghost libraries: { AreLibraryTops set.now tops.libraries.items },
}

impl<'a> Numbered<'a> {
    /// Numbers the items of a set, once for all look-ups.
    pub fn of(
        alloc: Global,
        set: &'a ClassSet,
        object: Option<ClassId>,
        declared: &'a [bool],
    ) -> M<Self>
        requires { ForSome object (λ class. AreAlone set.now class declared.now) }
        ensures { IfOk result (λ numbered. numbered.set.now ≡ set.now) }
    {
        set.few_items();
        let starts = starts_of(alloc, set)?;
        let tops = tops_of(alloc, set)?;
        Ok(Numbered {
            set,
            starts,
            object,
            declared,
            tops,
        })
    }

    /// How many items the set has.
    pub fn count(&self) -> u32
        ensures { result ≡ item_count self.now.set.now }
    {
        self.starts[self.set.len() as usize]
    }

    /// Whether it is known that no class of the set has a member with the name and the descriptor of a member.
    pub fn is_alone(&self, member: &MemberAt) -> bool
        ensures { IsTrue result → IsAlone self.now.set.now member.now }
    {
        match &self.object {
            Some(object) => {
                is_same_class(object, &member.class) && is_false(self.declared, member.index)
            }
            None => false,
        }
    }

    /// A class in which the same methods run: the class itself, or one above it.
    pub fn top(&self, number: u32) -> u32
        requires { number < length self.now.set.now }
        ensures { IsTop self.now.set.now number result }
    {
        self.tops.methods[number as usize]
    }

    /// A class above which the same classes of the library are: the class itself, or one above it.
    pub fn library_top(&self, number: u32) -> u32
        requires { number < length self.now.set.now }
        ensures { IsLibraryTop self.now.set.now number result }
    {
        self.tops.libraries[number as usize]
    }

    /// The item of a class of the set.
    pub fn class_item(&self, number: u32) -> u32
        requires { number < length self.now.set.now }
        ensures { result ≡ class_item self.now.set.now number }
    {
        self.starts[number as usize]
    }

    /// The item of a member of a class of the set, by its number there.
    pub fn member_item(&self, number: u32, index: u32) -> u32
        requires { IsMember self.now.set.now (record { class = Prog number; index = index }) }
        ensures { result ≡ class_item self.now.set.now number + 1 + index }
    {
        self.starts[number as usize] + 1 + index
    }

    /// The item of a member; one of the library is none.
    pub fn item_of(&self, member: MemberAt) -> Option<u32>
        requires { IsMember self.now.set.now member }
        ensures { result ≡ item_of self.now.set.now member }
    {
        match member.class {
            ClassId::Prog(number) => Some(self.member_item(number, member.index)),
            ClassId::Lib(_) => None,
        }
    }
}

/// Whether a list says false at a place.
fn is_false(flags: &[bool], at: u32) -> bool
    ensures { IsTrue result → slice_get flags.now at ≡ Some false }
{
    match flags.get(at as usize) {
        Some(flag) => !*flag,
        None => false,
    }
}

fn starts_of(alloc: Global, set: &ClassSet) -> M<Items<u32>>
    requires { item_count set.now < 4294967295 }
    ensures { IfOk result (AreStarts set.now) }
{
    let mut starts = Items::new(alloc);
    let mut next = 0;
    starts.push(next)?;
    for number in 0..set.len() {
        let class = set.class(number);
        next += 1 + (class.fields.len() + class.methods.len()) as u32;
        starts.push(next)?;
    }
    Ok(starts)
}
