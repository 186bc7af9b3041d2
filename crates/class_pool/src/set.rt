// A set of classes.
ghost use Rattle.std.specs.Prelude.{◌≡◌, ◌+◌, [], ◌<◌, ◌↔◌, IsTrue, codes, length, slice_get, IfOk, IfSome, Some};
ghost use Rattle.std.specs.List.{All};
ghost use Rattle.class_pool.specs.Hierarchy.{IsClass, class_named, superclass};
ghost use Rattle.class_pool.specs.Ranks.{HasRanks};
ghost use Rattle.class_pool.specs.Members.{declared_at};
ghost use Rattle.class_pool.specs.Supers.{IsSupers};
ghost use Rattle.class_pool.specs.bodies.Supers.{is_self_or_own};
ghost use Rattle.class_pool.specs.Supertypes.{NoCycle, Sub};
ghost use Rattle.class_pool.specs.Walk.{each_once, own_superinterfaces, supers};

pub mod declaring;
pub mod descriptors;
pub mod found;
pub mod kind;
pub mod lookup;
pub mod members;
pub mod method_like;
pub mod notes;
pub mod order;
pub mod package;

use crate::ClassId;
use crate::hierarchy::graph::number;
use crate::hierarchy::shared_lists::SharedLists;
use crate::hierarchy::supers::supers_of;
use crate::id::{has_class, is_same_class};
use crate::set::lookup::ClassesByName;
use crate::set::members::MemberIndex;
use crate::set::notes::MemberNotes;
use crate::upwards::{Superclasses, superclasses_of};
use class_model::Class;
use jv_base::{Items, M, Name, Text};
use lib_table::{LibId, lib_member, lib_super};
use std::alloc::Global;
use std::marker::Model;

/// A set of classes, numbered from 0 in the order of their files.
#[derive(Drop)]
pub struct ClassSet {
    pub(crate) classes: ClassesByName,
    pub(crate) members: Items<MemberIndex>,
    /// For each class the descriptors of its methods.
    pub(crate) descriptors: Items<Items<Text>>,
    pub(crate) library: Items<LibId>,
    /// For each class, by its number, the superinterfaces that it has itself.
    pub(crate) superinterfaces: SharedLists,
    /// Object, where its name leads to a class.
    pub(crate) object: Option<ClassId>,
    /// For each class its superclass.
    pub(crate) superclasses: Items<Option<ClassId>>,
    /// From which class on upwards members are to be looked for.
    pub(crate) notes: MemberNotes,
}

impl Model for ClassSet {
    ghost use Rattle.std.specs.Prelude.{List, codes, ◌≡◌, map};
    ghost use Rattle.std.specs.List.{AllZip};
    ghost use Rattle.class_model.specs.declared.class.Class.{Class};
    ghost use Rattle.class_pool.specs.bodies.ByName.{IsIndexOf};
    ghost use Rattle.class_pool.specs.bodies.Descriptors.{method_texts};
    ghost use Rattle.class_pool.specs.bodies.Graph.{library_ids};
    ghost use Rattle.class_pool.specs.Hierarchy.{class_named, superclass_of};
    ghost use Rattle.class_pool.specs.bodies.Lists.{AreOwn};
    ghost use Rattle.class_pool.specs.bodies.Notes.{IsNoted};
    ghost use Rattle.class_pool.specs.Ranks.{HasObject, HasRanks};
    ghost use Rattle.class_pool.specs.Supertypes.{NoCycle};

    ghost Value = { List Class };

    ghost view = { λ s. s.classes };

    ghost invariant = { λ s. (s.library ≡ library_ids) × HasRanks s.classes × AllZip IsIndexOf s.classes s.members
        × NoCycle s.classes × AreOwn s.classes s.superinterfaces × (s.descriptors ≡ map method_texts s.classes)
        × (s.object ≡ class_named s.classes (codes "java/lang/Object")) × HasObject s.classes
        × (s.superclasses ≡ map (superclass_of s.classes) s.classes) × IsNoted s.superclasses s.members s.notes };
}

impl ClassSet {
    /// How many classes it has.
    pub fn len(&self) -> u32
        ensures { result ≡ length self.now }
    {
        self.classes.len()
    }

    /// The classes alone, in their order. Takes no memory.
    pub fn into_classes(self) -> Items<Class>
        ensures { result ≡ self }
    {
        self.classes.into_classes()
    }

    /// The class of a name in internal form, in the set or in the library, by one look-up.
    pub fn find(&self, name: &Name) -> Option<ClassId>
        ensures found { result ≡ class_named self.now name.now }
        ensures there { IfSome result (IsClass self.now) }
    {
        self.classes.find(name)
    }

    /// Object, the class above all others, as it is found by its name (JVMS 4.1). Takes no memory.
    pub fn object(&self) -> Option<ClassId>
        ensures found { result ≡ class_named self.now (codes "java/lang/Object") }
        ensures there { IfSome result (IsClass self.now) }
    {
        self.object
    }

    /// The class with a number.
    pub fn class(&self, id: u32) -> &Class
        requires { id < length self.now }
        ensures is { slice_get self.now id ≡ Some result.now }
        ensures few { length result.now.fields + length result.now.methods < 4294967295 }
    {
        self.classes.class(id)
    }

    /// The direct superclass (JVMS 4.1); only Object has none. That of an interface is Object. No name is looked up.
    pub fn super_of(&self, id: ClassId) -> Option<ClassId>
        requires { IsClass self.now id }
        ensures { result ≡ superclass self.now id }
    {
        match id {
            ClassId::Prog(number) => self.superclasses[number as usize],
            ClassId::Lib(id) => {
                let above = lib_super(id)?;
                Some(ClassId::Lib(above))
            }
        }
    }

    /// Whether a class is the other one or has it as a supertype, direct or not (JVMS 4.10). Takes no memory; its
    /// superclasses are gone over upwards, each with its own superinterfaces.
    pub fn is_sub(&self, a: ClassId, b: ClassId) -> bool
        requires below { IsClass self.now a }
        requires above { IsClass self.now b }
        ensures { IsTrue result ↔ Sub self.now a b }
    {
        let _ = &self.classes;
        let _count = self.len();
        for class in Superclasses::of(self, a) {
            if self.is_self_or_own(&class, &b) {
                return true;
            }
        }
        false
    }

    /// Whether a class is another one or has it as a superinterface itself.
    fn is_self_or_own(&self, class: &ClassId, other: &ClassId) -> bool
        requires { IsClass self.now class.now }
        ensures { result ≡ is_self_or_own self.now other.now class.now }
    {
        is_same_class(other, class) || has_class(self.own_superinterfaces(*class), other)
    }

    /// The superinterfaces that a class has itself: the direct ones in their order, each followed by its own, each
    /// once, where it is met first. It takes no memory.
    pub fn own_superinterfaces(&self, id: ClassId) -> &[ClassId]
        requires there { IsClass self.now id }
        ensures are { result.now ≡ each_once [] (own_superinterfaces self.now id) }
        ensures there { All (IsClass self.now) result.now }
    {
        self.superinterfaces.at(number(&self.library, id))
    }

    /// No class of the set is its own supertype (JVMS 5.3.5). It does nothing.
    pub fn no_class_is_its_own_supertype(&self)
        ensures { NoCycle self.now }
    {
        let _ = &self.classes;
    }

    /// Each class can be given a rank above those of its direct supertypes. It does nothing.
    pub fn has_ranks(&self)
        ensures { HasRanks self.now }
    {
        let _ = &self.classes;
    }

    /// The supertypes of a class, direct or not (JVMS 4.10), without the class itself. First come its superclasses
    /// upwards, then the superinterfaces that it has itself, those of its superclass, and so on. Each comes once, where
    /// it is met first.
    pub fn supers(&self, alloc: Global, id: ClassId) -> M<Items<ClassId>>
        requires { IsClass self.now id }
        ensures order { IfOk result (λ ids. ids ≡ supers self.now id) }
        ensures are { IfOk result (IsSupers self.now id) }
    {
        let chain = superclasses_of(alloc, self, &id)?;
        let superinterfaces = &self.superinterfaces;
        supers_of(
            alloc,
            &self.classes,
            &self.library,
            superinterfaces,
            &id,
            chain.as_slice(),
        )
    }

    /// The number of the member that the class declares with a name and a descriptor (JVMS 4.3). A program class has
    /// its fields and then its methods; its members are searched in the order of names and descriptors. It takes no
    /// memory.
    pub fn declares(&self, id: ClassId, name: &Name, ty: &Text) -> Option<u32>
        requires { IsClass self.now id }
        ensures { result ≡ declared_at self.now id name.now ty.now }
    {
        match id {
            ClassId::Prog(number) => {
                self.members[number as usize].find(self.class(number), name, ty)
            }
            ClassId::Lib(id) => {
                let member = lib_member(id, name, ty)?;
                Some(member.at)
            }
        }
    }
}
