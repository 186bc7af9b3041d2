// The superclasses of a class, one after the other (JVMS 4.1).
ghost use Rattle.std.specs.Prelude.{◌≡◌, IfOk, IfSome};
ghost use Rattle.std.specs.List.{All};
ghost use Rattle.class_pool.specs.Hierarchy.{IsClass};
ghost use Rattle.class_pool.specs.Walk.{superclasses_from, superclasses_up};

use crate::{ClassId, ClassSet};
use jv_base::{Items, M};
use std::alloc::Global;
use std::marker::Model;
use std::mem;

/// More than any set has classes, those of the library with them.
const HIGHEST: u64 = 1 << 33;

/// A class and its superclasses, the nearest first.
#[derive(Drop)]
pub struct Superclasses<'a> {
    set: &'a ClassSet,
    next: Option<ClassId>,
    /// How many more may come. In a set without cycles the last class comes before.
    left: u64,
}

impl<'a> Model for Superclasses<'a> {
    ghost use Rattle.std.specs.Prelude.{List, [], IfSome};
    ghost use Rattle.std.specs.Option.{option_map_or};
    ghost use Rattle.class_pool.specs.declared.id.ClassId.{ClassId};
    ghost use Rattle.class_pool.specs.Hierarchy.{IsClass};
    ghost use Rattle.class_pool.specs.Walk.{upwards};

    ghost Value = { List ClassId };

    ghost view = { λ s. option_map_or (upwards s.left s.set.now) s.next [] };

    ghost invariant = { λ s. IfSome s.next (IsClass s.set.now) };
}

impl<'a> Superclasses<'a> {
    /// The class and its superclasses.
    pub fn of(set: &'a ClassSet, class: ClassId) -> Self
        requires { IsClass set.now class }
        ensures are { result ≡ superclasses_from set.now class }
        ensures there { All (IsClass set.now) result }
    {
        Superclasses::up(set, Some(class))
    }

    /// From this class upwards, if there is one.
    pub fn up(set: &'a ClassSet, next: Option<ClassId>) -> Self
        requires { IfSome next (IsClass set.now) }
        ensures are { result ≡ superclasses_up set.now next }
        ensures there { All (IsClass set.now) result }
    {
        let left = HIGHEST;
        Superclasses { set, next, left }
    }
}

impl<'a> Iterator for Superclasses<'a> {
    type Item = ClassId;

    ghost use Rattle.std.specs.Iterator.{YieldsFirst, item_count};

    ghost next_gives = { YieldsFirst (λ s. s) };

    ghost remaining = { item_count (λ s. s) };

    fn next(&mut self) -> Option<ClassId> {
        if self.left == 0 {
            return None;
        }
        let above = self.set.super_of(self.next?);
        self.left -= 1;
        mem::replace(&mut self.next, above)
    }
}

/// A class and its superclasses, the nearest first.
pub(crate) fn superclasses_of(alloc: Global, set: &ClassSet, id: &ClassId) -> M<Items<ClassId>>
    requires { IsClass set.now id.now }
    ensures { IfOk result (λ ids. ids ≡ superclasses_from set.now id.now) }
{
    let mut ids = Items::new(alloc);
    for class in Superclasses::of(set, *id) {
        ids.push(class)?;
    }
    Ok(ids)
}
