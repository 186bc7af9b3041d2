// The superinterfaces of a class, one after the other (JVMS 4.10).
ghost use Rattle.std.specs.Prelude.{◌≡◌, ◌++◌, []};
ghost use Rattle.std.specs.List.{All};
ghost use Rattle.class_pool.specs.Hierarchy.{IsClass};
ghost use Rattle.link_check.specs.bodies.Walks.{superinterfaces_met, superinterfaces_of};

use class_pool::{ClassId, ClassSet, Superclasses};
use std::marker::Model;

/// The superinterfaces of a class: those that it has itself, then those of its superclass, and so on. Of one class each
/// comes once.
#[derive(Drop)]
pub(crate) struct Superinterfaces<'a> {
    set: &'a ClassSet,
    /// The classes whose superinterfaces come later.
    classes: Superclasses<'a>,
    /// Those of one class that come next.
    interfaces: &'a [ClassId],
}

impl<'a> Model for Superinterfaces<'a> {
    ghost use Rattle.std.specs.Prelude.{List, ◌++◌};
    ghost use Rattle.std.specs.List.{All};
    ghost use Rattle.class_pool.specs.declared.id.ClassId.{ClassId};
    ghost use Rattle.class_pool.specs.Hierarchy.{IsClass};
    ghost use Rattle.link_check.specs.bodies.Walks.{superinterfaces_of};

    ghost Value = { List ClassId };

    ghost view = { λ s. s.interfaces.now ++ superinterfaces_of s.set.now s.classes };

    ghost invariant = { λ s. All (IsClass s.set.now) s.interfaces.now × All (IsClass s.set.now) s.classes };
}

impl<'a> Superinterfaces<'a> {
    pub(crate) fn of(set: &'a ClassSet, class: ClassId) -> Self
        requires { IsClass set.now class }
        ensures are { result ≡ superinterfaces_met set.now class }
        ensures there { All (IsClass set.now) result }
    {
        Superinterfaces {
            set,
            classes: Superclasses::of(set, class),
            interfaces: &[],
        }
    }
}

impl<'a> Iterator for Superinterfaces<'a> {
    type Item = ClassId;

    ghost use Rattle.std.specs.Iterator.{YieldsFirst, item_count};

    ghost next_gives = { YieldsFirst (λ s. s) };

    ghost remaining = { item_count (λ s. s) };

    fn next(&mut self) -> Option<ClassId> {
        self.interfaces = next_interfaces(self.set, self.interfaces, &mut self.classes);
        let (first, others) = self.interfaces.split_first()?;
        self.interfaces = others;
        Some(*first)
    }
}

/// These interfaces; where there are none, the superinterfaces of the first one of these classes that has some itself.
fn next_interfaces<'a>(
    set: &'a ClassSet,
    interfaces: &'a [ClassId],
    classes: &mut Superclasses<'a>,
) -> &'a [ClassId]
    requires now { All (IsClass set.now) interfaces.now }
    requires later { All (IsClass set.now) classes.old }
    ensures left { interfaces.now ++ superinterfaces_of set.now classes.old ≡ result.now
        ++ superinterfaces_of set.now classes.new }
    ensures last { result.now ≡ [] → classes.new ≡ [] }
    ensures now { All (IsClass set.now) result.now }
    ensures later { All (IsClass set.now) classes.new }
{
    if !interfaces.is_empty() {
        return interfaces;
    }
    while let Some(class) = classes.next() {
        let own = set.own_superinterfaces(class);
        if !own.is_empty() {
            return own;
        }
    }
    &[]
}
