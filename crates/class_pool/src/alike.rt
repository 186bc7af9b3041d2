// The methods of one name and descriptor that a class and its superclasses declare (JVMS 5.4.5).
ghost use Rattle.std.specs.Prelude.{◌≡◌, IfSome};
ghost use Rattle.std.specs.Iterator.{YieldsFirst};
ghost use Rattle.std.specs.List.{All};
ghost use Rattle.class_pool.specs.Found.{IsMember, IsMethod, declared_by, named_at};
ghost use Rattle.class_pool.specs.Hierarchy.{IsClass};
ghost use Rattle.class_pool.specs.Walk.{superclasses_up};

use crate::{ClassId, ClassSet, MemberAt, Superclasses};
use std::marker::Model;

/// The methods with the name and the descriptor of another method that a class and its superclasses declare, that of
/// the nearest class first. Classes that declare none are passed over at once where a class has many superclasses.
#[derive(Drop)]
pub struct AlikeMethods<'a> {
    set: &'a ClassSet,
    m: MemberAt,
    /// The class from which on the others are declared.
    next: Option<ClassId>,
}

impl<'a> Model for AlikeMethods<'a> {
    ghost use Rattle.std.specs.Prelude.{List, IfSome};
    ghost use Rattle.class_pool.specs.declared.id.MemberAt.{MemberAt};
    ghost use Rattle.class_pool.specs.Found.{IsMember, IsMethod, declared_by, named_at};
    ghost use Rattle.class_pool.specs.Hierarchy.{IsClass};
    ghost use Rattle.class_pool.specs.Walk.{superclasses_up};

    ghost Value = { List MemberAt };

    ghost view = { λ s. declared_by s.set.now (named_at s.set.now s.m) (superclasses_up s.set.now s.next) };

    ghost invariant = { λ s. IfSome s.next (IsClass s.set.now) × IsMember s.set.now s.m × IsMethod s.set.now s.m };
}

impl<'a> AlikeMethods<'a> {
    /// From this class upwards, if there is one.
    pub fn up(set: &'a ClassSet, next: Option<ClassId>, m: MemberAt) -> Self
        requires class { IfSome next (IsClass set.now) }
        requires there { IsMember set.now m }
        requires method { IsMethod set.now m }
        ensures are { result ≡ declared_by set.now (named_at set.now m) (superclasses_up set.now next) }
        ensures there { All (IsMember set.now) result }
    {
        AlikeMethods { set, m, next }
    }
}

impl<'a> Iterator for AlikeMethods<'a> {
    type Item = MemberAt;

    ghost use Rattle.std.specs.Iterator.{YieldsFirst, item_count};

    ghost next_gives = { YieldsFirst (λ s. s) };

    ghost remaining = { item_count (λ s. s) };

    fn next(&mut self) -> Option<MemberAt> {
        next_alike(self.set, &self.m, &mut self.next)
    }
}

/// The method of the nearest class that declares one, and the class above that one.
fn next_alike(set: &ClassSet, m: &MemberAt, next: &mut Option<ClassId>) -> Option<MemberAt>
    requires class { IfSome next.old (IsClass set.now) }
    requires there { IsMember set.now m.now }
    requires method { IsMethod set.now m.now }
    ensures first { YieldsFirst (λ next. declared_by set.now (named_at set.now m.now) (superclasses_up set.now next))
        next.old result next.new }
    ensures class { IfSome next.new (IsClass set.now) }
{
    set.has_ranks();
    let _count = set.len();
    let from = set.alike_from((*next)?, *m);
    for class in Superclasses::up(set, from) {
        if let Some(found) = set.method_like(class, *m) {
            *next = set.super_of(class);
            return Some(found);
        }
    }
    *next = None;
    None
}
