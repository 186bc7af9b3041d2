// Which one of the methods of superinterfaces is found (JVMS 5.4.3.3).
ghost use Rattle.std.specs.Prelude.{◌≡◌, IfSome};
ghost use Rattle.std.specs.Iterator.{YieldsFirst};
ghost use Rattle.std.specs.List.{All, list_all};
ghost use Rattle.class_pool.specs.Found.{IsMember, same_member};
ghost use Rattle.class_pool.specs.Hierarchy.{IsClass};
ghost use Rattle.class_pool.specs.Resolution.{chosen, first, is_maximally_specific, is_open, is_subinterface};
ghost use Rattle.class_pool.specs.Resolution.{maximally_specific, superinterface_methods};
ghost use Rattle.link_check.specs.bodies.Walks.{candidates, is_candidate, methods_met, open_methods};

use crate::references::superinterfaces::Superinterfaces;
use crate::rules::member_uses::is_same;
use class_pool::{ClassId, ClassSet, MemberAt};
use jv_base::{Name, Text};
use std::marker::Model;

/// The method of the superinterfaces of a class that has a name and a descriptor: the only one that is maximally
/// specific and not abstract, else the first one that is met.
pub(crate) fn superinterface_method(
    set: &ClassSet,
    class: &ClassId,
    name: &Name,
    ty: &Text,
) -> Option<MemberAt>
    requires { IsClass set.now class.now }
    ensures is { result ≡ chosen set.now (superinterface_methods set.now class.now (name.now, ty.now)) }
    ensures there { IfSome result (IsMember set.now) }
{
    match maximally_specific(set, class, name, ty) {
        Some(m) => Some(m),
        None => SuperinterfaceMethods::of(set, *class, name, ty).next(),
    }
}

/// The only method that is maximally specific and not abstract.
fn maximally_specific(set: &ClassSet, class: &ClassId, name: &Name, ty: &Text) -> Option<MemberAt>
    requires { IsClass set.now class.now }
    ensures is { result ≡ maximally_specific set.now (superinterface_methods set.now class.now (name.now, ty.now)) }
    ensures there { IfSome result (IsMember set.now) }
{
    let first = first_candidate(set, class, name, ty)?;
    if is_only_candidate(set, class, name, ty, &first) {
        Some(first)
    } else {
        None
    }
}

fn first_candidate(set: &ClassSet, class: &ClassId, name: &Name, ty: &Text) -> Option<MemberAt>
    requires { IsClass set.now class.now }
    ensures is { result ≡ first (candidates set.now (superinterface_methods set.now class.now (name.now, ty.now))) }
    ensures there { IfSome result (IsMember set.now) }
{
    for m in SuperinterfaceMethods::of(set, *class, name, ty) {
        if is_candidate(set, class, name, ty, &m) {
            return Some(m);
        }
    }
    None
}

fn is_only_candidate(
    set: &ClassSet,
    class: &ClassId,
    name: &Name,
    ty: &Text,
    one: &MemberAt,
) -> bool
    requires { IsClass set.now class.now }
    ensures { result ≡ list_all (same_member one.now)
        (candidates set.now (superinterface_methods set.now class.now (name.now, ty.now))) }
{
    for m in SuperinterfaceMethods::of(set, *class, name, ty) {
        if !is_candidate(set, class, name, ty, &m) {
            continue;
        }
        if !is_same(one, &m) {
            return false;
        }
    }
    true
}

/// Whether a method of a superinterface isn't abstract and is maximally specific. Most are abstract, so that the others
/// need no look.
fn is_candidate(set: &ClassSet, class: &ClassId, name: &Name, ty: &Text, m: &MemberAt) -> bool
    requires class { IsClass set.now class.now }
    requires there { IsMember set.now m.now }
    ensures { result ≡ is_candidate set.now (superinterface_methods set.now class.now (name.now, ty.now)) m.now }
{
    !set.is_abstract_member(*m) && is_maximally_specific(set, class, name, ty, m)
}

fn is_maximally_specific(
    set: &ClassSet,
    class: &ClassId,
    name: &Name,
    ty: &Text,
    m: &MemberAt,
) -> bool
    requires class { IsClass set.now class.now }
    requires there { IsMember set.now m.now }
    ensures { result ≡ is_maximally_specific set.now
        (superinterface_methods set.now class.now (name.now, ty.now)) m.now }
{
    for other in SuperinterfaceMethods::of(set, *class, name, ty) {
        if is_subinterface(set, other.class, &m.class) {
            return false;
        }
    }
    true
}

/// Whether a class has an interface as a superinterface.
fn is_subinterface(set: &ClassSet, below: ClassId, above: &ClassId) -> bool
    requires { IsClass set.now below }
    ensures { result ≡ is_subinterface set.now below above.now }
{
    for interface in Superinterfaces::of(set, below) {
        if interface == *above {
            return true;
        }
    }
    false
}

/// The methods of the superinterfaces of a class that have a name and a descriptor and are neither private nor static.
#[derive(Drop)]
struct SuperinterfaceMethods<'a> {
    set: &'a ClassSet,
    name: &'a Name,
    ty: &'a Text,
    interfaces: Superinterfaces<'a>,
}

impl<'a> Model for SuperinterfaceMethods<'a> {
    ghost use Rattle.std.specs.Prelude.{List};
    ghost use Rattle.std.specs.List.{All};
    ghost use Rattle.class_pool.specs.declared.id.MemberAt.{MemberAt};
    ghost use Rattle.class_pool.specs.Hierarchy.{IsClass};
    ghost use Rattle.link_check.specs.bodies.Walks.{open_methods};

    ghost Value = { List MemberAt };

    ghost view = { λ s. open_methods s.set.now (s.name.now, s.ty.now) s.interfaces };

    ghost invariant = { λ s. All (IsClass s.set.now) s.interfaces };
}

impl<'a> SuperinterfaceMethods<'a> {
    fn of(set: &'a ClassSet, class: ClassId, name: &'a Name, ty: &'a Text) -> Self
        requires { IsClass set.now class }
        ensures are { result ≡ methods_met set.now class (name.now, ty.now) }
        ensures there { All (IsMember set.now) result }
    {
        SuperinterfaceMethods {
            set,
            name,
            ty,
            interfaces: Superinterfaces::of(set, class),
        }
    }
}

impl<'a> Iterator for SuperinterfaceMethods<'a> {
    type Item = MemberAt;

    ghost use Rattle.std.specs.Iterator.{YieldsFirst, item_count};

    ghost next_gives = { YieldsFirst (λ s. s) };

    ghost remaining = { item_count (λ s. s) };

    fn next(&mut self) -> Option<MemberAt> {
        next_open(self.set, self.name, self.ty, &mut self.interfaces)
    }
}

/// The open method of the first one of these interfaces that has one.
fn next_open(
    set: &ClassSet,
    name: &Name,
    ty: &Text,
    interfaces: &mut Superinterfaces<'_>,
) -> Option<MemberAt>
    requires { All (IsClass set.now) interfaces.old }
    ensures first { YieldsFirst (open_methods set.now (name.now, ty.now)) interfaces.old result interfaces.new }
    ensures later { All (IsClass set.now) interfaces.new }
{
    while let Some(interface) = interfaces.next() {
        if let Some(m) = set.declared_in(interface, name, ty) {
            if is_open(set, &m) {
                return Some(m);
            }
        }
    }
    None
}

fn is_open(set: &ClassSet, m: &MemberAt) -> bool
    requires { IsMember set.now m.now }
    ensures { result ≡ is_open set.now m.now }
{
    !set.is_private_member(*m) && !set.is_static_member(*m)
}
