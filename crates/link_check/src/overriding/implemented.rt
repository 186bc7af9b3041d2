// The methods that run where those of the superinterfaces of a class are called (JVMS 5.4.5, 6.5).
#![tactic(auto, using(crate::proofs::Least::is_none))]

ghost use Rattle.std.specs.Prelude.{◌≡◌, ◌<◌, [], IfSome, if◌then◌else◌, length};
ghost use Rattle.std.specs.List.{All, flat_map};
ghost use Rattle.class_pool.specs.Found.{IsMethod, IsMember, is_instance_method};
ghost use Rattle.class_pool.specs.Hierarchy.{IsClass};
ghost use Rattle.class_pool.specs.Walk.{own_superinterfaces};
ghost use Rattle.class_pool.specs.declared.id.ClassId.TheVariants.{Prog};
ghost use Rattle.link_check.specs.bodies.Inherited.{AreKnown, running_kinds, running_kinds_of};
ghost use Rattle.link_check.specs.Profile.{implementing_kinds, least, methods_of, selected_kinds};
ghost use Rattle.class_pool.specs.Walk.{superclasses_up};

use crate::ProfileKind;
use crate::overriding::inherited::{Known, fits_in, program_number};
use crate::references::selection::select;
use crate::rules::kind_order::lesser;
use crate::rules::member_uses::role_kind;
use bitflags::Flags;
use class_model::Class;
use class_pool::{ClassId, ClassSet, MemberAt, Superclasses};
use jv_base::Access;

/// What is wrong with the methods that run where those of the program's superinterfaces of a class are called; an
/// abstract class has no objects.
pub(crate) fn implementing_kind(
    set: &ClassSet,
    known: &[Option<Known>],
    number: u32,
    class: &Class,
) -> Option<ProfileKind>
    requires there { number < length set.now }
    requires known { AreKnown set.now known.now }
    ensures { result ≡ least (implementing_kinds set.now number class.now) }
{
    if class.flags.contains(Access::ABSTRACT) {
        return None;
    }
    running_kind(set, known, number)
}

/// The same of a class that may be abstract. What fits the superclass fits the class, but for its own superinterfaces.
pub(crate) fn running_kind(
    set: &ClassSet,
    known: &[Option<Known>],
    number: u32,
) -> Option<ProfileKind>
    requires there { number < length set.now }
    requires known { AreKnown set.now known.now }
    ensures { result ≡ least (running_kinds set.now number) }
{
    if fits_in(known, number) {
        return None;
    }
    set.has_ranks();
    let _count = set.len();
    let above = set.super_of(ClassId::Prog(number));
    let own = own_kind(set, number, &ClassId::Prog(number));
    if let Some(superclass) = program_number(&above) {
        if fits_in(known, superclass) {
            return own;
        }
    }
    lesser(own, superinterfaces_kind(set, number, above))
}

/// The same of the superinterfaces of a class and of its superclasses.
fn superinterfaces_kind(set: &ClassSet, number: u32, class: Option<ClassId>) -> Option<ProfileKind>
    requires there { number < length set.now }
    requires class { IfSome class (IsClass set.now) }
    ensures { result ≡ least (flat_map (running_kinds_of set.now number)
        (flat_map (own_superinterfaces set.now) (superclasses_up set.now class))) }
{
    let mut kind = None;
    for class in Superclasses::up(set, class) {
        let class = &class;
        kind = lesser(kind, own_kind(set, number, class));
    }
    kind
}

/// The same of the superinterfaces that a class has itself.
fn own_kind(set: &ClassSet, number: u32, class: &ClassId) -> Option<ProfileKind>
    requires there { number < length set.now }
    requires class { IsClass set.now class.now }
    ensures { result ≡ least (flat_map (running_kinds_of set.now number) (own_superinterfaces set.now class.now)) }
{
    interfaces_kind(set, number, set.own_superinterfaces(*class))
}

fn interfaces_kind(set: &ClassSet, number: u32, interfaces: &[ClassId]) -> Option<ProfileKind>
    requires there { number < length set.now }
    requires interfaces { All (IsClass set.now) interfaces.now }
    ensures { result ≡ least (flat_map (running_kinds_of set.now number) interfaces.now) }
{
    let mut kind = None;
    for interface in interfaces {
        kind = lesser(kind, interface_kind(set, number, interface));
    }
    kind
}

fn interface_kind(set: &ClassSet, number: u32, interface: &ClassId) -> Option<ProfileKind>
    requires there { number < length set.now }
    requires interface { IsClass set.now interface.now }
    ensures { result ≡ least (flat_map (selected_kinds set.now number) (methods_of set.now interface.now)) }
{
    match interface {
        ClassId::Prog(interface) => methods_kind(set, number, *interface),
        ClassId::Lib(_) => None,
    }
}

fn methods_kind(set: &ClassSet, number: u32, interface: u32) -> Option<ProfileKind>
    requires there { number < length set.now }
    requires interface { interface < length set.now }
    ensures { result ≡ least (flat_map (selected_kinds set.now number) (methods_of set.now (Prog interface))) }
{
    let class = set.class(interface);
    let count = class.fields.len() + class.methods.len();
    let mut kind = None;
    for index in 0..count as u32 {
        let m = MemberAt {
            class: ClassId::Prog(interface),
            index,
        };
        kind = lesser(kind, member_kind(set, number, &m));
    }
    kind
}

/// What is wrong with the method that runs where an instance method is called.
fn member_kind(set: &ClassSet, number: u32, m: &MemberAt) -> Option<ProfileKind>
    requires there { number < length set.now }
    requires member { IsMember set.now m.now }
    ensures { result ≡ least (if is_instance_method set.now m.now then selected_kinds set.now number m.now else []) }
{
    if set.is_instance_method(*m) {
        selected_kind(set, number, m)
    } else {
        None
    }
}

fn selected_kind(set: &ClassSet, number: u32, m: &MemberAt) -> Option<ProfileKind>
    requires there { number < length set.now }
    requires member { IsMember set.now m.now }
    requires method { IsMethod set.now m.now }
    ensures { result ≡ least (selected_kinds set.now number m.now) }
{
    match &select(set, ClassId::Prog(number), *m) {
        Some(one) => role_kind(set, one),
        None => None,
    }
}
