// Which methods run, in any set and for any reference (JVMS 5.4.5, 6.5): what was found for a reference may be a field
// here, and no rule of `check_links` is asked for.
ghost use Rattle.std.specs.Prelude.{◌≡◌, IfSome, false};
ghost use Rattle.std.specs.List.{find, list_any};
ghost use Rattle.class_pool.specs.Found.{IsMember, declared_by, is_method_at, named_at, same_member};
ghost use Rattle.class_pool.specs.Hierarchy.{IsClass};
ghost use Rattle.class_pool.specs.Selection.{selected, selected_special};
ghost use Rattle.class_pool.specs.Supers.{is_below};
ghost use Rattle.class_pool.specs.Walk.{same_class, superclasses_from};
ghost use Rattle.class_pool.specs.bodies.Supers.{is_self_or_own};

use crate::references::selection::select;
use crate::references::special::first_instance_up;
use crate::rules::member_uses::{is_same, is_same_class};
use class_model::MemberRef;
use class_pool::{ClassId, ClassSet, MemberAt, Superclasses};

/// Whether a class is another one or one of its supertypes is, by the walk over its supertypes (JLS 4.10.2). Takes no
/// memory.
pub fn is_below(set: &ClassSet, below: ClassId, above: ClassId) -> bool
    requires below { IsClass set.now below }
    ensures { result ≡ is_below set.now below above }
{
    for class in Superclasses::of(set, below) {
        if is_self_or_own(set, &class, &above) {
            return true;
        }
    }
    false
}

/// Whether a class is another one or has it as a superinterface itself.
fn is_self_or_own(set: &ClassSet, class: &ClassId, other: &ClassId) -> bool
    requires { IsClass set.now class.now }
    ensures { result ≡ is_self_or_own set.now other.now class.now }
{
    is_same_class(other, class) || has_class(set.own_superinterfaces(*class), other)
}

fn has_class(classes: &[ClassId], class: &ClassId) -> bool
    ensures { result ≡ list_any (same_class class.now) classes.now }
{
    classes.iter().any(|other| is_same_class(class, other))
}

/// The method that runs where an object of a class is the receiver of a call of what was found for a reference (JVMS
/// 6.5.invokevirtual, 6.5.invokeinterface); none where nothing fits. Takes no memory.
pub fn select_for(set: &ClassSet, class: ClassId, r: &MemberRef, m: MemberAt) -> Option<MemberAt>
    requires class { IsClass set.now class }
    requires there { IsMember set.now m }
    requires named { named_at set.now m ≡ (r.now.name, r.now.ty) }
    ensures is { result ≡ selected set.now class m }
    ensures there { IfSome result (IsMember set.now) }
    ensures named { IfSome result (λ x. named_at set.now x ≡ (r.now.name, r.now.ty)) }
{
    let class = &class;
    let m = &m;
    if set.is_method(*m) {
        select(set, *class, *m)
    } else {
        select_field(set, class, r, m)
    }
}

/// The same where a field was found.
fn select_field(set: &ClassSet, class: &ClassId, r: &MemberRef, m: &MemberAt) -> Option<MemberAt>
    requires class { IsClass set.now class.now }
    requires there { IsMember set.now m.now }
    requires named { named_at set.now m.now ≡ (r.now.name, r.now.ty) }
    requires field { is_method_at set.now m.now ≡ false }
    ensures is { result ≡ selected set.now class.now m.now }
    ensures there { IfSome result (IsMember set.now) }
{
    if set.is_interface(m.class) {
        first_instance_up(set, Some(*class), r)
    } else {
        first_same(set, class, r, m)
    }
}

/// The member itself, where a class or a superclass of it declares it under the name and the descriptor of a reference.
fn first_same(set: &ClassSet, class: &ClassId, r: &MemberRef, m: &MemberAt) -> Option<MemberAt>
    requires class { IsClass set.now class.now }
    ensures is { result ≡ find (λ x. same_member x m.now)
        (declared_by set.now (r.now.name, r.now.ty) (superclasses_from set.now class.now)) }
    ensures there { IfSome result (IsMember set.now) }
{
    for class in Superclasses::of(set, *class) {
        if let Some(found) = &set.declared_in(class, &r.name, &r.ty) {
            if is_same(found, m) {
                return Some(*found);
            }
        }
    }
    None
}

/// The method that invokespecial runs in a class, where this was found for its reference through the class that it
/// names (JVMS 6.5.invokespecial); none where nothing fits. Takes no memory.
pub fn select_special_for(
    set: &ClassSet,
    from: ClassId,
    named: ClassId,
    r: &MemberRef,
    m: MemberAt,
) -> Option<MemberAt>
    requires from { IsClass set.now from }
    requires there { IsMember set.now m }
    requires named { named_at set.now m ≡ (r.now.name, r.now.ty) }
    ensures is { result ≡ selected_special set.now from named m }
    ensures there { IfSome result (IsMember set.now) }
    ensures named { IfSome result (λ x. named_at set.now x ≡ (r.now.name, r.now.ty)) }
{
    let m = &m;
    if set.is_init_member(*m) {
        return Some(*m);
    }
    let from = &from;
    if is_same_class(from, &named) {
        first_instance_up(set, Some(*from), r)
    } else {
        first_instance_up(set, set.super_of(*from), r)
    }
}
