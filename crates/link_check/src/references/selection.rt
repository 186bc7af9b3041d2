// Which methods a method overrides, and which one a call runs (JVMS 5.4.5, 6.5).
ghost use Rattle.std.specs.List.{find};
ghost use Rattle.std.specs.Prelude.{◌≡◌, ◌&&◌, IfSome, false, not};
ghost use Rattle.class_pool.specs.Found.{IsMethod, IsMember, is_protected_member, is_public_member, named_at};
ghost use Rattle.class_pool.specs.Hierarchy.{IsClass};
ghost use Rattle.class_pool.specs.Resolution.{first};
ghost use Rattle.class_pool.specs.Selection.{first_instance, overrides, overriding_from, selected};
ghost use Rattle.link_check.specs.bodies.Overriding.{alike_from, has_open_override, overrides_where};

use crate::overriding::{
    has_open_override, is_declared_from, is_first_like, may_be_overridden, may_override,
    overrides_above,
};
use crate::rules::member_uses::is_same;
use class_pool::{ClassId, ClassSet, MemberAt, Superclasses};

/// The method that runs where an object of a class is the receiver of a call of a method (JVMS 6.5.invokevirtual,
/// 6.5.invokeinterface); none where no method fits. Takes no memory.
pub fn select(set: &ClassSet, class: ClassId, m: MemberAt) -> Option<MemberAt>
    requires class { IsClass set.now class }
    requires there { IsMember set.now m }
    requires method { IsMethod set.now m }
    ensures is { result ≡ selected set.now class m }
    ensures there { IfSome result (IsMember set.now) }
{
    let m = &m;
    if set.is_interface(m.class) {
        first_instance(set, class, m)
    } else {
        first_overriding(set, &class, m)
    }
}

/// Whether a method overrides another one or is it (JVMS 5.4.5).
pub(crate) fn overrides(set: &ClassSet, m: MemberAt, above: MemberAt) -> bool
    requires one { IsMember set.now m }
    requires other { IsMember set.now above }
    requires method { IsMethod set.now above }
    ensures { result ≡ overrides set.now m above }
{
    let m = &m;
    let above = &above;
    if !is_first_like(set, m, above) {
        return false;
    }
    is_declared_from(set, &m.class, above) && overrides_above(set, m, above)
}

/// The first instance method of the name and the descriptor of another, from a class upwards.
fn first_instance(set: &ClassSet, class: ClassId, m: &MemberAt) -> Option<MemberAt>
    requires class { IsClass set.now class }
    requires there { IsMember set.now m.now }
    requires method { IsMethod set.now m.now }
    ensures is { result ≡ first_instance set.now class (named_at set.now m.now) }
    ensures there { IfSome result (IsMember set.now) }
{
    for class in Superclasses::up(set, set.alike_from(class, *m)) {
        if let Some(found) = &set.method_like(class, *m) {
            if set.is_instance_method(*found) {
                return Some(*found);
            }
        }
    }
    None
}

/// The first method from a class upwards that overrides another one or is it.
fn first_overriding(set: &ClassSet, class: &ClassId, m: &MemberAt) -> Option<MemberAt>
    requires class { IsClass set.now class.now }
    requires there { IsMember set.now m.now }
    requires method { IsMethod set.now m.now }
    ensures is { result ≡ first (overriding_from set.now class.now m.now) }
    ensures there { IfSome result (IsMember set.now) }
{
    if !is_declared_from(set, class, m) {
        return None;
    }
    nearest(set, class, m, is_opened(set, class, m))
}

/// Whether a method opens another one to all packages; of a public or protected one none is looked for.
fn is_opened(set: &ClassSet, class: &ClassId, m: &MemberAt) -> bool
    requires class { IsClass set.now class.now }
    requires there { IsMember set.now m.now }
    requires method { IsMethod set.now m.now }
    ensures { result ≡ (not (is_public_member set.now m.now) && not
        (is_protected_member set.now m.now) && has_open_override set.now m.now (alike_from set.now m.now class.now)) }
{
    !set.is_public_member(*m) && !set.is_protected_member(*m) && has_open_override(set, class, m)
}

/// The first method from a class upwards that is this one or overrides it by itself; any that may override, where a
/// method between them opens it to all packages.
fn nearest(set: &ClassSet, class: &ClassId, m: &MemberAt, opened: bool) -> Option<MemberAt>
    requires class { IsClass set.now class.now }
    requires there { IsMember set.now m.now }
    requires method { IsMethod set.now m.now }
    ensures is { result ≡ find (overrides_where set.now m.now opened) (alike_from set.now m.now class.now) }
    ensures there { IfSome result (IsMember set.now) }
{
    for class in Superclasses::up(set, set.alike_from(*class, *m)) {
        if let Some(found) = &set.method_like(class, *m) {
            if overrides_where(set, found, m, opened) {
                return Some(*found);
            }
        }
    }
    None
}

/// Whether a method is the one above or overrides it by itself; where that is opened to all packages, whether it may
/// override.
fn overrides_where(set: &ClassSet, m: &MemberAt, above: &MemberAt, opened: bool) -> bool
    requires one { IsMember set.now m.now }
    requires other { IsMember set.now above.now }
    ensures { result ≡ overrides_where set.now above.now opened m.now }
{
    is_same(m, above)
        || (may_override(set, m) && (opened || may_be_overridden(set, &m.class, above)))
}
