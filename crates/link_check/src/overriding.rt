// Which methods a method overrides (JVMS 5.4.5).
ghost use Rattle.std.specs.Prelude.{◌≡◌, ◌↔◌, IsTrue, Some, false};
ghost use Rattle.class_pool.specs.Found.{IsMethod, IsMember, declared_in, named_at};
ghost use Rattle.class_pool.specs.Hierarchy.{IsClass};
ghost use Rattle.class_pool.specs.Resolution.{is_class_below};
ghost use Rattle.class_pool.specs.Selection.{may_be_overridden, may_override, overrides};
ghost use Rattle.link_check.specs.bodies.Overriding.{alike_from, has_open_override, is_among, overrides_openly};

pub mod implemented;
pub mod inherited;
pub mod overridden;

use crate::references::access::is_class_below;
use crate::rules::member_uses::is_same;
use class_pool::{ClassId, ClassSet, MemberAt, Superclasses};

/// Whether a method overrides one that its class or a superclass declares with its name and descriptor, or is it. Other
/// classes are looked at only where it may override some method, but not this one by itself.
pub(crate) fn overrides_above(set: &ClassSet, m: &MemberAt, above: &MemberAt) -> bool
    requires one { IsMember set.now m.now }
    requires other { IsMember set.now above.now }
    requires method { IsMethod set.now above.now }
    requires own { declared_in set.now (named_at set.now m.now) m.now.class ≡ Some m.now }
    requires alike { declared_in set.now (named_at set.now m.now) above.now.class ≡ Some above.now }
    requires below { IsTrue (is_class_below set.now m.now.class above.now.class) }
    ensures { result ≡ overrides set.now m.now above.now }
{
    is_same(m, above)
        || (may_override(set, m)
            && (may_be_overridden(set, &m.class, above) || has_open_override(set, &m.class, above)))
}

/// Whether a class or a superclass of it declares the method, as the first one of its name and descriptor.
pub(crate) fn is_declared_from(set: &ClassSet, class: &ClassId, above: &MemberAt) -> bool
    requires class { IsClass set.now class.now }
    requires there { IsMember set.now above.now }
    requires method { IsMethod set.now above.now }
    ensures { result ≡ is_among above.now (alike_from set.now above.now class.now) }
{
    is_first_like(set, above, above) && is_class_below(set, *class, above.class)
}

/// Whether a method is the first one of its class with the name and the descriptor of another.
pub(crate) fn is_first_like(set: &ClassSet, m: &MemberAt, other: &MemberAt) -> bool
    requires one { IsMember set.now m.now }
    requires other { IsMember set.now other.now }
    requires method { IsMethod set.now other.now }
    ensures { IsTrue result ↔ (declared_in set.now (named_at set.now other.now) m.now.class ≡ Some m.now) }
{
    match set.method_like(m.class, *other) {
        Some(own) => is_same(&own, m),
        None => false,
    }
}

/// An instance method of a class, not private; a method of an interface overrides none of a class.
pub(crate) fn may_override(set: &ClassSet, m: &MemberAt) -> bool
    requires { IsMember set.now m.now }
    ensures { result ≡ may_override set.now m.now }
{
    set.is_instance_method(*m) && !set.is_private_member(*m) && !set.is_interface(m.class)
}

/// Whether a method of a subclass may override this one by its flags and its package.
pub(crate) fn may_be_overridden(set: &ClassSet, below: &ClassId, m: &MemberAt) -> bool
    requires below { IsClass set.now below.now }
    requires there { IsMember set.now m.now }
    ensures { result ≡ may_be_overridden set.now below.now m.now }
{
    set.is_instance_method(*m)
        && (set.is_public_member(*m)
            || set.is_protected_member(*m)
            || (!set.is_private_member(*m) && set.is_same_package(*below, m.class)))
}

/// Whether a method overrides one of a superclass by itself, and methods of all packages may override it.
fn overrides_openly(set: &ClassSet, m: &MemberAt, above: &MemberAt) -> bool
    requires one { IsMember set.now m.now }
    requires other { IsMember set.now above.now }
    ensures { result ≡ overrides_openly set.now above.now m.now }
{
    may_override(set, m)
        && may_be_overridden(set, &m.class, above)
        && (set.is_public_member(*m) || set.is_protected_member(*m))
}

/// Whether a method between a class and that of the one above does so: through it others override that one.
pub(crate) fn has_open_override(set: &ClassSet, class: &ClassId, above: &MemberAt) -> bool
    requires class { IsClass set.now class.now }
    requires there { IsMember set.now above.now }
    requires method { IsMethod set.now above.now }
    ensures { result ≡ has_open_override set.now above.now (alike_from set.now above.now class.now) }
{
    let mut opened = false;
    for class in Superclasses::of(set, *class) {
        if let Some(m) = &set.method_like(class, *above) {
            if !opened {
                opened = overrides_openly(set, m, above);
            } else if is_same(m, above) {
                return true;
            }
        }
    }
    false
}
