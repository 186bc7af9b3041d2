// Which classes and members are accessible to a class (JVMS 5.4.4).
ghost use Rattle.std.specs.Prelude.{◌≡◌};
ghost use Rattle.class_pool.specs.Found.{IsMember};
ghost use Rattle.class_pool.specs.Hierarchy.{IsClass};
ghost use Rattle.class_pool.specs.Resolution.{is_class_accessible, is_class_below, is_member_accessible};
ghost use Rattle.class_pool.specs.Resolution.{is_protected_accessible};

use class_pool::{ClassId, ClassSet, MemberAt, Superclasses};

/// Whether a class is accessible to another: it is public or of the same run-time package.
pub(crate) fn is_class_accessible(set: &ClassSet, from: ClassId, class: ClassId) -> bool
    requires from { IsClass set.now from }
    requires class { IsClass set.now class }
    ensures { result ≡ is_class_accessible set.now from class }
{
    let class = &class;
    set.is_public_class(*class) || set.is_same_package(from, *class)
}

/// Whether a class is another one or a subclass of it (JVMS 4.1). Takes no memory; its superclasses are gone over
/// upwards.
pub fn is_class_below(set: &ClassSet, below: ClassId, above: ClassId) -> bool
    requires below { IsClass set.now below }
    requires above { IsClass set.now above }
    ensures { result ≡ is_class_below set.now below above }
{
    for class in Superclasses::of(set, below) {
        if class == above {
            return true;
        }
    }
    false
}

/// Whether a member that was found through a class is accessible to another.
pub(crate) fn is_member_accessible(
    set: &ClassSet,
    from: ClassId,
    named: ClassId,
    m: MemberAt,
) -> bool
    requires from { IsClass set.now from }
    requires named { IsClass set.now named }
    requires there { IsMember set.now m }
    ensures { result ≡ is_member_accessible set.now from named m }
{
    let m = &m;
    if set.is_public_member(*m) {
        return true;
    }
    if set.is_private_member(*m) {
        return from == m.class;
    }
    let from = &from;
    set.is_same_package(*from, m.class)
        || (set.is_protected_member(*m) && is_protected_accessible(set, from, &named, m))
}

/// Whether a protected member is accessible to a class, by the rule for classes of other packages: to a subclass, and
/// where it isn't static through a class that stands below or above that subclass.
fn is_protected_accessible(set: &ClassSet, from: &ClassId, named: &ClassId, m: &MemberAt) -> bool
    requires from { IsClass set.now from.now }
    requires named { IsClass set.now named.now }
    requires there { IsMember set.now m.now }
    ensures { result ≡ is_protected_accessible set.now from.now named.now m.now }
{
    is_class_below(set, *from, m.class)
        && (set.is_static_member(*m)
            || is_class_below(set, *named, *from)
            || is_class_below(set, *from, *named))
}
