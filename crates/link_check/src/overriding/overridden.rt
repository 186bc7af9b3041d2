// The methods that a method overrides (JVMS 5.4.5).
#![tactic(auto, using(crate::proofs::Least::is_none))]

ghost use Rattle.std.specs.Prelude.{◌≡◌, ◌<◌, ◌&&◌, length, not};
ghost use Rattle.class_pool.specs.Found.{IsMethod, IsMember, is_final_member, role_at};
ghost use Rattle.class_pool.specs.Selection.{overrides};
ghost use Rattle.class_pool.specs.Walk.{same_class};
ghost use Rattle.class_pool.specs.declared.id.ClassId.TheVariants.{Prog};
ghost use Rattle.link_check.specs.bodies.Inherited.{AreKnown};
ghost use Rattle.link_check.specs.Profile.{least, may_be_overridden_role, overridden_kinds, overriding_kinds, unless};
ghost use Rattle.link_check.specs.declared.fault.ProfileKind.TheVariants.{LeftOutMember, WrongKind};

use crate::ProfileKind;
use crate::overriding::inherited::{Known, start_in};
use crate::references::selection::overrides;
use crate::rules::kind_order::{lesser, unless};
use crate::rules::member_uses::is_same_class;
use class_pool::{AlikeMethods, ClassSet, MemberAt};
use lib_table::Role;

/// What is wrong with the methods that a method of the class with a number overrides. Superclasses are looked at from
/// the nearest one that may have a method that none may override.
pub(crate) fn overriding_kind(
    set: &ClassSet,
    known: &[Option<Known>],
    number: u32,
    m: &MemberAt,
) -> Option<ProfileKind>
    requires there { number < length set.now }
    requires known { AreKnown set.now known.now }
    requires member { IsMember set.now m.now }
    requires own { m.now.class ≡ Prog number }
    requires method { IsMethod set.now m.now }
    ensures { result ≡ least (overriding_kinds set.now number m.now) }
{
    let mut kind = None;
    for above in AlikeMethods::up(set, start_in(known, number), *m) {
        let above = &above;
        kind = lesser(kind, overridden_kind(set, m, above));
    }
    kind
}

/// Whether it overrides the one above is looked at last, since few methods may not be overridden.
fn overridden_kind(set: &ClassSet, m: &MemberAt, above: &MemberAt) -> Option<ProfileKind>
    requires member { IsMember set.now m.now }
    requires above { IsMember set.now above.now }
    requires method { IsMethod set.now above.now }
    ensures { result ≡ least (overridden_kinds set.now m.now above.now) }
{
    let kind = lesser(final_kind(set, above), overridden_role_kind(set, above));
    if kind.is_some() && overrides_other(set, m, above) {
        kind
    } else {
        None
    }
}

/// Whether a method overrides one of another class.
fn overrides_other(set: &ClassSet, m: &MemberAt, above: &MemberAt) -> bool
    requires member { IsMember set.now m.now }
    requires above { IsMember set.now above.now }
    requires method { IsMethod set.now above.now }
    ensures { result ≡ (not (same_class m.now.class above.now.class) && overrides set.now m.now above.now) }
{
    !is_same_class(&m.class, &above.class) && overrides(set, *m, *above)
}

fn final_kind(set: &ClassSet, above: &MemberAt) -> Option<ProfileKind>
    requires { IsMember set.now above.now }
    ensures { result ≡ least (unless (not (is_final_member set.now above.now)) WrongKind) }
{
    unless(!set.is_final_member(*above), ProfileKind::WrongKind)
}

fn overridden_role_kind(set: &ClassSet, above: &MemberAt) -> Option<ProfileKind>
    requires { IsMember set.now above.now }
    ensures { result ≡ least (unless (may_be_overridden_role (role_at above.now)) LeftOutMember) }
{
    unless(
        may_be_overridden(set.role(*above)),
        ProfileKind::LeftOutMember,
    )
}

fn may_be_overridden(role: Role) -> bool
    ensures { result ≡ may_be_overridden_role role }
{
    !matches!(role, Role::NoOverride)
}
