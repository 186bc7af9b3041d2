// What has to hold of a member that is named (JVMS 6.5).
#![tactic(auto, using(crate::proofs::Least::is_none, crate::proofs::Least::is_one))]

ghost use Rattle.std.specs.Prelude.{◌≡◌};
ghost use Rattle.class_pool.specs.Found.{IsMember, role_at, same_member};
ghost use Rattle.class_pool.specs.Walk.{same_class};
ghost use Rattle.link_check.specs.Links.{is_callable_role};
ghost use Rattle.link_check.specs.Profile.{least, static_kinds, unless};
ghost use Rattle.link_check.specs.declared.fault.ProfileKind.TheVariants.{LeftOutMember};

use crate::ProfileKind;
use crate::rules::kind_order::unless;
use class_pool::{ClassId, ClassSet, MemberAt};
use lib_table::Role;

/// What is wrong with a member of the library that a program may not name.
pub(crate) fn role_kind(set: &ClassSet, m: &MemberAt) -> Option<ProfileKind>
    requires there { IsMember set.now m.now }
    ensures { result ≡ least (unless (is_callable_role (role_at m.now)) LeftOutMember) }
{
    unless(is_callable_role(set.role(*m)), ProfileKind::LeftOutMember)
}

fn is_callable_role(role: Role) -> bool
    ensures { result ≡ is_callable_role role }
{
    matches!(role, Role::Callable)
}

/// What is wrong with a member that has to be static, or not to be.
pub(crate) fn static_kind(set: &ClassSet, wanted: bool, m: &MemberAt) -> Option<ProfileKind>
    requires there { IsMember set.now m.now }
    ensures { result ≡ least (static_kinds set.now wanted m.now) }
{
    unless(set.is_static_member(*m) == wanted, ProfileKind::WrongKind)
}

pub(crate) fn is_same_class(one: &ClassId, other: &ClassId) -> bool
    ensures { result ≡ same_class one.now other.now }
{
    one == other
}

pub(crate) fn is_same(one: &MemberAt, other: &MemberAt) -> bool
    ensures { result ≡ same_member one.now other.now }
{
    is_same_class(&one.class, &other.class) && one.index == other.index
}
