// Calls on links between the classes of a set.
ghost use Rattle.std.specs.Prelude.{◌≡◌, ◌<◌, IfOk, length};
ghost use Rattle.jv_base.specs.Longest.{IfFault};
ghost use Rattle.jv_base.specs.Outcome.{IsDue};
ghost use Rattle.class_pool.specs.Found.{IsMember};
ghost use Rattle.class_pool.specs.declared.id.ClassId.TheVariants.{Prog};
ghost use Rattle.link_check.specs.Links.{resolved_method};
ghost use Rattle.link_check.specs.Profile.{IsPlace, links_checked};

use class_model::MemberRef;
use class_pool::{ClassSet, MemberAt};
use jv_base::Or;
use link_check::{LinkKind, ProfileFault};
use std::alloc::Global;

/// `check_links` of `link_check`.
pub fn check_links(alloc: Global, set: &ClassSet) -> Result<(), Or<ProfileFault>>
    ensures due { IsDue result (links_checked set.now) }
    ensures place { IfFault result (IsPlace set.now) }
{
    link_check::check_links(alloc, set)
}

/// `resolve_method` of `link_check`.
pub fn resolve_method(set: &ClassSet, from: u32, r: &MemberRef) -> Result<MemberAt, LinkKind>
    requires there { from < length set.now }
    ensures is { result ≡ resolved_method set.now (Prog from) r.now }
    ensures found { IfOk result (IsMember set.now) }
{
    link_check::resolve_method(set, from, r)
}
