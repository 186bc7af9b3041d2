// Of several kinds the first one in their order.
ghost use Rattle.std.specs.Prelude.{◌≡◌, ◌++◌, List};
ghost use Rattle.link_check.specs.declared.fault.ProfileKind.{ProfileKind};
ghost use Rattle.link_check.specs.Profile.{least, rank_of, unless};

use crate::ProfileKind;

/// Of two kinds the one that counts: that of two lists is the lesser of theirs.
pub(crate) fn lesser(one: Option<ProfileKind>, other: Option<ProfileKind>) -> Option<ProfileKind>
    ensures { (a b : List ProfileKind) → one ≡ least a → other ≡ least b → result ≡ least (a ++ b) }
{
    let Some(kind) = one else {
        return other;
    };
    match other {
        Some(other) if rank(other) < rank(kind) => Some(other),
        _ => Some(kind),
    }
}

/// The place of a kind in the order in which they count.
fn rank(kind: ProfileKind) -> u8
    ensures { result ≡ rank_of kind }
{
    kind as u8
}

/// A kind where a rule is broken.
#[tactic(auto, using(crate::proofs::Least::unless_holds, crate::proofs::Least::unless_fails))]
pub(crate) fn unless(holds: bool, kind: ProfileKind) -> Option<ProfileKind>
    ensures { result ≡ least (unless holds kind) }
{
    if holds { None } else { Some(kind) }
}
