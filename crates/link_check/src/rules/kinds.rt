// A fault of a reference as one of the class in which it stands.
ghost use Rattle.std.specs.Prelude.{◌≡◌};
ghost use Rattle.link_check.specs.Profile.{of_left, of_link};

use crate::{LinkKind, ProfileKind};
use class_model::LeftKind;

impl From<LinkKind> for ProfileKind {
    ghost from_gives = { λ kind profile. profile ≡ of_link kind };

    fn from(kind: LinkKind) -> Self {
        match kind {
            LinkKind::Unresolved => ProfileKind::Unresolved,
            LinkKind::Inaccessible => ProfileKind::Inaccessible,
            LinkKind::WrongKind => ProfileKind::WrongKind,
            LinkKind::LeftOutMember => ProfileKind::LeftOutMember,
        }
    }
}

impl From<LeftKind> for ProfileKind {
    ghost from_gives = { λ kind profile. profile ≡ of_left kind };

    fn from(kind: LeftKind) -> Self {
        match kind {
            LeftKind::Flag => ProfileKind::LeftOutFlag,
            LeftKind::Constant => ProfileKind::LeftOutConstant,
            LeftKind::Opcode => ProfileKind::LeftOutOpcode,
            LeftKind::FloatType => ProfileKind::LeftOutType,
        }
    }
}
