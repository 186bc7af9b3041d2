// Why classes are refused.
ghost use Rattle.std.specs.Prelude.{◌≡◌};
ghost use Rattle.link_check.specs.KindNames.{profile_name};

use std::error::Error;
use std::fmt::{self, Display, Formatter};

/// What is wrong with a reference to a field or a method. Of several kinds the first counts.
#[derive(Clone, Copy, Debug, PartialEq, Eq)]
pub enum LinkKind {
    /// There is no such class, or no such member (JVMS 5.4.3).
    Unresolved,
    /// The class that names it may not (JVMS 5.4.4).
    Inaccessible,
    /// A class is named as an interface or the other way round, or the member may not be used so (JVMS 5.4.3, 6.5).
    WrongKind,
    /// It is a member of the library that a program may not name, or one of an array.
    LeftOutMember,
}

/// The rule that a class breaks at a place. Of several rules the first counts.
#[derive(Clone, Copy, Debug, PartialEq, Eq)]
pub enum ProfileKind {
    /// A native method, or a class that is an annotation or an enum.
    LeftOutFlag,
    /// A constant of a kind that is left out.
    LeftOutConstant,
    /// An instruction that is left out.
    LeftOutOpcode,
    /// A float or a double in a descriptor, a frame, or a class that an instruction names.
    LeftOutType,
    /// A class or a member that is named isn't there (JVMS 5.4.3).
    Unresolved,
    /// One that is named may not be (JVMS 5.4.4).
    Inaccessible,
    /// One that is named is of another kind than its use wants, or a method overrides a final one (JVMS 4.10, 5.4.3,
    /// 6.5).
    WrongKind,
    /// One that is named, overridden or run through an interface is a member of the library that a program may not use
    /// so, or a method of an interface has a body.
    LeftOutMember,
}

impl ProfileKind {
    /// Its name, as it stands in the texts of faults.
    pub fn name(self) -> &'static str
        ensures { result.now ≡ profile_name self }
    {
        match self {
            ProfileKind::LeftOutFlag => "LeftOutFlag",
            ProfileKind::LeftOutConstant => "LeftOutConstant",
            ProfileKind::LeftOutOpcode => "LeftOutOpcode",
            ProfileKind::LeftOutType => "LeftOutType",
            ProfileKind::Unresolved => "Unresolved",
            ProfileKind::Inaccessible => "Inaccessible",
            ProfileKind::WrongKind => "WrongKind",
            ProfileKind::LeftOutMember => "LeftOutMember",
        }
    }
}

/// The first place of a set that breaks a rule: class after class in order, in a class first itself, then its fields,
/// then its methods.
#[derive(Clone, Copy, Debug, PartialEq, Eq)]
pub struct ProfileFault {
    /// The number of the class.
    pub class: u32,
    /// The number of the member, fields first and then methods; none for the class itself.
    pub member: Option<u32>,
    pub kind: ProfileKind,
}

impl Display for ProfileFault {
    fn fmt<W: fmt::Write>(&self, f: &mut Formatter<W>) -> fmt::Result {
        write!(f, "{:?} at class {}", self.kind, self.class)?;
        match self.member {
            Some(member) => write!(f, ", member {member}"),
            None => Ok(()),
        }
    }
}

impl Error for ProfileFault {}
