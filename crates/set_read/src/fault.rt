// Why class files aren't taken.
ghost use Rattle.std.specs.Prelude.{◌≡◌, ◌++◌, codes};
ghost use Rattle.set_read.specs.Accepted.{rule_name};
ghost use Rattle.type_verifier.specs.KindNames.{type_name};

use class_pool::PoolKind;
use format_reading::FormatFault;
use jv_base::Text;
use link_check::ProfileKind;
use std::fmt::{self, Display, Formatter};
use type_verifier::TypeKind;

/// Why files aren't taken as a set of classes.
#[derive(Drop)]
pub enum SetFault {
    /// The bytes of the file with this path are no class file.
    Format(Text, FormatFault),
    /// All files are class files, and a class breaks a rule.
    Rule(RuleFault),
}

impl Display for SetFault {
    fn fmt<W: fmt::Write>(&self, f: &mut Formatter<W>) -> fmt::Result {
        match self {
            SetFault::Format(path, fault) => write!(f, "{fault} of {}", path.as_str()),
            SetFault::Rule(fault) => write!(f, "{fault}"),
        }
    }
}

/// The first place of a set that breaks a rule.
#[derive(Drop)]
pub struct RuleFault {
    /// The class, with its external name.
    pub class: Text,
    /// The member as a mapping file has it; none for the class itself.
    pub member: Option<Text>,
    pub kind: RuleKind,
}

impl Display for RuleFault {
    fn fmt<W: fmt::Write>(&self, f: &mut Formatter<W>) -> fmt::Result {
        write!(f, "{} at {}", self.kind.name(), self.class.as_str())?;
        match &self.member {
            Some(member) => write!(f, ", {}", member.as_str()),
            None => Ok(()),
        }
    }
}

/// The rule that is broken.
#[derive(Clone, Copy, Debug, PartialEq, Eq)]
pub enum RuleKind {
    /// One that makes classes a set.
    Pool(PoolKind),
    /// One for the classes of a set.
    Profile(ProfileKind),
    /// A code isn't typed.
    Type(TypeKind),
}

impl RuleKind {
    /// Its name, as it stands in the texts of faults.
    pub fn name(self) -> &'static str
        ensures { result.now ≡ rule_name self }
    {
        match self {
            RuleKind::Pool(kind) => kind.name(),
            RuleKind::Profile(kind) => kind.name(),
            RuleKind::Type(kind) => type_rule_name(kind),
        }
    }
}

fn type_rule_name(kind: TypeKind) -> &'static str
    ensures { result.now ≡ codes "Type " ++ type_name kind }
{
    match kind {
        TypeKind::NoFrame => "Type NoFrame",
        TypeKind::Mismatch => "Type Mismatch",
        TypeKind::Depth => "Type Depth",
        TypeKind::Local => "Type Local",
        TypeKind::Operand => "Type Operand",
        TypeKind::Protected => "Type Protected",
        TypeKind::Uninit => "Type Uninit",
        TypeKind::Handler => "Type Handler",
        TypeKind::FallsOff => "Type FallsOff",
    }
}
