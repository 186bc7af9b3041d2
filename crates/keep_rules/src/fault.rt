// Where and why words are no config.
ghost use Rattle.std.specs.Prelude.{◌≡◌};
ghost use Rattle.std.specs.Option.{option_copied};
ghost use Rattle.jv_base.specs.declared.outcome.Or.TheVariants.{Fault};
ghost use Rattle.keep_rules.specs.KindNames.{rule_name, rule_option};

use jv_base::{Or, Text};
use std::fmt::{self, Display, Formatter};

/// The first fault of words that are no config.
#[derive(Drop)]
pub struct RuleFault {
    /// The line of the word at fault, from 1; 0 where a fault is of the config as a whole.
    pub line: u32,
    pub kind: RuleKind,
}

impl Display for RuleFault {
    fn fmt<W: fmt::Write>(&self, f: &mut Formatter<W>) -> fmt::Result {
        write!(f, "{} at line {}", self.kind.name(), self.line)?;
        match self.kind.option() {
            Some(option) => write!(f, ": {}", option.as_str()),
            None => Ok(()),
        }
    }
}

/// What is wrong with a config.
#[derive(Drop)]
pub enum RuleKind {
    /// A word that stands where an option is expected and is none (ProGuard manual, "Usage").
    UnknownOption,
    /// A word that is no part of a class specification stands in one (ProGuard manual, "Class Specifications").
    BadClassSpec,
    /// A word that is no part of a member specification stands in one, or a part is missing.
    BadMemberSpec,
    /// A value of this option isn't a path, a modifier or a filter, as it must be.
    BadValue(Text),
    /// An option ends before its value, or a class specification before its class name.
    MissingName,
    /// This option is missing. It is a fault of the config as a whole.
    MissingOption(Text),
    /// This option stands a second time.
    Repeated(Text),
    /// Two files of the config are one, or a file or a directory lies below a directory of the config. It is a fault of
    /// the config as a whole.
    SamePath,
    /// An option that ProGuard has and that isn't built, or a word that begins with `@`.
    LeftOut(Text),
    /// No class and no member is kept. It is a fault of the config as a whole, which is found with the classes.
    NothingKept,
    /// The bytes aren't UTF-8. It is a fault of the config as a whole, which is found before the words are read.
    NotUtf8,
    /// A quote isn't closed on its line, which is found before the words are read.
    QuoteOpen,
}

impl RuleKind {
    /// Its name, as it stands in the texts of faults.
    pub fn name(&self) -> &'static str
        ensures { result.now ≡ rule_name self.now }
    {
        match self {
            RuleKind::UnknownOption => "UnknownOption",
            RuleKind::BadClassSpec => "BadClassSpec",
            RuleKind::BadMemberSpec => "BadMemberSpec",
            RuleKind::BadValue(_) => "BadValue",
            RuleKind::MissingName => "MissingName",
            RuleKind::MissingOption(_) => "MissingOption",
            RuleKind::Repeated(_) => "Repeated",
            RuleKind::SamePath => "SamePath",
            RuleKind::LeftOut(_) => "LeftOut",
            RuleKind::NothingKept => "NothingKept",
            RuleKind::NotUtf8 => "NotUtf8",
            RuleKind::QuoteOpen => "QuoteOpen",
        }
    }

    /// The option that it has, if it has one.
    pub fn option(&self) -> Option<&Text>
        ensures { option_copied result ≡ rule_option self.now }
    {
        match self {
            RuleKind::BadValue(option) => Some(option),
            RuleKind::MissingOption(option) => Some(option),
            RuleKind::Repeated(option) => Some(option),
            RuleKind::LeftOut(option) => Some(option),
            _ => None,
        }
    }
}

impl From<RuleFault> for Or<RuleFault> {
    ghost from_gives = { λ fault either. either ≡ Fault fault };

    fn from(fault: RuleFault) -> Self {
        Or::Fault(fault)
    }
}
