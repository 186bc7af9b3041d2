// What a witness tells.
ghost use Rattle.std.specs.Prelude.{◌≡◌};
ghost use Rattle.jv_base.specs.declared.outcome.Or.TheVariants.{Fault};
ghost use Rattle.witness_file.specs.KindNames.{wit_kind_name};

use code_edit::MethodEdits;
use jv_base::{Items, Name, Or, Text};
use thiserror::Error;

/// How methods were edited, those that weren't left out.
#[derive(Drop)]
pub struct Witness {
    pub methods: Items<MethodWitness>,
}

/// A method of the input by its class, name and descriptor, and how it was edited.
#[derive(Drop)]
pub struct MethodWitness {
    pub class: Name,
    pub name: Name,
    pub ty: Text,
    pub edits: MethodEdits,
}

/// What is wrong with a line of a witness.
#[derive(Clone, Copy, Debug, PartialEq, Eq)]
pub enum WitKind {
    /// The line isn't in UTF-8.
    NotUtf8,
    /// The line is none of a witness, or stands where it may not.
    BadLine,
    /// A step or a method stands twice, or behind one that comes after it.
    BadOrder,
}

impl WitKind {
    /// Its name, as it stands in the texts of faults.
    pub fn name(self) -> &'static str
        ensures { result.now ≡ wit_kind_name self }
    {
        match self {
            WitKind::NotUtf8 => "NotUtf8",
            WitKind::BadLine => "BadLine",
            WitKind::BadOrder => "BadOrder",
        }
    }
}

/// The first line, from 1, that no witness has there. Where the text ends too soon it is the line behind its last.
#[derive(Clone, Copy, Debug, Error, PartialEq, Eq)]
#[error("{kind:?} at line {line}")]
pub struct WitFault {
    pub line: u32,
    pub kind: WitKind,
}

impl From<WitFault> for Or<WitFault> {
    ghost from_gives = { λ fault either. either ≡ Fault fault };

    fn from(fault: WitFault) -> Self {
        Or::Fault(fault)
    }
}
