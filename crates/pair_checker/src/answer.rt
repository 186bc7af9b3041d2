// Why a pair is refused.
ghost use Rattle.std.specs.Prelude.{◌≡◌};
ghost use Rattle.pair_checker.specs.Clauses.{clause_name};

use jv_base::{Name, Text};

/// A clause by which a pair is refused. They are tested in this order.
#[derive(Clone, Copy, PartialEq, Eq)]
pub enum Clause {
    /// A file of the output is no class file.
    OutputFormat,
    /// The files of the output break a rule of sets of classes.
    OutputProfile,
    /// Lines of the mapping aren't one to one with classes of the output, or name no member of the input.
    MapShape,
    /// A name that is fixed has another new one, or another name has one that is fixed.
    FixedName,
    /// A class is in another package.
    Package,
    /// What the rules keep has no line.
    SeedLost,
    /// What is needed by something with a line has none.
    NotClosed,
    /// A class of the output isn't the one of the input with its kept members under new names.
    MemberDiffers,
    /// An entry of the witness names no method that is kept, or one again, or lacks a step.
    WitnessStray,
    /// An act of the witness isn't legal on the code that the steps before it left.
    EditIllegal,
    /// A code of the output isn't the one of the input, after the acts of the witness, under new names.
    CodeDiffers,
    /// A line of a code of the output lies outside the range that the mapping tells of its method.
    LineRange,
}

impl Clause {
    /// Its name, as it stands in texts.
    pub fn name(self) -> &'static str
        ensures { result.now ≡ clause_name self }
    {
        match self {
            Clause::OutputFormat => "OutputFormat",
            Clause::OutputProfile => "OutputProfile",
            Clause::MapShape => "MapShape",
            Clause::FixedName => "FixedName",
            Clause::Package => "Package",
            Clause::SeedLost => "SeedLost",
            Clause::NotClosed => "NotClosed",
            Clause::MemberDiffers => "MemberDiffers",
            Clause::WitnessStray => "WitnessStray",
            Clause::EditIllegal => "EditIllegal",
            Clause::CodeDiffers => "CodeDiffers",
            Clause::LineRange => "LineRange",
        }
    }
}

/// The first clause that holds of a pair, and the first place at which it holds.
#[derive(Drop)]
pub struct No {
    pub clause: Clause,
    /// The class with its external name, where one is named.
    pub class: Option<Name>,
    /// The member as a mapping file has it, where one is named.
    pub member: Option<Text>,
}
