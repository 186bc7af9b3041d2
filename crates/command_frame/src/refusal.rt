// Why a command is refused, and what it says then.
ghost use Rattle.std.specs.Prelude.{◌≡◌, IfOk, string_bytes};
ghost use Rattle.command_frame.specs.Refusal.{absent, limit_refused, passed, quantity_limit, quantity_name};
ghost use Rattle.command_frame.specs.Refusal.{reason_status, reason_word, refusal_line, tells_more};
ghost use Rattle.command_frame.specs.Refusal.{text_refused};

use jv_base::{M, Text};
use std::alloc::Global;

/// Why a command is refused.
#[derive(Clone, Copy)]
pub enum Reason {
    /// No file stands at a path.
    Absent,
    /// The config breaks its grammar, or keeps nothing.
    Rules,
    /// A class file is none.
    Format,
    /// Class files are no set that is taken.
    Profile,
    /// A quantity passes its limit.
    Limit,
    /// A file lies below a directory that has to be empty.
    NotEmpty,
    /// An output doesn't belong to its input.
    No,
    /// A text is outside its grammar.
    Text,
    /// No method can be run as an entry with the words behind it.
    Entry,
    /// An output doesn't do the same as its input.
    Differs,
    /// An item isn't one of the set.
    Item,
    /// Jobs of a batch would get in one another's way.
    Overlap,
}

impl Reason {
    /// The status with which the command ends.
    pub fn status(self) -> u8
        ensures { result ≡ reason_status self }
    {
        match self {
            Reason::Absent => 2,
            Reason::Rules => 3,
            Reason::Format => 4,
            Reason::Profile => 5,
            Reason::Limit => 6,
            Reason::NotEmpty => 8,
            Reason::No => 9,
            Reason::Text => 11,
            Reason::Entry => 12,
            Reason::Differs => 13,
            Reason::Item => 14,
            Reason::Overlap => 15,
        }
    }

    /// Whether its line tells more behind the word.
    fn tells_more(self) -> bool
        ensures { result ≡ tells_more self }
    {
        !matches!(self, Reason::Differs)
    }

    /// The word for it in a line.
    pub fn word(self) -> &'static str
        ensures { result.now ≡ reason_word self }
    {
        match self {
            Reason::Absent => "absent",
            Reason::Rules => "rules",
            Reason::Format => "format",
            Reason::Profile => "profile",
            Reason::Limit => "limit",
            Reason::NotEmpty => "not-empty",
            Reason::No => "no",
            Reason::Text => "text",
            Reason::Entry => "entry",
            Reason::Differs => "differs",
            Reason::Item => "item",
            Reason::Overlap => "overlap",
        }
    }
}

/// A refusal: its reason, and what the line tells behind that.
#[derive(Drop)]
pub struct Refusal {
    pub reason: Reason,
    pub told: Text,
}

impl Refusal {
    /// The refusal that tells a string.
    pub fn new(alloc: Global, reason: Reason, told: String) -> M<Refusal>
        ensures { IfOk result (λ refusal. refusal ≡ record { reason = reason; told = string_bytes told }) }
    {
        let told = Text::from_string(alloc, told)?;
        Ok(Refusal { reason, told })
    }

    /// The line of the refusal.
    pub fn line(&self, alloc: Global) -> M<Text>
        ensures { IfOk result (λ line. line ≡ refusal_line self.now) }
    {
        let status = self.reason.status();
        let word = self.reason.word();
        let line = if self.reason.tells_more() {
            let told = self.told.as_str();
            format!(in alloc; "error {status} {word} {told}\n")?
        } else {
            format!(in alloc; "error {status} {word}\n")?
        };
        Ok(Text::from_string(alloc, line)?)
    }
}

// ---- what commands tell alike

/// No file stands at a path.
pub fn absent_file(path: Text) -> Refusal
    ensures { result ≡ absent path }
{
    Refusal {
        reason: Reason::Absent,
        told: path,
    }
}

/// A text is outside its grammar: the line at fault, counted from 1, and the kind of its fault.
pub fn faulty_text(alloc: Global, line: u32, kind: &str) -> M<Refusal>
    ensures { IfOk result (λ refusal. refusal ≡ text_refused line kind.now) }
{
    let told = format!(in alloc; "{line} {kind}")?;
    Refusal::new(alloc, Reason::Text, told)
}

/// A quantity of this name passes its limit.
pub fn passed_limit(alloc: Global, name: &str, limit: u64) -> M<Refusal>
    ensures { IfOk result (λ refusal. refusal ≡ limit_refused name.now limit) }
{
    let told = format!(in alloc; "{name} {limit}")?;
    Refusal::new(alloc, Reason::Limit, told)
}

// ---- quantities

/// A quantity that is counted of files, texts and directories.
#[derive(Clone, Copy)]
pub enum Quantity {
    /// The bytes of a config.
    Config,
    /// Those of a mapping.
    Mapping,
    /// Those of a witness.
    Witness,
    /// Those of a trace.
    Trace,
    /// Those of a text that is written.
    Text,
    /// The files below a directory.
    Files,
    /// Those of them that are class files.
    Classes,
    /// The bytes of these together.
    Input,
    /// The jobs of a batch.
    Jobs,
    /// The bytes of the class files of all its jobs together.
    Batch,
}

impl Quantity {
    /// Its name, as it stands in lines.
    pub fn name(self) -> &'static str
        ensures { result.now ≡ quantity_name self }
    {
        match self {
            Quantity::Config => "config",
            Quantity::Mapping => "mapping",
            Quantity::Witness => "witness",
            Quantity::Trace => "trace",
            Quantity::Text => "text",
            Quantity::Files => "files",
            Quantity::Classes => "classes",
            Quantity::Input => "input",
            Quantity::Jobs => "jobs",
            Quantity::Batch => "batch",
        }
    }

    /// The greatest number that it may be.
    pub fn limit(self) -> u64
        ensures { result ≡ quantity_limit self }
    {
        match self {
            Quantity::Files => 65_536,
            Quantity::Classes => 20_000,
            Quantity::Jobs => 64,
            _ => 67_108_864,
        }
    }

    /// The refusal of what passes its limit.
    pub fn passed(self, alloc: Global) -> M<Refusal>
        ensures { IfOk result (λ refusal. refusal ≡ passed self) }
    {
        passed_limit(alloc, self.name(), self.limit())
    }
}
