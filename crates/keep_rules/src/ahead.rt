// The words of an option, read from left to right.
ghost use Rattle.std.specs.Prelude.{◌≡◌, if◌then◌else◌};
ghost use Rattle.std.specs.Option.{option_copied};
ghost use Rattle.jv_base.specs.Names.{is_text};
ghost use Rattle.keep_rules.specs.declared.texts.Part.TheVariants.{Class};
ghost use Rattle.keep_rules.specs.Reader.{IsFault, ReadsOr, TakesNext, ahead, fault, first_text, is_end};
ghost use Rattle.keep_rules.specs.Reader.{mark, next_passes, next_word, expected, passed};
ghost use Rattle.keep_rules.specs.Texts.{bad_in, is_class_kind, is_part, missing_in, wrong};

use crate::texts::{Part, begins_at, is_class_kind, is_part};
use crate::{RuleFault, RuleKind};
use conf_words::Word;
use jv_base::{Or, Text};
use std::marker::Model;

/// The words of an option that are still to be read, and the line of the word before them.
#[derive(Drop)]
pub(crate) struct Words<'a> {
    line: u32,
    words: &'a [Word],
}

impl<'a> Model for Words<'a> {
    ghost use Rattle.keep_rules.specs.Reader.{Ahead};

    ghost Value = { Ahead };

    ghost view = { λ w. record { line = w.line; words = w.words.now } };
}

impl<'a> Words<'a> {
    /// The words behind one on a line.
    pub fn new(line: u32, words: &'a [Word]) -> Self
        ensures { result ≡ ahead line words.now }
    {
        Words { line, words }
    }

    /// The words that are left.
    pub fn rest(&self) -> &'a [Word]
        ensures { result.now ≡ self.now.words }
    {
        self.words
    }

    /// Whether no word is left.
    pub fn is_end(&self) -> bool
        ensures { result ≡ is_end self.now.words }
    {
        self.words.is_empty()
    }

    /// The text of the next word.
    pub fn peek(&self) -> Option<&'a str>
        ensures { option_copied result ≡ first_text self.now.words }
    {
        match self.words {
            [word, ..] => Some(word.text.as_str()),
            [] => None,
        }
    }

    /// The next word, which is passed over; where no word is left, that is told at the word before.
    #[tactic(auto, unfolding(crate::specs::Reader::next_word))]
    pub fn take(&mut self, missing: RuleKind) -> Result<&'a Word, RuleFault>
        ensures { TakesNext result self.new (next_word missing self.old) }
    {
        match self.words {
            [word, rest @ ..] => {
                self.line = word.line;
                self.words = rest;
                Ok(word)
            }
            [] => Err(RuleFault {
                line: self.line,
                kind: missing,
            }),
        }
    }

    /// Passes over the next word.
    #[tactic(auto, unfolding(crate::specs::Reader::passed))]
    pub fn skip(&mut self)
        ensures { self.new ≡ passed self.old }
    {
        if let [word, rest @ ..] = self.words {
            self.line = word.line;
            self.words = rest;
        }
    }

    /// Whether the next word is this.
    #[tactic(auto, unfolding(crate::specs::Reader::next_passes))]
    pub fn is_next(&self, text: &str) -> bool
        ensures { result ≡ next_passes (λ word. is_text word text.now) self.now }
    {
        match self.peek() {
            Some(word) => word == text,
            None => false,
        }
    }

    /// Passes over the next word if it is this, and says whether it is.
    pub fn pass(&mut self, text: &str) -> bool
        ensures test { result ≡ next_passes (λ word. is_text word text.now) self.old }
        ensures passed { self.new ≡ (if result then passed self.old else self.old) }
    {
        let is_next = self.is_next(text);
        if is_next {
            self.skip();
        }
        is_next
    }
}

/// A word that is none of those that may stand there.
pub(crate) fn wrong(word: &Word, bad: RuleKind) -> Or<RuleFault>
    ensures { IsFault result (fault word.now.line (wrong bad word.now.text)) }
{
    let line = word.line;
    if !begins_at(word.text.as_str()) {
        return Or::Fault(RuleFault { line, kind: bad });
    }
    match word.text.clone() {
        Ok(text) => Or::Fault(RuleFault {
            line,
            kind: RuleKind::LeftOut(text),
        }),
        Err(_) => Or::OutOfMemory,
    }
}

fn missing_in(part: Part) -> RuleKind
    ensures { result ≡ missing_in part }
{
    match part {
        Part::Class => RuleKind::MissingName,
        Part::Member => RuleKind::BadMemberSpec,
    }
}

fn bad_in(part: Part) -> RuleKind
    ensures { result ≡ bad_in part }
{
    match part {
        Part::Class => RuleKind::BadClassSpec,
        Part::Member => RuleKind::BadMemberSpec,
    }
}

/// A pattern of a specification.
#[tactic(auto, unfolding(crate::specs::Reader::expected, crate::specs::Reader::item, crate::specs::Reader::bind))]
pub(crate) fn read_pattern(words: &mut Words<'_>, part: Part) -> Result<Text, Or<RuleFault>>
    ensures { ReadsOr result words.new (expected part is_part words.old) }
{
    let word = words.take(missing_in(part))?;
    if is_part(word.text.as_str()) {
        Ok(word.text.clone()?)
    } else {
        Err(wrong(word, bad_in(part)))
    }
}

/// What a class specification is of.
#[tactic(auto, unfolding(crate::specs::Reader::expected, crate::specs::Reader::item, crate::specs::Reader::bind))]
pub(crate) fn read_kind(words: &mut Words<'_>) -> Result<Text, Or<RuleFault>>
    ensures { ReadsOr result words.new (expected Class is_class_kind words.old) }
{
    let word = words.take(RuleKind::MissingName)?;
    if is_class_kind(word.text.as_str()) {
        Ok(word.text.clone()?)
    } else {
        Err(wrong(word, RuleKind::BadClassSpec))
    }
}

/// A mark of a specification.
#[tactic(auto, unfolding(crate::specs::Reader::mark, crate::specs::Reader::item, crate::specs::Reader::bind))]
pub(crate) fn read_mark(words: &mut Words<'_>, part: Part, text: &str) -> Result<(), Or<RuleFault>>
    ensures { ReadsOr result words.new (mark part text.now words.old) }
{
    let word = words.take(missing_in(part))?;
    if word.text.as_str() == text {
        Ok(())
    } else {
        Err(wrong(word, bad_in(part)))
    }
}
