// The values of options.
ghost use Rattle.std.specs.Prelude.{◌≡◌, ◌∷◌, [], IfOk};
ghost use Rattle.jv_base.specs.Outcome.{IsDue};
ghost use Rattle.keep_rules.specs.Reader.{IsFault, ReadsOr, fault, item, none_left, stray, whole};
ghost use Rattle.keep_rules.specs.Reading.{attributes, every, once, value_in, value_meant};
ghost use Rattle.keep_rules.specs.declared.fault.RuleKind.TheVariants.{MissingName, Repeated};
ghost use Rattle.keep_rules.specs.Specifications.{keep};

use crate::ahead::{Words, wrong};
use crate::filtering::{Filtered, bad_value, read_filters};
use crate::keeping::read_keep;
use crate::{Filter, Keep, KeepKind, RuleFault, RuleKind};
use conf_words::Word;
use jv_base::{Items, M, Or, Text};
use path_text::{directory_in, is_path};
use std::alloc::Global;

/// What a value is.
#[derive(Clone, Copy, PartialEq, Eq)]
pub(crate) enum Value {
    /// A directory, of which one `/` at the end is dropped.
    Directory,
    /// A file.
    File,
    AnyWord,
}

/// A word where an option is expected.
pub(crate) fn stray(word: &Word) -> Or<RuleFault>
    ensures { IsFault result (stray word.now) }
{
    wrong(word, RuleKind::UnknownOption)
}

/// No word may be left of an option.
pub(crate) fn none_left(words: &[Word]) -> Result<(), Or<RuleFault>>
    ensures { IsDue result (none_left {A = Unit {0}} tt words.now) }
{
    match words {
        [word, ..] => Err(stray(word)),
        [] => Ok(()),
    }
}

// The value that a word is.
fn value_of(alloc: Global, value: Value, word: &Text) -> M<Option<Text>>
    ensures { IfOk result (λ v. v ≡ value_in value word.now) }
{
    match value {
        Value::Directory => match directory_in(word.as_str()) {
            Some(directory) => Ok(Some(Text::from_str(alloc, directory)?)),
            None => Ok(None),
        },
        Value::File => {
            if is_path(word.as_str()) {
                Ok(Some(word.clone()?))
            } else {
                Ok(None)
            }
        }
        Value::AnyWord => Ok(Some(word.clone()?)),
    }
}

// The value of an option.
#[tactic(auto, unfolding(crate::specs::Reader::item, crate::specs::Reader::bind))]
fn read_value(
    alloc: Global,
    words: &mut Words<'_>,
    option: &Text,
    value: Value,
) -> Result<Text, Or<RuleFault>>
    ensures { ReadsOr result words.new (item MissingName (value_meant option.now value) words.old) }
{
    let word = words.take(RuleKind::MissingName)?;
    match value_of(alloc, value, &word.text)? {
        Some(value) => Ok(value),
        None => Err(bad_value(word.line, option)),
    }
}

// An option that stands a second time.
fn repeated(option: &Word) -> Or<RuleFault>
    ensures { IsFault result (fault option.now.line (Repeated option.now.text)) }
{
    match option.text.clone() {
        Ok(text) => Or::Fault(RuleFault {
            line: option.line,
            kind: RuleKind::Repeated(text),
        }),
        Err(_) => Or::OutOfMemory,
    }
}

/// The value of an option that may stand once.
#[tactic(auto, unfolding(crate::specs::Reading::once, crate::specs::Reader::whole))]
pub(crate) fn read_once(
    alloc: Global,
    value: Value,
    slot: &Option<Text>,
    option: &Word,
    values: &[Word],
) -> Result<Text, Or<RuleFault>>
    ensures { IsDue result (once value slot.now option.now values.now) }
{
    if slot.is_some() {
        return Err(repeated(option));
    }
    let mut words = Words::new(option.line, values);
    let value = read_value(alloc, &mut words, &option.text, value)?;
    none_left(words.rest())?;
    Ok(value)
}

/// The filter of `-keepattributes`, or none for all.
#[tactic(auto, unfolding(crate::specs::Reading::attributes, crate::specs::Reader::if_end, crate::specs::Reader::give))]
fn read_attributes(
    alloc: Global,
    words: &mut Words<'_>,
    option: &Text,
) -> Result<Items<Filter>, Or<RuleFault>>
    ensures { ReadsOr result words.new (attributes option.now words.old) }
{
    if words.is_end() {
        Ok(every(alloc)?)
    } else {
        read_filters(alloc, words, Filtered::Attributes(option))
    }
}

// The filter that takes every name.
fn every(alloc: Global) -> M<Items<Filter>>
    ensures { IfOk result (λ filters. filters ≡ every ∷ []) }
{
    let mut filters = Items::new(alloc);
    let pattern = Text::from_str(alloc, "*")?;
    filters.push(Filter {
        negated: false,
        pattern,
    })?;
    Ok(filters)
}

/// The filters of `-keepattributes`, with all of its values.
#[tactic(auto, unfolding(crate::specs::Reader::whole))]
pub(crate) fn attributes_of(
    alloc: Global,
    option: &Word,
    values: &[Word],
) -> Result<Items<Filter>, Or<RuleFault>>
    ensures { IsDue result (whole (attributes option.now.text) option.now values.now) }
{
    let mut words = Words::new(option.line, values);
    let filters = read_attributes(alloc, &mut words, &option.text)?;
    none_left(words.rest())?;
    Ok(filters)
}

/// What a keep option says, with all of its values.
#[tactic(auto, unfolding(crate::specs::Reader::whole))]
pub(crate) fn keep_of(
    alloc: Global,
    kind: KeepKind,
    shrinking: bool,
    option: &Word,
    values: &[Word],
) -> Result<Keep, Or<RuleFault>>
    ensures { IsDue result (whole (keep kind shrinking option.now.text) option.now values.now) }
{
    let mut words = Words::new(option.line, values);
    let keep = read_keep(alloc, &mut words, &option.text, kind, shrinking)?;
    none_left(words.rest())?;
    Ok(keep)
}
