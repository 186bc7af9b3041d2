// Flags, and lists with commas between two (ProGuard manual, "Filters", "Class Specifications").
ghost use Rattle.std.specs.Prelude.{◌≡◌};
ghost use Rattle.keep_rules.specs.Reader.{IsFault, ReadsOr, fault, item, next_passes};
ghost use Rattle.keep_rules.specs.Filtering.{filter_in, filters, filtered_by, flags};
ghost use Rattle.keep_rules.specs.Texts.{bad_filter, is_filter, is_flag};
ghost use Rattle.keep_rules.specs.declared.fault.RuleKind.TheVariants.{BadValue, MissingName};

use crate::ahead::{Words, wrong};
use crate::texts::{Part, begins_at, filter_of, is_flag, is_pattern, without_not};
use crate::{Filter, RuleFault, RuleKind};
use conf_words::Word;
use jv_base::{Items, Or, Text};
use std::alloc::Global;

/// What is filtered.
#[derive(Clone, Copy)]
pub(crate) enum Filtered<'a> {
    /// Class names.
    Classes,
    /// The attributes of an option.
    Attributes(&'a Text),
}

#[tactic(auto, unfolding(crate::specs::Reader::next_passes))]
fn is_flag_next(words: &Words<'_>, part: Part) -> bool
    ensures { result ≡ next_passes (is_flag part) words.now }
{
    match words.peek() {
        Some(word) => is_flag(part, word),
        None => false,
    }
}

/// The flags of a specification, as many as there are.
pub(crate) fn read_flags(
    alloc: Global,
    words: &mut Words<'_>,
    part: Part,
) -> Result<Items<Filter>, Or<RuleFault>>
    ensures { ReadsOr result words.new (flags part words.old) }
{
    let mut flags = Items::new(alloc);
    while is_flag_next(words, part) {
        let word = words.take(RuleKind::MissingName)?;
        flags.push(filter_of(alloc, &word.text)?)?;
    }
    Ok(flags)
}

fn is_filter(filtered: Filtered<'_>, word: &str) -> bool
    ensures { result ≡ is_filter (filtered_by filtered.entry) word.now }
{
    match filtered {
        Filtered::Classes => is_pattern(without_not(word)) && !begins_at(word),
        Filtered::Attributes(_) => is_pattern(without_not(word)),
    }
}

// A word that is no pattern of the filter.
fn no_filter(word: &Word, filtered: Filtered<'_>) -> Or<RuleFault>
    ensures { IsFault result (fault word.now.line (bad_filter (filtered_by filtered.entry) word.now.text)) }
{
    match filtered {
        Filtered::Classes => wrong(word, RuleKind::BadClassSpec),
        Filtered::Attributes(option) => bad_value(word.line, option),
    }
}

/// A value that an option may not have.
pub(crate) fn bad_value(line: u32, option: &Text) -> Or<RuleFault>
    ensures { IsFault result (fault line (BadValue option.now)) }
{
    match option.clone() {
        Ok(option) => Or::Fault(RuleFault {
            line,
            kind: RuleKind::BadValue(option),
        }),
        Err(_) => Or::OutOfMemory,
    }
}

#[tactic(auto, unfolding(crate::specs::Reader::item, crate::specs::Reader::bind))]
fn read_filter(
    alloc: Global,
    words: &mut Words<'_>,
    filtered: Filtered<'_>,
) -> Result<Filter, Or<RuleFault>>
    ensures { ReadsOr result words.new (item MissingName (filter_in (filtered_by filtered.entry)) words.old) }
{
    let word = words.take(RuleKind::MissingName)?;
    if is_filter(filtered, word.text.as_str()) {
        Ok(filter_of(alloc, &word.text)?)
    } else {
        Err(no_filter(word, filtered))
    }
}

/// A filter: patterns, each perhaps behind `!`, joined by commas.
pub(crate) fn read_filters(
    alloc: Global,
    words: &mut Words<'_>,
    filtered: Filtered<'_>,
) -> Result<Items<Filter>, Or<RuleFault>>
    ensures { ReadsOr result words.new (filters (filtered_by filtered.entry) words.old) }
{
    let mut filters = Items::new(alloc);
    loop {
        filters.push(read_filter(alloc, words, filtered)?)?;
        if !words.pass(",") {
            return Ok(filters);
        }
    }
}
