// The words of a config by what they may be (ProGuard manual, "Usage", "Filters", "Class Specifications").
ghost use Rattle.std.specs.Prelude.{◌≡◌, IfOk};
ghost use Rattle.std.specs.List.{list_any};
ghost use Rattle.keep_rules.specs.Texts.{begins_at, filter_of, is_any_member, is_class_flag, is_class_kind};
ghost use Rattle.keep_rules.specs.Texts.{is_constructor};
ghost use Rattle.keep_rules.specs.Texts.{is_flag, is_flag_of, is_mark, is_name, is_option, is_own_flag, is_part};
ghost use Rattle.keep_rules.specs.Texts.{is_pattern};
ghost use Rattle.keep_rules.specs.Texts.{last_part, names_above, without_not};

use crate::Filter;
use jv_base::{M, Text};
use std::alloc::Global;

/// Which specification is read.
#[derive(Clone, Copy, PartialEq, Eq)]
pub(crate) enum Part {
    /// A class specification.
    Class,
    /// A member specification.
    Member,
}

pub(crate) fn is_option(word: &str) -> bool
    ensures { result ≡ is_option word.now }
{
    word.as_bytes().first() == Some(&b'-')
}

pub(crate) fn begins_at(word: &str) -> bool
    ensures { result ≡ begins_at word.now }
{
    word.as_bytes().first() == Some(&b'@')
}

fn is_mark(word: &str) -> bool
    ensures { result ≡ is_mark word.now }
{
    matches!(word, "(" | ")" | "," | ";" | "{" | "}")
}

pub(crate) fn is_pattern(word: &str) -> bool
    ensures { result ≡ is_pattern word.now }
{
    !word.is_empty() && !is_mark(word)
}

pub(crate) fn is_part(word: &str) -> bool
    ensures { result ≡ is_part word.now }
{
    is_pattern(word) && !begins_at(word)
}

pub(crate) fn without_not(word: &str) -> &str
    ensures { result.now ≡ without_not word.now }
{
    match word.strip_prefix('!') {
        Some(rest) => rest,
        None => word,
    }
}

fn is_negated(word: &str) -> bool
    ensures { result ≡ (filter_of word.now).negated }
{
    word.as_bytes().first() == Some(&b'!')
}

/// The filter that a word is.
pub(crate) fn filter_of(alloc: Global, word: &Text) -> M<Filter>
    ensures { IfOk result (λ filter. filter ≡ filter_of word.now) }
{
    let text = word.as_str();
    if is_negated(text) {
        let pattern = Text::from_str(alloc, without_not(text))?;
        Ok(Filter {
            negated: true,
            pattern,
        })
    } else {
        let pattern = word.clone()?;
        Ok(Filter {
            negated: false,
            pattern,
        })
    }
}

#[tactic(auto, unfolding(crate::specs::Texts::is_class_flag))]
fn is_class_flag(word: &str) -> bool
    ensures { result ≡ is_class_flag word.now }
{
    matches!(word, "public" | "final" | "abstract" | "synthetic")
}

#[tactic(auto, unfolding(crate::specs::Texts::is_own_flag))]
fn is_own_flag(word: &str) -> bool
    ensures { result ≡ is_own_flag word.now }
{
    matches!(
        word,
        "private"
            | "protected"
            | "static"
            | "volatile"
            | "transient"
            | "synchronized"
            | "native"
            | "strictfp"
            | "bridge"
            | "varargs"
    )
}

fn is_flag_of(part: Part, word: &str) -> bool
    ensures { result ≡ is_flag_of part word.now }
{
    match part {
        Part::Class => is_class_flag(word),
        Part::Member => is_class_flag(word) || is_own_flag(word),
    }
}

/// Whether a word is a flag of such a specification, perhaps behind `!`.
pub(crate) fn is_flag(part: Part, word: &str) -> bool
    ensures { result ≡ is_flag part word.now }
{
    is_flag_of(part, without_not(word))
}

#[tactic(auto, unfolding(crate::specs::Texts::is_class_kind))]
pub(crate) fn is_class_kind(word: &str) -> bool
    ensures { result ≡ is_class_kind word.now }
{
    matches!(word, "class" | "interface" | "!interface" | "enum")
}

pub(crate) fn names_above(word: &str) -> bool
    ensures { result ≡ names_above word.now }
{
    matches!(word, "extends" | "implements")
}

pub(crate) fn is_any_member(word: &str) -> bool
    ensures { result ≡ is_any_member word.now }
{
    matches!(word, "*" | "<fields>" | "<methods>")
}

fn last_part(name: &str) -> &str
    ensures { result.now ≡ last_part name.now }
{
    match name.rfind('.') {
        Some(at) => &name[at + 1..],
        None => name,
    }
}

/// Whether a word names the constructors of the classes that have these names.
pub(crate) fn is_constructor(names: &[Filter], word: &str) -> bool
    ensures { result ≡ is_constructor names.now word.now }
{
    word == "<init>" || is_any_name(names, word)
}

fn is_any_name(names: &[Filter], word: &str) -> bool
    ensures { result ≡ list_any (is_name word.now) names.now }
{
    names.iter().any(|name| is_name(name, word))
}

fn is_name(name: &Filter, word: &str) -> bool
    ensures { result ≡ is_name word.now name.now }
{
    let name = name.pattern.as_str();
    word == name || word == last_part(name)
}
