// Patterns of types (ProGuard manual, "Class Specifications").
ghost use Rattle.std.specs.Prelude.{◌≡◌, IfSome};
ghost use Rattle.std.specs.Option.{option_map};
ghost use Rattle.keep_match.specs.TypePatterns.{are_any, ends_with_pair, match_arguments, match_each, matches_array};
ghost use Rattle.keep_match.specs.TypePatterns.{matches_element, matches_result, matches_type, without_pair};
ghost use Rattle.keep_match.specs.TypePatterns.{without_pairs};

use crate::wildcard::wild_class;
use jv_base::{Base, FieldType, Text};

/// Whether patterns match the types of parameters, `...` alone any.
pub(crate) fn match_arguments(patterns: &[Text], types: &[FieldType]) -> bool
    ensures { result ≡ match_arguments patterns.now types.now }
{
    are_any(patterns) || match_each(patterns, types)
}

fn are_any(patterns: &[Text]) -> bool
    ensures { result ≡ are_any patterns.now }
{
    match patterns {
        [only] => only.as_str() == "...",
        _ => false,
    }
}

fn match_each(patterns: &[Text], types: &[FieldType]) -> bool
    ensures { result ≡ match_each patterns.now types.now }
{
    if patterns.len() != types.len() {
        return false;
    }
    for (at, pattern) in patterns.iter().enumerate() {
        if !matches_type(pattern.as_str(), &types[at]) {
            return false;
        }
    }
    true
}

/// Whether a pattern matches what a method gives; none is void.
#[tactic(auto, unfolding(crate::specs::TypePatterns::matches_result))]
pub(crate) fn matches_result(pattern: &str, ret: &Option<FieldType>) -> bool
    ensures { result ≡ matches_result pattern.now ret.now }
{
    match ret {
        None => pattern == "***" || pattern == "void",
        Some(ty) => matches_type(pattern, ty),
    }
}

/// Whether a pattern matches a type: `***` each one, another one arrays of as many dimensions as it ends with `[]`.
#[tactic(auto, unfolding(crate::specs::TypePatterns::matches_type))]
pub(crate) fn matches_type(pattern: &str, ty: &FieldType) -> bool
    ensures { result ≡ matches_type pattern.now ty.now }
{
    pattern == "***" || matches_array(pattern, ty)
}

fn matches_array(pattern: &str, ty: &FieldType) -> bool
    ensures { result ≡ matches_array pattern.now ty.now }
{
    match without_pairs(pattern, ty.dims) {
        Some(front) => !ends_with_pair(front) && matches_element(front, &ty.base),
        None => false,
    }
}

/// A text without so many pairs of brackets at its end.
fn without_pairs(text: &str, count: u8) -> Option<&str>
    ensures { option_map (λ front. front.now) result ≡ without_pairs count text.now }
{
    let mut front = text;
    let mut left = count;
    while left > 0 {
        front = without_pair(front)?;
        left -= 1;
    }
    Some(front)
}

/// A text without the pair of brackets at its end.
#[tactic(auto, using(crate::proofs::Pairs::pair_taken, crate::proofs::Pairs::pair_none))]
fn without_pair(text: &str) -> Option<&str>
    ensures { option_map (λ front. front.now) result ≡ without_pair text.now }
{
    text.strip_suffix("[]")
}

/// Whether a text ends with a pair of brackets.
#[tactic(auto, using(std::proofs::lemmas::Str::Pattern::ends_text))]
fn ends_with_pair(text: &str) -> bool
    ensures { result ≡ ends_with_pair text.now }
{
    text.ends_with("[]")
}

/// Whether a pattern without brackets at its end matches the type of an element.
#[tactic(auto, unfolding(crate::specs::TypePatterns::matches_element, jv_base::specs::External::word_text))]
fn matches_element(pattern: &str, base: &Base) -> bool
    ensures { result ≡ matches_element pattern.now base.now }
{
    let word = match base {
        Base::Boolean => "boolean",
        Base::Byte => "byte",
        Base::Char => "char",
        Base::Short => "short",
        Base::Int => "int",
        Base::Long => "long",
        Base::Float => "float",
        Base::Double => "double",
        Base::Class(name) => return wild_class(pattern, name.as_str()),
    };
    pattern == "%" || pattern == "***" || pattern == word
}
