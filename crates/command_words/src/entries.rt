// The text of an entry.
ghost use Rattle.std.specs.Prelude.{◌≡◌, IfOk, codes, is_some};
ghost use Rattle.command_words.specs.Entries.{are_names, are_types, closed, cut_last, entry_parts, is_entry};
ghost use Rattle.text_lines.specs.Cut.{parts_copied};
ghost use Rattle.text_lines.specs.Members.{class_of};

use jv_base::{M, is_method_name};
use std::alloc::Global;
use text_lines::{Known, cut};

/// Whether a text is that of an entry, `class.name(types)`.
#[tactic(auto, unfolding(crate::specs::Entries::is_entry))]
pub(crate) fn is_entry(alloc: Global, text: &str) -> M<bool>
    ensures { IfOk result (λ is. is ≡ is_entry text.now) }
{
    match entry_parts(text) {
        Some((names, types)) => Ok(are_names(alloc, names)? && are_types(alloc, types)?),
        None => Ok(false),
    }
}

// What stands before the parentheses, and between them.
fn entry_parts(text: &str) -> Option<(&str, &str)>
    ensures { parts_copied result ≡ entry_parts text.now }
{
    match cut(text, '(') {
        Some((head, rest)) => closed(head, rest),
        None => None,
    }
}

fn closed<'a>(head: &'a str, rest: &'a str) -> Option<(&'a str, &'a str)>
    ensures { parts_copied result ≡ closed head.now rest.now }
{
    match cut(rest, ')') {
        Some((types, "")) => Some((head, types)),
        _ => None,
    }
}

fn are_names(alloc: Global, text: &str) -> M<bool>
    ensures { IfOk result (λ are. are ≡ are_names (cut_last 46 text.now)) }
{
    match cut_last(text) {
        Some((class, name)) => Ok(is_method_name(name) && is_class(alloc, class)?),
        None => Ok(false),
    }
}

// What stands before and behind the last dot.
fn cut_last(text: &str) -> Option<(&str, &str)>
    ensures { parts_copied result ≡ cut_last 46 text.now }
{
    text.rsplit_once('.')
}

fn is_class(alloc: Global, text: &str) -> M<bool>
    ensures { IfOk result (λ is. is ≡ is_some (class_of text.now)) }
{
    let mut known = Known::new(alloc, 0)?;
    Ok(known.class_name(alloc, text)?.is_some())
}

fn are_types(alloc: Global, text: &str) -> M<bool>
    ensures { IfOk result (λ are. are ≡ are_types text.now) }
{
    let mut known = Known::new(alloc, 0)?;
    Ok(known.method_type(alloc, "void", text)?.is_some())
}
