// The line of a frame.
ghost use Rattle.std.specs.Prelude.{◌≡◌, ◌<◌, ◌&&◌, not, ◌==◌, length};
ghost use Rattle.std.specs.List.{list_any, position};
ghost use Rattle.std.specs.Option.{option_copied, option_map};
ghost use Rattle.std.specs.Str.{is_utf8};
ghost use Rattle.jv_base.specs.Names.{is_method_name};
ghost use Rattle.text_lines.specs.Lines.{is_blank};
ghost use Rattle.text_lines.specs.Numbers.{are_digits};
ghost use Rattle.retrace_core.specs.Frames.{class_and_method, closed, frame_behind, frame_of, lacks_end, number_from};
ghost use Rattle.retrace_core.specs.Frames.{number_in, number_of, numbered};
ghost use Rattle.retrace_core.specs.bodies.Parts.{frame_shown, two_shown};

use crate::cutting::{behind, last_place_of, place_of};
use jv_base::is_method_name;

/// What a frame's line says.
#[derive(Clone, Copy)]
pub(crate) struct FrameParts<'a> {
    /// What stands before `at `.
    pub(crate) blanks: &'a [u8],
    /// The class, with dots.
    pub(crate) class: &'a [u8],
    pub(crate) method: &'a [u8],
    /// The line number with its colon; empty where there is none.
    pub(crate) number: &'a [u8],
}

/// The frame whose line this is, if it is one's: blanks, `at `, class, `.`, method, `(`, a source without `:` and `)`,
/// perhaps `:` and digits, and `)`.
#[tactic(auto, unfolding(crate::specs::Frames::frame_of))]
pub(crate) fn frame_of(line: &[u8]) -> Option<FrameParts<'_>>
    ensures { option_map frame_shown result ≡ frame_of line.now }
{
    let start = first_not_blank(line)?;
    let text = behind(b"at ", &line[start..])?;
    frame_behind(&line[..start], text)
}

fn first_not_blank(line: &[u8]) -> Option<usize>
    ensures { result ≡ position (λ b. not (is_blank b)) line.now }
{
    line.iter().position(|b| !(*b == b' ' || *b == b'\t'))
}

#[tactic(auto, unfolding(crate::specs::Frames::frame_behind))]
fn frame_behind<'a>(blanks: &'a [u8], text: &'a [u8]) -> Option<FrameParts<'a>>
    ensures { option_map frame_shown result ≡ frame_behind blanks.now text.now }
{
    let paren = place_of(b'(', text)?;
    let (class, method) = class_and_method(&text[..paren])?;
    let number = number_of(&text[paren + 1..])?;
    Some(FrameParts {
        blanks,
        class,
        method,
        number,
    })
}

#[tactic(auto, unfolding(crate::specs::Frames::class_and_method))]
fn class_and_method(text: &[u8]) -> Option<(&[u8], &[u8])>
    ensures { two_shown result ≡ class_and_method text.now }
{
    let dot = last_place_of(b'.', text)?;
    let method = &text[dot + 1..];
    if is_name_of_method(method) {
        Some((&text[..dot], method))
    } else {
        None
    }
}

fn is_name_of_method(bytes: &[u8]) -> bool
    ensures { result ≡ (is_utf8 bytes.now && is_method_name bytes.now) }
{
    match std::str::from_utf8(bytes) {
        Ok(name) => is_method_name(name),
        Err(_) => false,
    }
}

fn number_of(text: &[u8]) -> Option<&[u8]>
    ensures { option_copied result ≡ number_of text.now }
{
    number_in(closed(text)?)
}

fn closed(text: &[u8]) -> Option<&[u8]>
    ensures { option_copied result ≡ closed text.now }
{
    match text {
        [inside @ .., b')'] => Some(inside),
        _ => None,
    }
}

#[tactic(auto, unfolding(crate::specs::Frames::number_in))]
fn number_in(text: &[u8]) -> Option<&[u8]>
    ensures { option_copied result ≡ number_in text.now }
{
    match place_of(b':', text) {
        Some(colon) => numbered(&text[..colon], &text[colon..]),
        None => lacks_end(text, &text[text.len()..]),
    }
}

fn numbered<'a>(source: &[u8], number: &'a [u8]) -> Option<&'a [u8]>
    requires { 0 < length number.now }
    ensures { option_copied result ≡ numbered source.now number.now }
{
    if number.len() == 1 || !are_digits(&number[1..]) {
        return None;
    }
    lacks_end(source, number)
}

fn are_digits(bytes: &[u8]) -> bool
    ensures { result ≡ are_digits bytes.now }
{
    bytes.iter().all(|b| b.is_ascii_digit())
}

fn lacks_end<'a>(source: &[u8], number: &'a [u8]) -> Option<&'a [u8]>
    ensures { option_copied result ≡ lacks_end source.now number.now }
{
    if has_end(source) { None } else { Some(number) }
}

fn has_end(source: &[u8]) -> bool
    ensures { result ≡ list_any (λ b. b == 41) source.now }
{
    source.iter().any(|b| *b == b')')
}
