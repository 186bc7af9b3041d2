// The line of a thrown object.
ghost use Rattle.std.specs.Prelude.{◌≡◌, ◌≤◌, drop, length};
ghost use Rattle.std.specs.Option.{option_map, unwrap_or};
ghost use Rattle.retrace_core.specs.Heads.{behind_thread, ends_class, front_length, head_behind, head_of};
ghost use Rattle.retrace_core.specs.Cut.{place_of};
ghost use Rattle.retrace_core.specs.bodies.Parts.{head_shown};

use crate::cutting::place_of;

/// What the line of a thrown object says.
#[derive(Clone, Copy)]
pub(crate) struct HeadParts<'a> {
    /// What stands before the class.
    pub(crate) front: &'a [u8],
    /// The class, with dots.
    pub(crate) class: &'a [u8],
    /// What stands behind the class: nothing, or `: ` and a text.
    pub(crate) text: &'a [u8],
}

/// The thrown object whose line this is, if it is one's: perhaps `Caused by: ` or `Exception in thread "..." `, then a
/// class, then the end or `: ` and a text.
#[tactic(auto, unfolding(crate::specs::Heads::head_of))]
pub(crate) fn head_of(line: &[u8]) -> Option<HeadParts<'_>>
    ensures { option_map head_shown result ≡ head_of line.now }
{
    let start = front_length(line);
    head_behind(&line[..start], &line[start..])
}

#[tactic(auto, unfolding(crate::specs::Heads::front_length))]
fn front_length(line: &[u8]) -> usize
    ensures is { result ≡ front_length line.now }
    ensures within { result ≤ length line.now }
{
    if line.starts_with(b"Caused by: ") {
        11
    } else if line.starts_with(b"Exception in thread \"") {
        behind_thread(line)
    } else {
        0
    }
}

fn behind_thread(line: &[u8]) -> usize
    requires { 21 ≤ length line.now }
    ensures is { result ≡ behind_thread line.now (place_of 34 (drop 21 line.now)) }
    ensures within { result ≤ length line.now }
{
    match place_of(b'"', &line[21..]) {
        Some(quote) if line[quote + 22..].starts_with(b" ") => quote + 23,
        _ => 0,
    }
}

#[tactic(auto, unfolding(crate::specs::Heads::head_behind))]
fn head_behind<'a>(front: &'a [u8], text: &'a [u8]) -> Option<HeadParts<'a>>
    ensures { option_map head_shown result ≡ head_behind front.now text.now }
{
    let end = class_end(text);
    if !ends_class(&text[end..]) {
        return None;
    }
    Some(HeadParts {
        front,
        class: &text[..end],
        text: &text[end..],
    })
}

fn class_end(text: &[u8]) -> usize
    ensures is { result ≡ unwrap_or (place_of 58 text.now) (length text.now) }
    ensures within { result ≤ length text.now }
{
    match place_of(b':', text) {
        Some(colon) => colon,
        None => text.len(),
    }
}

fn ends_class(text: &[u8]) -> bool
    ensures { result ≡ ends_class text.now }
{
    text.is_empty() || text.starts_with(b": ")
}
