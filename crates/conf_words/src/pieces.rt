// The pieces of a text: line ends, blanks, comments and words.
ghost use Rattle.std.specs.Prelude.{◌≡◌, ◌≤◌, take, drop, Some, option_map, slice_get};
ghost use Rattle.std.specs.Option.{option_copied};
ghost use Rattle.std.specs.List.{position, position_or_len};
ghost use Rattle.std.specs.Str.{IsCharBoundary};
ghost use Rattle.conf_words.specs.declared.kinds.Kind.TheVariants.{Quote};
ghost use Rattle.conf_words.specs.Pieces.{ends_word, ends_line, ends_quote, kind_of};
ghost use Rattle.conf_words.specs.Reading.{quoted_in};
ghost use Rattle.conf_words.specs.bodies.Seen.{parts_seen, parts_of, parts_at};

use crate::kinds::{Kind, ends_word, kind_of};

/// What a text begins with.
#[derive(Clone, Copy)]
pub(crate) struct Piece<'a> {
    /// The word, where it is one, without its quotes.
    pub word: Option<&'a str>,
    /// How many lines end with it.
    pub lines: u32,
    /// What stands behind it.
    pub rest: &'a str,
}

/// What a text begins with, of which this is the first byte; nothing where it is a quote that stays open on its line.
#[tactic(auto, unfolding(crate::specs::Reading::piece_of))]
pub(crate) fn piece_at(text: &str, first: u8) -> Option<Piece<'_>>
    requires { slice_get text.now 0 ≡ Some first }
    ensures { option_map parts_seen result ≡ parts_at first text.now }
{
    match kind_of(first) {
        Kind::LineEnd => Some(passed_over(text, 1, 1)),
        Kind::Blank => Some(passed_over(text, 1, 0)),
        Kind::Hash => Some(passed_over(text, line_len(text), 0)),
        Kind::Mark => Some(word_of(text, 1)),
        Kind::Quote => quoted(text, first),
        Kind::Plain => Some(word_of(text, word_len(text))),
    }
}

// So many bytes that are no word.
fn passed_over(text: &str, len: usize, lines: u32) -> Piece<'_>
    requires { IsCharBoundary text.now len }
    ensures word { option_copied result.word ≡ None }
    ensures lines { result.lines ≡ lines }
    ensures rest { result.rest.now ≡ drop len text.now }
{
    let (_, rest) = text.split_at(len);
    Piece {
        word: None,
        lines,
        rest,
    }
}

// So many bytes that are a word.
fn word_of(text: &str, len: usize) -> Piece<'_>
    requires { IsCharBoundary text.now len }
    ensures word { option_copied result.word ≡ Some (take len text.now) }
    ensures lines { result.lines ≡ 0 }
    ensures rest { result.rest.now ≡ drop len text.now }
{
    let (word, rest) = text.split_at(len);
    Piece {
        word: Some(word),
        lines: 0,
        rest,
    }
}

fn line_end(text: &str) -> Option<usize>
    ensures { result ≡ position ends_line text.now }
{
    text.as_bytes().iter().position(|byte| *byte == b'\n')
}

// How long a line is.
fn line_len(text: &str) -> usize
    ensures len { result ≡ position_or_len ends_line text.now }
    ensures boundary { IsCharBoundary text.now result }
{
    match line_end(text) {
        Some(at) => at,
        None => text.len(),
    }
}

fn word_end(text: &str) -> Option<usize>
    ensures { result ≡ position ends_word text.now }
{
    text.as_bytes().iter().position(|byte| ends_word(*byte))
}

// How long a word without quotes is.
fn word_len(text: &str) -> usize
    ensures len { result ≡ position_or_len ends_word text.now }
    ensures boundary { IsCharBoundary text.now result }
{
    match word_end(text) {
        Some(at) => at,
        None => text.len(),
    }
}

fn quote_end(text: &str, quote: u8) -> Option<usize>
    ensures { result ≡ position (ends_quote quote) text.now }
{
    text.as_bytes()
        .iter()
        .position(|byte| *byte == quote || *byte == b'\n')
}

// The text in quotes with which a text begins, if it is closed on its line.
fn quoted(text: &str, quote: u8) -> Option<Piece<'_>>
    requires first { slice_get text.now 0 ≡ Some quote }
    requires kind { kind_of quote ≡ Quote }
    ensures { option_map parts_seen result ≡ option_map (parts_of text.now) (quoted_in quote (drop 1 text.now)) }
{
    let (_, inside) = text.split_at(1);
    let end = quote_end(inside, quote)?;
    if inside.as_bytes()[end] != quote {
        return None;
    }
    let (word, closing) = inside.split_at(end);
    let (_, rest) = closing.split_at(1);
    Some(Piece {
        word: Some(word),
        lines: 0,
        rest,
    })
}
