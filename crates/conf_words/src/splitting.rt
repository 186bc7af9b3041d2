// The words of a text.
ghost use Rattle.std.specs.Prelude.{◌≡◌, ◌<◌, ◌++◌, [], length, OnOk};
ghost use Rattle.std.specs.Option.{option_copied};
ghost use Rattle.jv_base.specs.Outcome.{IsDue};
ghost use Rattle.conf_words.specs.Pieces.{word_before};
ghost use Rattle.conf_words.specs.Reading.{words_at, words_of_bytes};

use crate::pieces::piece_at;
use jv_base::{Items, M, Or, Text};
use std::alloc::Global;
use std::fmt::{self, Display, Formatter};

/// A word of a config, without the quotes that it may have stood in.
#[derive(Drop)]
pub struct Word {
    pub text: Text,
    /// The line on which it stands, from 1.
    pub line: u32,
}

/// Why bytes have no words.
#[derive(Clone, Copy, PartialEq, Eq)]
pub enum WordFault {
    /// They aren't UTF-8: the offset of the first byte at which no character begins.
    NotUtf8(u32),
    /// A quote isn't closed on its line, which is counted from 1.
    QuoteOpen(u32),
}

impl Display for WordFault {
    fn fmt<W: fmt::Write>(&self, f: &mut Formatter<W>) -> fmt::Result {
        match self {
            WordFault::NotUtf8(offset) => write!(f, "NotUtf8 at byte {offset}"),
            WordFault::QuoteOpen(line) => write!(f, "QuoteOpen at line {line}"),
        }
    }
}

/// The words of a config's bytes, or the first fault (ProGuard manual, "Usage").
///
/// Space, tab, carriage return, line feed and form feed separate words. A `#` begins a comment, which goes to the end
/// of the line. Each of `( ) , ; { }` is a word, and so is a text in `'` or `"`, which has to be closed on its line. A
/// line ends with a line feed.
pub fn words(alloc: Global, bytes: &[u8]) -> Result<Items<Word>, Or<WordFault>>
    requires { length bytes.now < 4294967295 }
    ensures { IsDue result (words_of_bytes bytes.now) }
{
    match std::str::from_utf8(bytes) {
        Ok(text) => words_in(alloc, text),
        Err(error) => Err(Or::Fault(WordFault::NotUtf8(error.valid_up_to() as u32))),
    }
}

fn words_in(alloc: Global, text: &str) -> Result<Items<Word>, Or<WordFault>>
    requires { length text.now < 4294967295 }
    ensures { IsDue result (words_at 0 1 text.now) }
{
    let mut words = Items::new(alloc);
    let mut rest = text;
    let mut line = 1;
    while let Some(first) = rest.as_bytes().first() {
        let Some(piece) = piece_at(rest, *first) else {
            return Err(Or::Fault(WordFault::QuoteOpen(line)));
        };
        push_word(alloc, &mut words, piece.word, line)?;
        line += piece.lines;
        rest = piece.rest;
    }
    Ok(words)
}

// Appends a word that stands on a line, if there is one.
fn push_word(alloc: Global, words: &mut Items<Word>, word: Option<&str>, line: u32) -> M<()>
    ensures { OnOk result (words.new ≡ words.old ++ word_before (option_copied word.entry) line []) }
{
    let Some(word) = word else {
        return Ok(());
    };
    let text = Text::from_str(alloc, word)?;
    words.push(Word { text, line })?;
    Ok(())
}
