// What the bytes of a config are.
ghost use Rattle.std.specs.Prelude.{◌≡◌};
ghost use Rattle.conf_words.specs.Pieces.{ends_word, kind_of};

/// What a byte of a config's text is.
#[derive(Clone, Copy, PartialEq, Eq)]
pub(crate) enum Kind {
    /// A line feed.
    LineEnd,
    /// A space, a tab, a carriage return or a form feed.
    Blank,
    /// A `#`, which begins a comment.
    Hash,
    /// One of `( ) , ; { }`, each a word by itself.
    Mark,
    /// A `"` or a `'`.
    Quote,
    /// A byte of a word.
    Plain,
}

#[tactic(auto, unfolding(crate::specs::Pieces::kind_of))]
pub(crate) fn kind_of(byte: u8) -> Kind
    ensures { result ≡ kind_of byte }
{
    match byte {
        b'\n' => Kind::LineEnd,
        b' ' | b'\t' | b'\r' | 12 => Kind::Blank,
        b'#' => Kind::Hash,
        b'(' | b')' | b',' | b';' | b'{' | b'}' => Kind::Mark,
        b'"' | b'\'' => Kind::Quote,
        _ => Kind::Plain,
    }
}

pub(crate) fn ends_word(byte: u8) -> bool
    ensures { result ≡ ends_word byte }
{
    match kind_of(byte) {
        Kind::Plain => false,
        _ => true,
    }
}
