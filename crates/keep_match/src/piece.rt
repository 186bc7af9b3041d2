// Patterns and texts, read from left to right.
ghost use Rattle.std.specs.Prelude.{◌≡◌, ℕ, ◌<◌, List, [], ◌∷◌, IfSome, MatchOption, length};
ghost use Rattle.std.specs.Str.{chars};
ghost use Rattle.keep_match.specs.bodies.Scan.{allows, is_star};
ghost use Rattle.keep_match.specs.Wildcards.{piece_of, pieces, dotted_chars};

/// A piece of a pattern.
#[derive(Clone, Copy)]
pub(crate) enum Piece {
    /// A character that stands for itself.
    Character(char),
    /// `?`, one character that is no dot.
    One,
    /// `*`, characters that are no dots.
    Part,
    /// `**`, any characters.
    Any,
}

/// The first piece of a pattern, and what stands behind it.
pub(crate) fn first_piece(pattern: &str) -> Option<(Piece, &str)>
    ensures found { MatchOption result (pieces (chars pattern.now) ≡ []) (λ r. pieces (chars pattern.now)
        ≡ r.0 ∷ pieces (chars r.1.now)) }
    ensures shorter { IfSome result (λ r. length r.1.now < length pattern.now) }
{
    let (first, rest) = first_character(pattern)?;
    if first != '*' {
        return Some((piece_of(first), rest));
    }
    match behind_star(rest) {
        Some(behind) => Some((Piece::Any, behind)),
        None => Some((Piece::Part, rest)),
    }
}

/// What stands behind the star with which a pattern begins.
fn behind_star(pattern: &str) -> Option<&str>
    ensures found { MatchOption result ((rest : List ℕ) → chars pattern.now ≡ 42 ∷ rest → ⊥) (λ rest. chars pattern.now
        ≡ 42 ∷ chars rest.now) }
    ensures shorter { IfSome result (λ rest. length rest.now < length pattern.now) }
{
    let (first, rest) = first_character(pattern)?;
    if first == '*' { Some(rest) } else { None }
}

/// The piece that a character is where it isn't one of two stars.
fn piece_of(character: char) -> Piece
    ensures { result ≡ piece_of character }
{
    match character {
        '*' => Piece::Part,
        '?' => Piece::One,
        _ => Piece::Character(character),
    }
}

/// The first character of a text in which `dot` is read as a dot, and what stands behind it.
pub(crate) fn first_shown(dot: char, text: &str) -> Option<(char, &str)>
    ensures found { MatchOption result (dotted_chars dot text.now ≡ [])
        (λ r. dotted_chars dot text.now ≡ r.0 ∷ dotted_chars dot r.1.now) }
    ensures shorter { IfSome result (λ r. length r.1.now < length text.now) }
{
    let (first, rest) = first_character(text)?;
    Some((if first == dot { '.' } else { first }, rest))
}

fn first_character(text: &str) -> Option<(char, &str)>
    ensures found { MatchOption result (chars text.now ≡ []) (λ r. chars text.now ≡ r.0 ∷ chars r.1.now) }
    ensures shorter { IfSome result (λ r. length r.1.now < length text.now) }
{
    let mut characters = text.chars();
    let first = characters.next()?;
    Some((first, characters.as_str()))
}

/// Whether it stands for any number of characters.
pub(crate) fn is_star(piece: Piece) -> bool
    ensures { result ≡ is_star piece }
{
    matches!(piece, Piece::Part | Piece::Any)
}

/// Whether a piece for one character stands for this one.
pub(crate) fn allows(piece: Piece, character: char) -> bool
    ensures { result ≡ allows piece character }
{
    match piece {
        Piece::Character(wanted) => character == wanted,
        Piece::One => character != '.',
        Piece::Part | Piece::Any => false,
    }
}
