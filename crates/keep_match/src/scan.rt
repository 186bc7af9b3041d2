// How a text is cut along a pattern, without memory. Behind a `*` the first place counts at which the pieces up to the
// next star fit, since a later one leaves no more. Behind a `**` the text is tried behind each dot, since all places
// between two dots lead to the same place. So each piece is compared with each character once at most.
ghost use Rattle.std.specs.Prelude.{◌≡◌, ◌≤◌, ◌<◌, ◌↔◌, [], ◌∷◌, IfSome, IsTrue, MatchOption, length};
ghost use Rattle.std.specs.Str.{chars};
ghost use Rattle.keep_match.specs.declared.piece.Piece.TheVariants.{Any, Part};
ghost use Rattle.keep_match.specs.bodies.Scan.{EndsBlock, Fails, IsBehindDot, IsBlock, IsSame, IsStepToBlock};
ghost use Rattle.keep_match.specs.bodies.Scan.{IsStepToSection};
ghost use Rattle.keep_match.specs.bodies.Scan.{pieces_at, text_at};
ghost use Rattle.keep_match.specs.Wildcards.{Begins, HasNoDot, pieces, dotted_chars};

use crate::piece::{Piece, allows, first_piece, first_shown, is_star};

/// What is left of a pattern and of a text.
#[derive(Clone, Copy)]
pub(crate) struct Place<'a> {
    pub pattern: &'a str,
    pub text: &'a str,
}

/// Whether a text, in which `dot` is read as a dot, can be cut into parts, one for each piece of the pattern.
pub(crate) fn is_cut(dot: char, pattern: &str, text: &str) -> bool
    ensures { IsTrue result ↔ Begins (pieces (chars pattern.now)) (dotted_chars dot text.now) [] }
{
    let Some(mut place) = to_section(dot, pattern, text) else {
        return false;
    };
    while let Some((_, rest)) = first_piece(place.pattern) {
        match behind_any(dot, rest, place.text) {
            Some(next) => place = next,
            None => return false,
        }
    }
    true
}

/// From the beginning to the first `**`, or to the end.
fn to_section<'a>(dot: char, pattern: &'a str, text: &'a str) -> Option<Place<'a>>
    ensures { MatchOption result (Fails (pieces (chars pattern.now)) (dotted_chars dot text.now)) (λ next.
        IsStepToSection (pieces (chars pattern.now)) (dotted_chars dot text.now) (pieces_at next) (text_at dot next)) }
{
    let block = behind_singles(dot, pattern, text)?;
    behind_parts(dot, block.pattern, block.text)
}

/// From behind a `**` to the next one, or to the end.
fn behind_any<'a>(dot: char, pattern: &'a str, text: &'a str) -> Option<Place<'a>>
    ensures found { MatchOption result (Fails (Any ∷ pieces (chars pattern.now)) (dotted_chars dot text.now)) (λ next.
        IsSame (Any ∷ pieces (chars pattern.now)) (dotted_chars dot text.now) (pieces_at next) (text_at dot next)) }
    ensures shorter { IfSome result (λ next. length next.pattern.now ≤ length pattern.now) }
{
    let mut left = text;
    loop {
        if let Some(next) = part_to_section(dot, pattern, left) {
            return Some(next);
        }
        left = behind_dot(dot, left)?;
    }
}

/// From behind a `*` to the next `**`, or to the end.
fn part_to_section<'a>(dot: char, pattern: &'a str, text: &'a str) -> Option<Place<'a>>
    ensures found { MatchOption result (Fails (Part ∷ pieces (chars pattern.now)) (dotted_chars dot text.now)) (λ next.
        IsStepToSection (Part ∷ pieces (chars pattern.now)) (dotted_chars dot text.now) (pieces_at next)
        (text_at dot next)) }
    ensures shorter { IfSome result (λ next. length next.pattern.now ≤ length pattern.now) }
{
    let block = behind_part(dot, pattern, text)?;
    behind_parts(dot, block.pattern, block.text)
}

/// What stands behind the first dot.
fn behind_dot(dot: char, text: &str) -> Option<&str>
    ensures found { MatchOption result (HasNoDot (dotted_chars dot text.now))
        (λ rest. IsBehindDot (dotted_chars dot text.now)
        (dotted_chars dot rest.now)) }
    ensures shorter { IfSome result (λ rest. length rest.now < length text.now) }
{
    let mut left = text;
    while let Some((character, rest)) = first_shown(dot, left) {
        if character == '.' {
            return Some(rest);
        }
        left = rest;
    }
    None
}

/// From a star to the next `**`, or to the end.
fn behind_parts<'a>(dot: char, pattern: &'a str, text: &'a str) -> Option<Place<'a>>
    requires { EndsBlock (pieces (chars pattern.now)) (dotted_chars dot text.now) }
    ensures found { MatchOption result (Fails (pieces (chars pattern.now)) (dotted_chars dot text.now)) (λ next.
        IsStepToSection (pieces (chars pattern.now)) (dotted_chars dot text.now) (pieces_at next) (text_at dot next)) }
    ensures shorter { IfSome result (λ next. length next.pattern.now ≤ length pattern.now) }
{
    let mut place = Place { pattern, text };
    while let Some((Piece::Part, rest)) = first_piece(place.pattern) {
        place = behind_part(dot, rest, place.text)?;
    }
    Some(place)
}

/// From behind a `*` to the first place behind the pieces up to the next star, or to the end.
fn behind_part<'a>(dot: char, pattern: &'a str, text: &'a str) -> Option<Place<'a>>
    ensures found { MatchOption result (Fails (Part ∷ pieces (chars pattern.now)) (dotted_chars dot text.now)) (λ next.
        IsStepToBlock (Part ∷ pieces (chars pattern.now)) (dotted_chars dot text.now) (pieces_at next)
        (text_at dot next)) }
    ensures shorter { IfSome result (λ next. length next.pattern.now ≤ length pattern.now) }
{
    let mut left = text;
    loop {
        if let Some(next) = behind_singles(dot, pattern, left) {
            return Some(next);
        }
        match first_shown(dot, left) {
            Some((character, rest)) if character != '.' => left = rest,
            _ => return None,
        }
    }
}

/// To the next star, or to the end, where each piece before stands for one character.
fn behind_singles<'a>(dot: char, pattern: &'a str, text: &'a str) -> Option<Place<'a>>
    ensures found { MatchOption result (Fails (pieces (chars pattern.now)) (dotted_chars dot text.now)) (λ next.
        IsBlock (pieces (chars pattern.now)) (dotted_chars dot text.now) (pieces_at next) (text_at dot next)) }
    ensures shorter { IfSome result (λ next. length next.pattern.now ≤ length pattern.now) }
{
    let mut place = Place { pattern, text };
    while let Some((piece, rest)) = first_piece(place.pattern) {
        if is_star(piece) {
            return Some(place);
        }
        let (character, behind) = first_shown(dot, place.text)?;
        if !allows(piece, character) {
            return None;
        }
        place = Place {
            pattern: rest,
            text: behind,
        };
    }
    match first_shown(dot, place.text) {
        None => Some(place),
        Some(_) => None,
    }
}
