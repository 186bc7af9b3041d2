// The lines of a text.
ghost use Rattle.std.specs.Prelude.{◌≡◌, ◌==◌, [], ◌∷◌, ◌<◌, length, position, IfNone, IfSome};
ghost use Rattle.std.specs.List.{list_all};
ghost use Rattle.std.specs.Str.Lines.{lines, strip_carriage_return};
ghost use Rattle.text_lines.specs.Lines.{is_blank, is_comment, is_passed_over};

/// The first line of a text, without its end, and what stands behind it.
#[derive(Clone, Copy)]
pub struct Line<'a> {
    pub line: &'a [u8],
    pub rest: &'a [u8],
}

/// The first line, if there is one. A line ends with LF, before which a CR is dropped, or with the text.
pub fn next_line(text: &[u8]) -> Option<Line<'_>>
    ensures first { IfSome result (λ l. lines text.now ≡ l.line.now ∷ lines l.rest.now) }
    ensures shorter { IfSome result (λ l. length l.rest.now < length text.now) }
    ensures none { IfNone result (lines text.now ≡ []) }
{
    if text.is_empty() {
        return None;
    }
    match end_of_line(text) {
        Some(end) => Some(Line {
            line: without_return(&text[..end]),
            rest: &text[end + 1..],
        }),
        None => Some(Line {
            line: text,
            rest: &text[text.len()..],
        }),
    }
}

fn end_of_line(text: &[u8]) -> Option<usize>
    ensures { result ≡ position (λ b. b == 10) text.now }
{
    text.iter().position(|b| *b == b'\n')
}

// A line without the CR at its end, if it has one.
fn without_return(line: &[u8]) -> &[u8]
    ensures { result.now ≡ strip_carriage_return line.now }
{
    match line {
        [front @ .., b'\r'] => front,
        _ => line,
    }
}

/// Whether a line says nothing: it is a comment, which begins with `#`, or has nothing but spaces and tabs.
#[tactic(auto, unfolding(crate::specs::Lines::is_passed_over))]
pub fn is_passed_over(line: &[u8]) -> bool
    ensures { result ≡ is_passed_over line.now }
{
    is_comment(line) || are_blanks(line)
}

fn are_blanks(line: &[u8]) -> bool
    ensures { result ≡ list_all is_blank line.now }
{
    line.iter().all(|b| is_blank(*b))
}

fn is_blank(byte: u8) -> bool
    ensures { result ≡ is_blank byte }
{
    byte == b' ' || byte == b'\t'
}

fn is_comment(line: &[u8]) -> bool
    ensures { result ≡ is_comment line.now }
{
    match line {
        [first, ..] => *first == b'#',
        [] => false,
    }
}
