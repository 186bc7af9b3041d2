// The parts of a line.
ghost use Rattle.std.specs.Prelude.{◌≡◌, ◌^◌};
ghost use Rattle.std.specs.Option.{option_map};
ghost use Rattle.text_lines.specs.Cut.{cut};
ghost use Rattle.text_lines.specs.Numbers.{number_below};
ghost use Rattle.mapping_file.specs.LineReading.{class_line, field_line, lines_before, method_line, parts_of};
ghost use Rattle.mapping_file.specs.LineReading.{kept_parts};

use crate::Range;
use text_lines::{after, cut, number_below};

/// The parts of a line, which aren't judged yet.
#[derive(Clone, Copy)]
pub(crate) enum Parts<'a> {
    Class {
        old: &'a str,
        new: &'a str,
    },
    Field {
        ty: &'a str,
        old: &'a str,
        new: &'a str,
    },
    Method {
        lines: Option<Range>,
        ret: &'a str,
        old: &'a str,
        args: &'a str,
        new: &'a str,
    },
}

/// The parts of a line, if it has those of a class's line or of a member's.
#[tactic(auto, unfolding(crate::specs::LineReading::parts_of))]
pub(crate) fn parts_of(text: &str) -> Option<Parts<'_>>
    ensures { option_map kept_parts result ≡ parts_of text.now }
{
    let Some(member) = after(text, "    ") else {
        return class_line(text);
    };
    match cut(member, '(') {
        Some((head, behind)) => method_line(head, behind),
        None => field_line(member),
    }
}

fn class_line(text: &str) -> Option<Parts<'_>>
    ensures { option_map kept_parts result ≡ class_line text.now }
{
    let (old, rest) = cut(text, ' ')?;
    let rest = after(rest, "-> ")?;
    let (new, rest) = cut(rest, ':')?;
    if rest.is_empty() {
        Some(Parts::Class { old, new })
    } else {
        None
    }
}

fn field_line(text: &str) -> Option<Parts<'_>>
    ensures { option_map kept_parts result ≡ field_line text.now }
{
    let (ty, rest) = cut(text, ' ')?;
    let (old, rest) = cut(rest, ' ')?;
    let new = after(rest, "-> ")?;
    Some(Parts::Field { ty, old, new })
}

fn method_line<'a>(head: &'a str, behind: &'a str) -> Option<Parts<'a>>
    ensures { option_map kept_parts result ≡ method_line head.now behind.now }
{
    let (lines, rest) = lines_before(head)?;
    let (ret, old) = cut(rest, ' ')?;
    let (args, rest) = cut(behind, ')')?;
    let new = after(rest, " -> ")?;
    Some(Parts::Method {
        lines,
        ret,
        old,
        args,
        new,
    })
}

// The lines, where they are told, and what stands behind them.
fn lines_before(text: &str) -> Option<(Option<Range>, &str)>
    ensures { option_map (λ p. (p.0, p.1.now)) result ≡ lines_before text.now (cut 58 text.now) }
{
    let Some((first, rest)) = cut(text, ':') else {
        return Some((None, text));
    };
    let (last, rest) = cut(rest, ':')?;
    let first = line_number(first)?;
    let last = line_number(last)?;
    Some((Some(Range { first, last }), rest))
}

fn line_number(text: &str) -> Option<u16>
    ensures { result ≡ number_below 65536 text.now }
{
    let number = number_below(text, 65536)?;
    Some(number as u16)
}
