// What is said of a run.
ghost use Rattle.std.specs.Prelude.{◌≡◌, ◌≤◌, [], ◌∷◌, ◌++◌, IfOk, IfSome, OnOk, codes, length, string_bytes};
ghost use Rattle.std.specs.Char.{encode_utf8};
ghost use Rattle.std.specs.Char.Utf16.{lone_unit_char};
ghost use Rattle.std.specs.Option.{unwrap_or};
ghost use Rattle.jv_base.specs.External.{dotted};
ghost use Rattle.command_frame.specs.Steps.{Makes};
ghost use Rattle.run_command.specs.Shown.{back_text, end_line, how, in_utf8, is_open, run_said, shown};
ghost use Rattle.run_command.specs.bodies.Pairs.{pair, pair_in};

use class_run::{Back, End, Ended};
use command_frame::{Plan, Quantity, Stop};
use jv_base::{Items, M, Name};
use report_text::name_text;
use std::alloc::Global;

/// What is said of a run: what it has printed, and how it has ended, if it has. It is refused where that is more than a
/// text may have.
pub(crate) fn run_said(alloc: Global, ended: &Ended) -> Result<Plan, Stop>
    ensures made { IfOk result (λ plan. plan.files ≡ []) }
    ensures told { Makes result (λ due. due ≡ run_said ended.now) }
{
    let mut text = shown(alloc, ended.printed.as_slice())?;
    if text.len() as u64 > Quantity::Text.limit() {
        return Err(Stop::Refused(Quantity::Text.passed(alloc)?));
    }
    let line = end_line(alloc, &ended.how)?;
    text.push_str(line.as_str())?;
    Ok(Plan {
        files: Items::new(alloc),
        text: Items::from_vec(text.into_bytes()),
    })
}

// ---- what was printed

/// What was printed, with an LF at its end.
fn shown(alloc: Global, units: &[u16]) -> M<String>
    ensures { IfOk result (λ text. string_bytes text ≡ shown units.now) }
{
    let mut text = String::new(alloc);
    push_units(&mut text, units)?;
    if is_open(units) {
        text.push_str("\n")?;
    }
    Ok(text)
}

fn is_open(units: &[u16]) -> bool
    ensures { result ≡ is_open units.now }
{
    match units.last() {
        Some(unit) => *unit != 10,
        None => false,
    }
}

/// Appends the characters that units spell, `?` for a surrogate that has no partner.
fn push_units(text: &mut String, units: &[u16]) -> M<()>
    ensures { OnOk result (string_bytes text.new ≡ string_bytes text.old ++ in_utf8 units.now) }
{
    let mut left = units;
    while let [unit, behind @ ..] = left {
        let (character, rest) = next_shown(*unit, behind);
        text.push(character)?;
        left = rest;
    }
    Ok(())
}

/// The first character of units, and the units behind it.
fn next_shown<'a>(unit: u16, behind: &'a [u16]) -> (char, &'a [u16])
    ensures shown { in_utf8 (unit ∷ behind.now) ≡ encode_utf8 result.0 ++ in_utf8 result.1.now }
    ensures shorter { length result.1.now ≤ length behind.now }
{
    match pair_in(unit, behind) {
        Some(character) => (character, &behind[1..]),
        None => (alone(unit), behind),
    }
}

/// The character of a pair of surrogates, if a unit is the first of one and the next is the second.
fn pair_in(unit: u16, behind: &[u16]) -> Option<char>
    ensures is { result ≡ pair_in unit behind.now }
    ensures behind { IfSome result (λ c. 1 ≤ length behind.now) }
{
    match behind {
        [low, ..] => pair(u32::from(unit), u32::from(*low)),
        [] => None,
    }
}

fn pair(high: u32, low: u32) -> Option<char>
    ensures { result ≡ pair high low }
{
    if 0xD800 <= high && high < 0xDC00 && 0xDC00 <= low && low < 0xE000 {
        char::from_u32(0x1_0000 + (high - 0xD800) * 0x400 + (low - 0xDC00))
    } else {
        None
    }
}

/// The character of a unit that is in no pair.
fn alone(unit: u16) -> char
    ensures { result ≡ unwrap_or (lone_unit_char unit) 63 }
{
    if 0xD800 <= unit && unit < 0xE000 {
        return '?';
    }
    char::from_u32(u32::from(unit)).unwrap_or('?')
}

// ---- how the run has ended

/// The line of a run's end.
fn end_line(alloc: Global, end: &End) -> M<String>
    ensures { IfOk result (λ line. string_bytes line ≡ end_line end.now) }
{
    let mut line = String::from_str(alloc, "end ")?;
    push_how(alloc, &mut line, end)?;
    line.push_str("\n")?;
    Ok(line)
}

fn push_how(alloc: Global, line: &mut String, end: &End) -> M<()>
    ensures { OnOk result (string_bytes line.new ≡ string_bytes line.old ++ how end.now) }
{
    match end {
        End::Running => line.push_str("running")?,
        End::Returned(value) => push_returned(alloc, line, value)?,
        End::Threw { class, .. } => push_thrown(alloc, line, class)?,
        End::Wrong => line.push_str("wrong")?,
    }
    Ok(())
}

fn push_returned(alloc: Global, line: &mut String, value: &Back) -> M<()>
    ensures { OnOk result (string_bytes line.new ≡ string_bytes line.old ++ (codes "returned" ++ back_text value.now)) }
{
    line.push_str("returned")?;
    match value {
        Back::Nothing => {}
        Back::Int(number) => line.push_str(format!(in alloc; " {number}")?.as_str())?,
        Back::Long(number) => line.push_str(format!(in alloc; " {number}")?.as_str())?,
        Back::Null => line.push_str(" null")?,
        Back::Ref(_) | Back::Lit(_) => line.push_str(" ref")?,
    }
    Ok(())
}

fn push_thrown(alloc: Global, line: &mut String, class: &Name) -> M<()>
    ensures { OnOk result (string_bytes line.new ≡ string_bytes line.old ++ (codes "threw " ++ dotted class.now)) }
{
    line.push_str("threw ")?;
    line.push_str(name_text(alloc, class)?.as_str())?;
    Ok(())
}
