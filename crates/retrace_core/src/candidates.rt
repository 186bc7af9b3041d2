// The old names that the method of a frame may have had.
ghost use Rattle.std.specs.Prelude.{◌≡◌, ◌≤◌, ◌+◌, ◌-◌, ◌*◌, IfOk, map, min};
ghost use Rattle.std.specs.List.{filter, fold};
ghost use Rattle.retrace_core.specs.Frames.{line_of};
ghost use Rattle.retrace_core.specs.OldNames.{fitting, may_have, old_names, once};

use crate::tables::OldMethods;
use jv_base::{Items, M, Name};
use key_table::KeySet;
use mapping_file::{MapMethod, Range};
use std::alloc::Global;

/// The old names that a method with a new name may have had at a line, each once: with a line those of methods that may
/// have it, where there are such.
pub(crate) fn old_names(
    alloc: Global,
    methods: &OldMethods<'_>,
    name: &[u8],
    line: Option<u32>,
) -> M<Items<Name>>
    ensures { IfOk result (λ names. names ≡ old_names methods.now name.now line) }
{
    let candidates = methods.candidates(alloc, name)?;
    let fitting = fitting(alloc, candidates, line)?;
    each_once(alloc, fitting.as_slice())
}

/// Those that may have a line, where there are such.
fn fitting<'a>(
    alloc: Global,
    methods: Vec<&'a MapMethod>,
    line: Option<u32>,
) -> M<Vec<&'a MapMethod>>
    ensures { IfOk result (λ found. map (λ m. m.now) found.items ≡ fitting line (map (λ m. m.now) methods.entry.items)) }
{
    let Some(line) = line else {
        return Ok(methods);
    };
    let found = at_line(alloc, methods.as_slice(), line)?;
    if found.is_empty() {
        Ok(methods)
    } else {
        Ok(found)
    }
}

/// Those that may have a line.
fn at_line<'a>(alloc: Global, methods: &[&'a MapMethod], line: u32) -> M<Vec<&'a MapMethod>>
    ensures { IfOk result (λ found. map (λ m. m.now) found.items
        ≡ filter (λ m. may_have line m.lines) (map (λ m. m.now) methods.now)) }
{
    let mut found = Vec::new(alloc);
    for method in methods {
        if may_have(line, &method.lines) {
            found.push(*method)?;
        }
    }
    Ok(found)
}

/// Whether a method may have a line: its range holds it, or it has none.
fn may_have(line: u32, lines: &Option<Range>) -> bool
    ensures { result ≡ may_have line lines.now }
{
    match lines {
        Some(range) => u32::from(range.first) <= line && line <= u32::from(range.last),
        None => true,
    }
}

/// The old names of methods, each once.
fn each_once(alloc: Global, methods: &[&MapMethod]) -> M<Items<Name>>
    ensures { IfOk result (λ names. names ≡ once (map (λ m. m.now.old) methods.now)) }
{
    let mut seen = KeySet::new(alloc);
    let mut names = Items::new(alloc);
    for method in methods {
        if seen.insert(method.old.clone()?)? {
            names.push(method.old.clone()?)?;
        }
    }
    Ok(names)
}

/// The line behind the colon of a frame's number, if it has one; it is counted up to 65,536, which no range holds.
pub(crate) fn line_of(number: &[u8]) -> Option<u32>
    ensures { result ≡ line_of number.now }
{
    match number {
        [_, digits @ ..] => Some(counted(digits)),
        _ => None,
    }
}

fn counted(digits: &[u8]) -> u32
    ensures is { result ≡ fold (λ n b. min 65536 (10 * n + (b - 48))) 0 digits.now }
    ensures small { result ≤ 65536 }
{
    let mut line = 0u32;
    for digit in digits {
        line = (10 * line + u32::from(digit.saturating_sub(b'0'))).min(65_536);
    }
    line
}
