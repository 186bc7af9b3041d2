// The lines of codes of the output, and the ranges that a mapping tells.
ghost use Rattle.std.specs.Prelude.{◌≡◌, IfOk, Some};
ghost use Rattle.std.specs.List.{list_any};
ghost use Rattle.std.specs.Option.{option_copied};
ghost use Rattle.class_model.specs.declared.code.Ins.{Ins};
ghost use Rattle.new_names.specs.NewNames.{class_line};
ghost use Rattle.pair_clauses.specs.LineRanges.{class_range_fault, is_outside, leaves_range, range_fault};
ghost use Rattle.pair_clauses.specs.Members.{new_one};
ghost use Rattle.pair_clauses.specs.bodies.Ranges.{is_line_outside, leaves_at};
ghost use Rattle.rename_map.specs.MappingOf.{lines_of};

use crate::members::new_one;
use crate::place::{Place, method_place};
use class_model::{Class, Code, Ins, Method};
use class_pool::ClassSet;
use jv_base::M;
use mapping_file::{MapClass, Range};
use new_names::{ClassNames, NewNames, ranges_given};
use std::alloc::Global;

/// The first place of LineRange: the first method whose code in the output has a line outside the range that the mapping
/// tells of it.
pub fn range_fault(
    alloc: Global,
    names: &NewNames<'_>,
    input: &ClassSet,
    given: &[ClassNames],
    output: &ClassSet,
) -> M<Option<Place>>
    ensures { IfOk result (λ found. found ≡ range_fault names.now input.now given.now output.now) }
{
    for number in 0..input.len() {
        let Some(new) = given.get(number as usize) else {
            return Ok(None);
        };
        let found = class_range_fault(alloc, names, input.class(number), new, output)?;
        if found.is_some() {
            return Ok(found);
        }
    }
    Ok(None)
}

/// A class with its line, if it has one, and what it has become.
fn class_range_fault(
    alloc: Global,
    names: &NewNames<'_>,
    class: &Class,
    given: &ClassNames,
    output: &ClassSet,
) -> M<Option<Place>>
    ensures { IfOk result (λ found. found ≡ class_range_fault (class_line names.now class.now.name) class.now given.now
        (new_one output.now given.now)) }
{
    let Some(line) = names.class_line(&class.name) else {
        return Ok(None);
    };
    match new_one(output, given) {
        Some(out) => methods_fault(alloc, line, class, given, out),
        None => Ok(None),
    }
}

/// The first of its methods.
fn methods_fault(
    alloc: Global,
    line: &MapClass,
    class: &Class,
    given: &ClassNames,
    out: &Class,
) -> M<Option<Place>>
    ensures { IfOk result (λ found. found ≡ class_range_fault (Some line.now) class.now given.now (Some out.now)) }
{
    let ranges = ranges_given(alloc, line, class)?;
    let mut count = 0;
    for index in 0..class.methods.len() {
        let Some(name) = given.methods.get(index) else {
            return Ok(None);
        };
        let method = &class.methods[index];
        if name.is_some() {
            let range = ranges.get(index);
            let new = out.methods.get(count);
            if leaves_at(range, new) {
                let place = method_place(alloc, &class.name, &method.ty, &method.name)?;
                return Ok(Some(place));
            }
            count += 1;
        }
    }
    Ok(None)
}

/// Whether a method has a range, and has become one whose code has a line outside.
fn leaves_at(range: Option<&Option<Range>>, new: Option<&Method>) -> bool
    ensures { result ≡ leaves_at (option_copied range.entry) (option_copied new.entry) }
{
    match (range, new) {
        (Some(range), Some(new)) => leaves_range(range, &new.code),
        _ => false,
    }
}

fn leaves_range(range: &Option<Range>, code: &Option<Code>) -> bool
    ensures { result ≡ leaves_range range.now code.now }
{
    match (range, code) {
        (Some(range), Some(code)) => has_line_outside(*range, code),
        _ => false,
    }
}

fn has_line_outside(range: Range, code: &Code) -> bool
    ensures { result ≡ list_any (is_outside range) (lines_of code.now) }
{
    any_outside(range, code.ins.as_slice())
}

fn any_outside(range: Range, instructions: &[Ins]) -> bool
    ensures { result ≡ list_any (λ (i : Ins). is_line_outside range i.line) instructions.now }
{
    for instruction in instructions {
        if is_line_outside(range, instruction.line) {
            return true;
        }
    }
    false
}

fn is_line_outside(range: Range, line: Option<u16>) -> bool
    ensures { result ≡ is_line_outside range line }
{
    match line {
        Some(line) => line < range.first || range.last < line,
        None => false,
    }
}
