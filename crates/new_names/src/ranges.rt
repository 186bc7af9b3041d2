// The ranges of lines that a mapping tells of methods.
ghost use Rattle.std.specs.Prelude.{◌≡◌, if◌then◌else◌, IfOk, OnOk, Some, map};
ghost use Rattle.std.specs.Map.{lookup};
ghost use Rattle.std.specs.Option.{option_and_then};
ghost use Rattle.jv_base.specs.Types as descriptor;
ghost use Rattle.new_names.specs.NewNames.{NameAndType, is_same, range_in, range_lines};
ghost use Rattle.new_names.specs.bodies.Tables.{TellsRanges};

use class_model::{Class, Method};
use jv_base::{Items, M, Name, Text, method_text};
use key_table::Table;
use mapping_file::{MapClass, MapMethod, Range};
use std::alloc::Global;

/// Ranges of methods by their names and descriptors.
type RangeTable = Table<(Name, Text), Option<Range>>;

/// The ranges of the methods of a class by its line, in their order; none of what has no line or no range.
pub fn ranges_given(alloc: Global, line: &MapClass, class: &Class) -> M<Items<Option<Range>>>
    ensures { IfOk result (λ ranges. ranges ≡ map (range_in line.now) class.now.methods) }
{
    let table = ranges_of(alloc, line.methods.as_slice())?;
    let mut ranges = Items::new(alloc);
    for method in class.methods.as_slice() {
        ranges.push(range_of(alloc, &table, method)?)?;
    }
    Ok(ranges)
}

fn range_of(alloc: Global, table: &RangeTable, method: &Method) -> M<Option<Range>>
    ensures { IfOk result (λ range. range ≡ option_and_then (λ r. r)
        (lookup (is_same (method.now.name, descriptor.method_text method.now.ty)) table.now)) }
{
    let key = (method.name.clone()?, method_text(alloc, &method.ty)?);
    match table.get(&key) {
        Some(range) => Ok(*range),
        None => Ok(None),
    }
}

/// The ranges of methods; of several lines for one method the first counts, so the last is put first.
fn ranges_of(alloc: Global, lines: &[MapMethod]) -> M<RangeTable>
    ensures { IfOk result (λ table. TellsRanges table (range_lines lines.now)) }
{
    let mut table = Table::new(alloc);
    let mut left = lines.len();
    while left > 0 {
        left -= 1;
        put_range(alloc, &mut table, &lines[left])?;
    }
    Ok(table)
}

fn put_range(alloc: Global, table: &mut RangeTable, line: &MapMethod) -> M<()>
    ensures { OnOk result ((key : NameAndType) → lookup (is_same key) table.new
        ≡ (if is_same (line.now.old, descriptor.method_text line.now.ty) key then Some line.now.lines
        else lookup (is_same key) table.old)) }
{
    let key = (line.old.clone()?, method_text(alloc, &line.ty)?);
    table.insert(key, line.lines)
}
