// Tables of names: of several lines with one old name the first counts.
//
// Each table is filled from the last line to the first, so that the first line stays.
ghost use Rattle.std.specs.Prelude.{◌≡◌, ℕ, List, [], ◌++◌, if◌then◌else◌, IfOk, OnOk, Some};
ghost use Rattle.std.specs.Map.{lookup};
ghost use Rattle.std.specs.Option.{option_map};
ghost use Rattle.jv_base.specs.Names.{is_text};
ghost use Rattle.new_names.specs.NewNames.{NameAndType, all_field_names, all_method_names, class_names, field_names};
ghost use Rattle.new_names.specs.NewNames.{method_lines};
ghost use Rattle.new_names.specs.bodies.Tables.{TellsClasses, TellsMembers, TellsNames};

use crate::members::{MemberTable, put_methods};
use jv_base::{M, Name};
use key_table::Table;
use mapping_file::{MapClass, MapField};
use std::alloc::Global;

/// New names by old ones.
pub(crate) type NameTable = Table<Name, Name>;

/// Lines of classes by their old names.
pub(crate) type ClassTable<'a> = Table<Name, &'a MapClass>;

/// The lines of classes.
pub(crate) fn classes_of<'a>(alloc: Global, lines: &'a [MapClass]) -> M<ClassTable<'a>>
    ensures { IfOk result (λ table. TellsClasses table lines.now) }
{
    let mut table = Table::new(alloc);
    let mut left = lines.len();
    while left > 0 {
        left -= 1;
        put_class(&mut table, &lines[left])?;
    }
    Ok(table)
}

fn put_class<'a>(table: &mut ClassTable<'a>, line: &'a MapClass) -> M<()>
    ensures { OnOk result ((name : List ℕ) → option_map (λ l. l.now) (lookup (is_text name) table.new)
        ≡ (if is_text line.entry.now.old name then Some line.entry.now
        else option_map (λ l. l.now) (lookup (is_text name) table.old))) }
{
    let old = line.old.clone()?;
    put_line(table, old, line)
}

fn put_line<'a>(table: &mut ClassTable<'a>, old: Name, line: &'a MapClass) -> M<()>
    ensures { OnOk result ((name : List ℕ) → option_map (λ l. l.now) (lookup (is_text name) table.new)
        ≡ (if is_text old name then Some line.entry.now
        else option_map (λ l. l.now) (lookup (is_text name) table.old))) }
{
    table.insert(old, line)
}

/// The new names of the fields of all classes.
pub(crate) fn fields_of(alloc: Global, lines: &[MapClass]) -> M<NameTable>
    ensures { IfOk result (λ table. TellsNames table (all_field_names lines.now)) }
{
    let mut table = Table::new(alloc);
    let mut left = lines.len();
    while left > 0 {
        left -= 1;
        put_fields_of(&mut table, &lines[left])?;
    }
    Ok(table)
}

fn put_fields_of(table: &mut NameTable, line: &MapClass) -> M<()>
    ensures { (rest : List (List ℕ × List ℕ)) → TellsNames table.old rest
        → OnOk result (TellsNames table.new (field_names line.now.fields ++ rest)) }
{
    put_fields(table, line.fields.as_slice())
}

fn put_fields(table: &mut NameTable, lines: &[MapField]) -> M<()>
    ensures { (rest : List (List ℕ × List ℕ)) → TellsNames table.old rest
        → OnOk result (TellsNames table.new (field_names lines.now ++ rest)) }
{
    let mut left = lines.len();
    while left > 0 {
        left -= 1;
        put_field(table, &lines[left])?;
    }
    Ok(())
}

fn put_field(table: &mut NameTable, line: &MapField) -> M<()>
    ensures { OnOk result ((name : List ℕ) → lookup (is_text name) table.new
        ≡ (if is_text line.now.old name then Some line.now.new else lookup (is_text name) table.old)) }
{
    put_name(table, &line.old, &line.new)
}

/// The new names of the methods of all classes, by their names and descriptors.
pub(crate) fn methods_of(alloc: Global, lines: &[MapClass]) -> M<MemberTable>
    ensures { IfOk result (λ table. TellsMembers table (all_method_names lines.now)) }
{
    let mut table = Table::new(alloc);
    let mut left = lines.len();
    while left > 0 {
        left -= 1;
        put_methods_of(alloc, &mut table, &lines[left])?;
    }
    Ok(table)
}

fn put_methods_of(alloc: Global, table: &mut MemberTable, line: &MapClass) -> M<()>
    ensures { (rest : List (NameAndType × List ℕ)) → TellsMembers table.old rest
        → OnOk result (TellsMembers table.new (method_lines line.now.methods ++ rest)) }
{
    put_methods(alloc, table, line.methods.as_slice())
}

/// The new names of classes.
pub(crate) fn class_names_of(alloc: Global, lines: &[MapClass]) -> M<NameTable>
    ensures { IfOk result (λ table. TellsNames table (class_names lines.now)) }
{
    let mut table = Table::new(alloc);
    let mut left = lines.len();
    while left > 0 {
        left -= 1;
        put_class_name(&mut table, &lines[left])?;
    }
    Ok(table)
}

fn put_class_name(table: &mut NameTable, line: &MapClass) -> M<()>
    ensures { OnOk result ((name : List ℕ) → lookup (is_text name) table.new
        ≡ (if is_text line.now.old name then Some line.now.new else lookup (is_text name) table.old)) }
{
    put_name(table, &line.old, &line.new)
}

fn put_name(table: &mut NameTable, old: &Name, new: &Name) -> M<()>
    ensures { OnOk result ((name : List ℕ) → lookup (is_text name) table.new
        ≡ (if is_text old.now name then Some new.now else lookup (is_text name) table.old)) }
{
    table.insert(old.clone()?, new.clone()?)
}
