// Tables of the members of one class.
ghost use Rattle.std.specs.Prelude.{◌≡◌, ℕ, List, ◌++◌, if◌then◌else◌, IfOk, OnOk, Some};
ghost use Rattle.std.specs.Map.{lookup};
ghost use Rattle.jv_base.specs.Types as descriptor;
ghost use Rattle.new_names.specs.NewNames.{NameAndType, field_lines, is_same, method_lines};
ghost use Rattle.new_names.specs.bodies.Tables.{TellsMembers};

use jv_base::{M, Name, Text, field_text, method_text};
use key_table::Table;
use mapping_file::{MapField, MapMethod};
use std::alloc::Global;

/// New names by old ones with descriptors.
pub(crate) type MemberTable = Table<(Name, Text), Name>;

/// The new names of fields.
pub(crate) fn fields_in(alloc: Global, lines: &[MapField]) -> M<MemberTable>
    ensures { IfOk result (λ table. TellsMembers table (field_lines lines.now)) }
{
    let mut table = Table::new(alloc);
    let mut left = lines.len();
    while left > 0 {
        left -= 1;
        put_field(alloc, &mut table, &lines[left])?;
    }
    Ok(table)
}

fn put_field(alloc: Global, table: &mut MemberTable, line: &MapField) -> M<()>
    ensures { OnOk result ((key : NameAndType) → lookup (is_same key) table.new
        ≡ (if is_same (line.now.old, descriptor.field_text line.now.ty) key then Some line.now.new
        else lookup (is_same key) table.old)) }
{
    put_member(table, &line.old, field_text(alloc, &line.ty)?, &line.new)
}

/// The new names of methods.
pub(crate) fn methods_in(alloc: Global, lines: &[MapMethod]) -> M<MemberTable>
    ensures { IfOk result (λ table. TellsMembers table (method_lines lines.now)) }
{
    let mut table = Table::new(alloc);
    put_methods(alloc, &mut table, lines)?;
    Ok(table)
}

/// Puts the new names of methods before those that there are.
pub(crate) fn put_methods(alloc: Global, table: &mut MemberTable, lines: &[MapMethod]) -> M<()>
    ensures { (rest : List (NameAndType × List ℕ)) → TellsMembers table.old rest
        → OnOk result (TellsMembers table.new (method_lines lines.now ++ rest)) }
{
    let mut left = lines.len();
    while left > 0 {
        left -= 1;
        put_method(alloc, table, &lines[left])?;
    }
    Ok(())
}

fn put_method(alloc: Global, table: &mut MemberTable, line: &MapMethod) -> M<()>
    ensures { OnOk result ((key : NameAndType) → lookup (is_same key) table.new
        ≡ (if is_same (line.now.old, descriptor.method_text line.now.ty) key then Some line.now.new
        else lookup (is_same key) table.old)) }
{
    put_member(table, &line.old, method_text(alloc, &line.ty)?, &line.new)
}

fn put_member(table: &mut MemberTable, old: &Name, ty: Text, new: &Name) -> M<()>
    ensures { OnOk result ((key : NameAndType) → lookup (is_same key) table.new
        ≡ (if is_same (old.now, ty) key then Some new.now else lookup (is_same key) table.old)) }
{
    let key = (old.clone()?, ty);
    table.insert(key, new.clone()?)
}
