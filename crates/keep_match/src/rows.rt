// The marks of a class and its members.
ghost use Rattle.std.specs.Prelude.{◌≡◌, ◌+◌, ◌<◌, ◌∷◌, Some, length, slice_get, slice_set, true};
ghost use Rattle.std.specs.Prelude.{if◌then◌else◌};
ghost use Rattle.std.specs.List.{list_all};
ghost use Rattle.class_pool.specs.Count.{items_of};
ghost use Rattle.keep_match.specs.bodies.Marks.{members_kept, or_each};
ghost use Rattle.keep_match.specs.Matches.{members_matched};
ghost use Rattle.keep_match.specs.bodies.Tables.{IsTable};
ghost use Rattle.keep_match.specs.Seeds.{are_members_met, has_match};

use crate::member_spec::matches_member;
use crate::member_table::{MemberTable, is_field_kept, is_method_kept};
use class_model::Class;
use keep_rules::{KeepKind, MemberSpec};

/// Marks a class, and each member that one of the specifications matches.
pub(crate) fn mark_row(
    table: &MemberTable,
    specs: &[MemberSpec],
    class: &Class,
    row: &mut Vec<bool>,
)
    requires table { IsTable specs.now table.now }
    requires few { length class.now.fields + length class.now.methods < 4294967295 }
    requires width { length row.old.items ≡ items_of class.now }
    ensures { row.new.items ≡ or_each row.old.items (true ∷ members_kept specs.now class.now) }
{
    row[0] = true;
    for member in 0..class.fields.len() + class.methods.len() {
        let is_kept = is_member_kept(table, specs, class, member);
        mark_member(row, member, is_kept);
    }
}

fn mark_member(row: &mut Vec<bool>, member: usize, is_kept: bool)
    requires { 1 + member < length row.old.items }
    ensures { row.new.items ≡ (if is_kept then slice_set row.old.items (1 + member) true else row.old.items) }
{
    if is_kept {
        row[1 + member] = true;
    }
}

/// Whether one of the specifications matches the member of a number.
fn is_member_kept(table: &MemberTable, specs: &[MemberSpec], class: &Class, member: usize) -> bool
    requires table { IsTable specs.now table.now }
    requires member { member < length class.now.fields + length class.now.methods }
    ensures { slice_get (members_kept specs.now class.now) member ≡ Some result }
{
    let fields = class.fields.len();
    if member < fields {
        is_field_kept(table, specs, &class.fields[member])
    } else {
        is_method_kept(table, specs, &class.methods[member - fields])
    }
}

/// Whether a class has the members that a rule of this kind asks for.
pub(crate) fn are_members_met(kind: KeepKind, specs: &[MemberSpec], class: &Class) -> bool
    requires { length class.now.fields + length class.now.methods < 4294967295 }
    ensures { result ≡ are_members_met kind specs.now class.now }
{
    match kind {
        KeepKind::Keep | KeepKind::Members => true,
        KeepKind::WithMembers => has_matches(specs, class),
    }
}

fn has_matches(specs: &[MemberSpec], class: &Class) -> bool
    requires { length class.now.fields + length class.now.methods < 4294967295 }
    ensures { result ≡ list_all (has_match class.now) specs.now }
{
    for spec in specs {
        if !has_match(spec, class) {
            return false;
        }
    }
    true
}

/// Whether a specification matches some member of a class.
fn has_match(spec: &MemberSpec, class: &Class) -> bool
    requires { length class.now.fields + length class.now.methods < 4294967295 }
    ensures { result ≡ has_match class.now spec.now }
{
    for member in 0..class.fields.len() + class.methods.len() {
        if matches_member(spec, class, member as u32) {
            return true;
        }
    }
    false
}
