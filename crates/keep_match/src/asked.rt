// What rules on members alone ask for (ProGuard manual, "-keepclassmembers").
ghost use Rattle.std.specs.Prelude.{◌≡◌, ◌<◌, IfOk, drop, length, map};
ghost use Rattle.std.specs.List.{flat_map};
ghost use Rattle.keep_match.specs.Asked.{members_asked};
ghost use Rattle.keep_match.specs.Seeds.{places_of_true};

use crate::as_keeps::as_keeps;
use crate::seeds::{push_places, rows_of};
use class_pool::ClassSet;
use jv_base::{Items, M};
use keep_rules::Rules;
use std::alloc::Global;

/// For each class of a set the numbers of those of its members that rules on members alone ask for, ascending and each
/// once; its fields are numbered from 0, and its methods behind them. A rule with allowshrinking asks for nothing.
///
/// A rule whose class names have no wildcards looks its classes up; another one goes over all classes.
pub fn members_asked(alloc: Global, rules: &Rules, set: &ClassSet) -> M<Items<Items<u32>>>
    ensures { IfOk result (λ members. members ≡ members_asked rules.now set.now) }
{
    set.few_items();
    let keeps = as_keeps(alloc, rules.keeps.as_slice())?;
    let rows = rows_of(alloc, keeps.as_slice(), set)?;
    members_of(alloc, rows.as_slice())
}

/// The members that are marked in each row, behind the class itself.
fn members_of(alloc: Global, rows: &[Items<bool>]) -> M<Items<Items<u32>>>
    requires { length (flat_map (λ row. row) rows.now) < 4294967295 }
    ensures { IfOk result (λ members. members ≡ map (λ row. places_of_true 0 (drop 1 row)) rows.now) }
{
    let mut members = Items::new(alloc);
    for row in rows {
        members.push(members_in(alloc, row.as_slice())?)?;
    }
    Ok(members)
}

fn members_in(alloc: Global, row: &[bool]) -> M<Items<u32>>
    requires { length row.now < 4294967296 }
    ensures { IfOk result (λ members. members ≡ places_of_true 0 (drop 1 row.now)) }
{
    let mut members = Items::new(alloc);
    if let Some((_, of_members)) = row.split_first() {
        push_places(&mut members, 0, of_members)?;
    }
    Ok(members)
}
