// What is kept by rules (ProGuard manual, "Keep Options").
ghost use Rattle.std.specs.Prelude.{◌≡◌, ℕ, ◌+◌, ◌<◌, ◌&&◌, ◌∷◌, ◌++◌, IfOk, OnOk, Some, length, slice_get, true};
ghost use Rattle.std.specs.Prelude.{[], IfSome, false, replicate};
ghost use Rattle.report_text.specs.Spelled.{class_text};
ghost use Rattle.std.specs.List.{All, flat_map};
ghost use Rattle.class_model.specs.declared.class.Class.{Class};
ghost use Rattle.class_pool.specs.Count.{item_count, items_of};
ghost use Rattle.keep_match.specs.bodies.Above.{AreKnown};
ghost use Rattle.keep_match.specs.Filters.{accepts};
ghost use Rattle.keep_match.specs.bodies.Marks.{AreAdded, AreLiteral, AreMarked, AreNames, AreRows, HasRows, IsNamed};
ghost use Rattle.keep_match.specs.bodies.Marks.{IsPut, members_kept, or_each};
ghost use Rattle.keep_match.specs.bodies.Tables.{IsTable};
ghost use Rattle.keep_match.specs.Matches.{matches_but_name, matches_class_name};
ghost use Rattle.keep_match.specs.Seeds.{are_members_met, keeps_classes, places_of_true, seeds_of};

use crate::above::known_above;
use crate::class_spec::matches_but_name;
use crate::filter::accepts_class;
use crate::member_table::{MemberTable, member_table};
use crate::named::{are_literal, names_of, number_of};
use crate::rows::{are_members_met, mark_row};
use class_model::Class;
use class_pool::ClassSet;
use jv_base::{Items, M, Text};
use keep_rules::{Keep, KeepKind, MemberSpec, Rules};
use key_table::KeySet;
use std::alloc::Global;
use std::mem::replace;

/// The items that rules keep, ascending and each once: each class in the order of the set is an item, then its fields,
/// then its methods. A rule with allowshrinking keeps nothing, nor does one on members alone; `-dontshrink` isn't
/// looked at.
///
/// A rule whose class names have no wildcards looks its classes up; another one goes over all classes.
pub fn seeds_of(alloc: Global, rules: &Rules, set: &ClassSet) -> M<Items<u32>>
    ensures is { IfOk result (λ seeds. seeds ≡ seeds_of rules.now set.now) }
    ensures below { IfOk result (All (λ x. x < item_count set.now)) }
{
    set.few_items();
    let rows = rows_of(alloc, rules.keeps.as_slice(), set)?;
    places_of(alloc, rows.as_slice())
}

/// For each class the marks of itself and its members, by all rules.
pub(crate) fn rows_of(alloc: Global, keeps: &[Keep], set: &ClassSet) -> M<Vec<Items<bool>>>
    ensures { IfOk result (λ rows. HasRows set.now keeps.now rows.items) }
{
    let names = names_of(alloc, set)?;
    let mut rows = unmarked(alloc, set)?;
    mark_all(alloc, keeps, set, &names, &mut rows)?;
    Ok(rows)
}

/// Marks what rules keep, where nothing is marked.
fn mark_all(
    alloc: Global,
    keeps: &[Keep],
    set: &ClassSet,
    names: &Option<KeySet<Text>>,
    rows: &mut Vec<Items<bool>>,
) -> M<()>
    requires rows { HasRows set.now [] rows.old.items }
    requires names { IfSome names.now (λ known. AreNames set.now (length set.now) known) }
    ensures { OnOk result (HasRows set.now keeps.now rows.new.items) }
{
    for keep in keeps {
        mark_rows(alloc, keep, set, names, rows)?;
    }
    Ok(())
}

/// For each class the marks of itself and its members, where nothing is kept.
fn unmarked(alloc: Global, set: &ClassSet) -> M<Vec<Items<bool>>>
    ensures { IfOk result (λ rows. HasRows set.now [] rows.items) }
{
    let mut rows = Vec::new(alloc);
    for number in 0..set.len() {
        rows.push(unmarked_row(alloc, set.class(number))?)?;
    }
    Ok(rows)
}

fn unmarked_row(alloc: Global, class: &Class) -> M<Items<bool>>
    requires { length class.now.fields + length class.now.methods < 4294967295 }
    ensures { IfOk result (λ row. row ≡ replicate (items_of class.now) false) }
{
    let count = 1 + class.fields.len() + class.methods.len();
    let marks = vec![in alloc; false; count]?;
    Ok(Items::from_vec(marks))
}

/// Whether a rule keeps classes: it is no rule on members alone, and none by which what matches may be dropped.
fn keeps_classes(keep: &Keep) -> bool
    ensures { result ≡ keeps_classes keep.now }
{
    !keep.allow_shrinking
        && match keep.kind {
            KeepKind::Keep | KeepKind::WithMembers => true,
            KeepKind::Members => false,
        }
}

/// Marks what one more rule keeps.
fn mark_rows(
    alloc: Global,
    keep: &Keep,
    set: &ClassSet,
    names: &Option<KeySet<Text>>,
    rows: &mut Vec<Items<bool>>,
) -> M<()>
    requires rows { AreRows set.now rows.old.items }
    requires names { IfSome names.now (λ known. AreNames set.now (length set.now) known) }
    ensures { OnOk result (AreMarked set.now keep.now rows.old.items rows.new.items) }
{
    if !keeps_classes(keep) {
        return Ok(());
    }
    let above = known_above(alloc, &keep.spec, set)?;
    let table = member_table(alloc, &keep.spec.members)?;
    mark_kept(alloc, keep, set, above.as_slice(), &table, names, rows);
    Ok(())
}

/// The same of a rule that keeps classes, by what is known of the names above classes.
fn mark_kept(
    alloc: Global,
    keep: &Keep,
    set: &ClassSet,
    above: &[Option<bool>],
    table: &MemberTable,
    names: &Option<KeySet<Text>>,
    rows: &mut Vec<Items<bool>>,
)
    requires above { AreKnown keep.now.spec.above set.now above.now }
    requires table { IsTable keep.now.spec.members table.now }
    requires rows { AreRows set.now rows.old.items }
    requires names { IfSome names.now (λ known. AreNames set.now (length set.now) known) }
    requires keeps { keeps_classes keep.now ≡ true }
    ensures { AreMarked set.now keep.now rows.old.items rows.new.items }
{
    match names {
        Some(names) if are_literal(keep.spec.names.as_slice()) => {
            mark_named(alloc, keep, set, above, table, names, rows)
        }
        _ => mark_each(alloc, keep, set, above, table, rows),
    }
}

/// Marks what a rule keeps of the classes that it names, found by their names.
fn mark_named(
    alloc: Global,
    keep: &Keep,
    set: &ClassSet,
    above: &[Option<bool>],
    table: &MemberTable,
    names: &KeySet<Text>,
    rows: &mut Vec<Items<bool>>,
)
    requires above { AreKnown keep.now.spec.above set.now above.now }
    requires table { IsTable keep.now.spec.members table.now }
    requires rows { AreRows set.now rows.old.items }
    requires keeps { keeps_classes keep.now ≡ true }
    requires literal { AreLiteral (length keep.now.spec.names) keep.now.spec.names }
    requires names { AreNames set.now (length set.now) names.now }
    ensures { AreMarked set.now keep.now rows.old.items rows.new.items }
{
    for filter in keep.spec.names.as_slice() {
        mark_pattern(alloc, keep, set, above, table, names, &filter.pattern, rows);
    }
}

/// Marks what a rule keeps of the class that one of its patterns names.
fn mark_pattern(
    alloc: Global,
    keep: &Keep,
    set: &ClassSet,
    above: &[Option<bool>],
    table: &MemberTable,
    names: &KeySet<Text>,
    pattern: &Text,
    rows: &mut Vec<Items<bool>>,
)
    requires above { AreKnown keep.now.spec.above set.now above.now }
    requires table { IsTable keep.now.spec.members table.now }
    requires rows { AreRows set.now rows.old.items }
    requires keeps { keeps_classes keep.now ≡ true }
    requires names { AreNames set.now (length set.now) names.now }
    requires accepted { (n : ℕ) (c : Class) → slice_get set.now n ≡ Some c → class_text c ≡ pattern.now
        → accepts (λ p. matches_class_name p c.name) keep.now.spec.names ≡ true }
    ensures { AreAdded set.now keep.now rows.old.items rows.new.items (IsNamed set.now pattern.now) }
{
    let Some(number) = number_of(names, set, pattern) else {
        return;
    };
    mark_class(alloc, keep, set, above, table, number, rows);
}

/// Marks what a rule keeps of all classes.
fn mark_each(
    alloc: Global,
    keep: &Keep,
    set: &ClassSet,
    above: &[Option<bool>],
    table: &MemberTable,
    rows: &mut Vec<Items<bool>>,
)
    requires above { AreKnown keep.now.spec.above set.now above.now }
    requires table { IsTable keep.now.spec.members table.now }
    requires rows { AreRows set.now rows.old.items }
    requires keeps { keeps_classes keep.now ≡ true }
    ensures { AreMarked set.now keep.now rows.old.items rows.new.items }
{
    for number in 0..set.len() {
        mark_number(alloc, keep, set, above, table, number, rows);
    }
}

/// Marks what a rule keeps of the class of a number.
fn mark_number(
    alloc: Global,
    keep: &Keep,
    set: &ClassSet,
    above: &[Option<bool>],
    table: &MemberTable,
    number: u32,
    rows: &mut Vec<Items<bool>>,
)
    requires there { number < length set.now }
    requires above { AreKnown keep.now.spec.above set.now above.now }
    requires table { IsTable keep.now.spec.members table.now }
    requires rows { AreRows set.now rows.old.items }
    requires keeps { keeps_classes keep.now ≡ true }
    ensures { AreAdded set.now keep.now rows.old.items rows.new.items (λ n. n ≡ number) }
{
    let name = set.class(number).name.as_str();
    if !accepts_class(keep.spec.names.as_slice(), name) {
        return;
    }
    mark_class(alloc, keep, set, above, table, number, rows);
}

/// Marks what a rule keeps of a class whose name it matches.
fn mark_class(
    alloc: Global,
    keep: &Keep,
    set: &ClassSet,
    above: &[Option<bool>],
    table: &MemberTable,
    number: u32,
    rows: &mut Vec<Items<bool>>,
)
    requires there { number < length set.now }
    requires above { AreKnown keep.now.spec.above set.now above.now }
    requires table { IsTable keep.now.spec.members table.now }
    requires rows { AreRows set.now rows.old.items }
    requires keeps { keeps_classes keep.now ≡ true }
    requires named { (c : Class) → slice_get set.now number ≡ Some c
        → accepts (λ pattern. matches_class_name pattern c.name) keep.now.spec.names ≡ true }
    ensures { IsPut set.now keep.now rows.old.items rows.new.items number }
{
    let class = set.class(number);
    if !is_kept(keep, set, above, number, class) {
        return;
    }
    let members = keep.spec.members.as_slice();
    mark_items(alloc, table, members, class, &mut rows[number as usize]);
}

/// Whether a rule keeps a class whose name it matches.
fn is_kept(keep: &Keep, set: &ClassSet, above: &[Option<bool>], number: u32, class: &Class) -> bool
    requires there { number < length set.now }
    requires above { AreKnown keep.now.spec.above set.now above.now }
    requires few { length class.now.fields + length class.now.methods < 4294967295 }
    ensures { result ≡ (matches_but_name keep.now.spec set.now number class.now
        && are_members_met keep.now.kind keep.now.spec.members class.now) }
{
    matches_but_name(&keep.spec, set, above, number, class)
        && are_members_met(keep.kind, keep.spec.members.as_slice(), class)
}

/// Marks a class, and each member that one of the specifications matches. No memory is taken.
fn mark_items(
    alloc: Global,
    table: &MemberTable,
    specs: &[MemberSpec],
    class: &Class,
    row: &mut Items<bool>,
)
    requires table { IsTable specs.now table.now }
    requires few { length class.now.fields + length class.now.methods < 4294967295 }
    requires width { length row.old ≡ items_of class.now }
    ensures { row.new ≡ or_each row.old (true ∷ members_kept specs.now class.now) }
{
    let mut marks = replace(row, Items::new(alloc)).into_vec();
    mark_row(table, specs, class, &mut marks);
    *row = Items::from_vec(marks);
}

/// The items that are marked.
fn places_of(alloc: Global, rows: &[Items<bool>]) -> M<Items<u32>>
    requires { length (flat_map (λ row. row) rows.now) < 4294967295 }
    ensures { IfOk result (λ items. items ≡ places_of_true 0 (flat_map (λ row. row) rows.now)) }
{
    let mut items = Items::new(alloc);
    let mut next = 0;
    for row in rows {
        push_places(&mut items, next, row.as_slice())?;
        next += row.len() as u32;
    }
    Ok(items)
}

/// Appends the places of a list that have true, counted from `next`.
pub(crate) fn push_places(items: &mut Items<u32>, next: u32, row: &[bool]) -> M<()>
    requires { next + length row.now < 4294967296 }
    ensures { OnOk result (items.new ≡ items.old ++ places_of_true next row.now) }
{
    for (place, is_marked) in row.iter().enumerate() {
        if *is_marked {
            items.push(next + place as u32)?;
        }
    }
    Ok(())
}
