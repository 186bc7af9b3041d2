// The methods that may override others and have the name and descriptor of a private one, which may be nearer.
ghost use Rattle.std.specs.Prelude.{◌≡◌, [], IfOk, OnOk, ◌++◌, map};
ghost use Rattle.std.specs.List.{cons_option, filter_map};
ghost use Rattle.override_pairs.specs.bodies.Free.{HasFree, free_row, is_free};

use jv_base::{Items, M};
use method_places::{InstanceMethod, Methods, Openness, is_overriding};
use std::alloc::Global;

/// The methods that may override others and have such a number.
#[derive(Drop)]
pub(crate) struct Free {
    /// For each number whether a private method has it; only speed rests on it.
    pub hidden: Vec<bool>,
    /// Those of each class.
    pub rows: Items<Items<InstanceMethod>>,
}

impl Free {
    pub fn of(alloc: Global, methods: &Methods) -> M<Self>
        ensures { IfOk result (HasFree methods.now.of_classes) }
    {
        let table = methods.of_classes.as_slice();
        let hidden = hidden_of(alloc, table, methods.highest)?;
        let rows = free_of(alloc, hidden.as_slice(), table)?;
        Ok(Free { hidden, rows })
    }
}

/// For each number whether a private method has it.
fn hidden_of(alloc: Global, table: &[Items<InstanceMethod>], highest: usize) -> M<Vec<bool>> {
    let mut hidden = vec![in alloc; false; highest.saturating_add(1)]?;
    for rows in table {
        hide(&mut hidden, rows.as_slice());
    }
    Ok(hidden)
}

fn hide(hidden: &mut Vec<bool>, rows: &[InstanceMethod]) {
    for row in rows {
        if matches!(row.openness, Openness::Private) && row.number < hidden.len() {
            hidden[row.number] = true;
        }
    }
}

fn free_of(
    alloc: Global,
    hidden: &[bool],
    table: &[Items<InstanceMethod>],
) -> M<Items<Items<InstanceMethod>>>
    ensures { IfOk result (λ lists. lists ≡ map (filter_map (free_row hidden.now)) table.now) }
{
    let mut lists = Items::with_capacity(alloc, table.len())?;
    for rows in table {
        lists.push(free_rows(alloc, hidden, rows.as_slice())?)?;
    }
    Ok(lists)
}

fn free_rows(alloc: Global, hidden: &[bool], rows: &[InstanceMethod]) -> M<Items<InstanceMethod>>
    ensures { IfOk result (λ free. free ≡ filter_map (free_row hidden.now) rows.now) }
{
    let mut free = Items::new(alloc);
    for row in rows {
        add_free(&mut free, hidden, row)?;
    }
    Ok(free)
}

fn add_free(free: &mut Items<InstanceMethod>, hidden: &[bool], row: &InstanceMethod) -> M<()>
    ensures { OnOk result (free.new ≡ free.old ++ cons_option (free_row hidden.now row.now) []) }
{
    if is_free(hidden, row) {
        free.push(*row)?;
    }
    Ok(())
}

/// Whether a method may override others, and a private one has its number.
fn is_free(hidden: &[bool], row: &InstanceMethod) -> bool
    ensures { result ≡ is_free hidden.now row.now }
{
    is_overriding(row) && row.number < hidden.len() && hidden[row.number]
}
