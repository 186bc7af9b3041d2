// The entries of a witness by the methods that they name.
ghost use Rattle.std.specs.Prelude.{◌≡◌, if◌then◌else◌, IfOk, OnOk, Some};
ghost use Rattle.std.specs.Map.{lookup};
ghost use Rattle.std.specs.Option.{option_map};
ghost use Rattle.pair_edits.specs.Entries.{entry_of};
ghost use Rattle.pair_edits.specs.bodies.Tables.{MethodKey, TellsEntries, is_same, key_of};

use class_model::{Class, Method};
use jv_base::{M, Name, Text, method_text};
use key_table::Table;
use std::alloc::Global;
use std::marker::Model;
use witness_file::{MethodWitness, Witness};

/// A class, and of its method the name and the descriptor.
type Key = (Name, (Name, Text));

/// Entries by what they name: of several for one method the first.
type EntryTable<'w> = Table<Key, &'w MethodWitness>;

/// The entries of a witness, each found by one look-up. Contracts see their list.
#[derive(Drop)]
pub struct Entries<'w> {
    entries: &'w [MethodWitness],
    table: EntryTable<'w>,
}

impl<'w> Model for Entries<'w> {
    ghost use Rattle.std.specs.Prelude.{List};
    ghost use Rattle.witness_file.specs.declared.witness.MethodWitness.{MethodWitness};
    ghost use Rattle.pair_edits.specs.bodies.Tables.{TellsEntries};

    ghost Value = { List MethodWitness };

    ghost view = { λ e. e.entries.now };

    ghost invariant = { λ e. TellsEntries e.table e.entries.now };
}

impl<'w> Entries<'w> {
    /// The entries of a witness.
    pub fn of(alloc: Global, witness: &'w Witness) -> M<Entries<'w>>
        ensures { IfOk result (λ entries. entries ≡ witness.now.methods) }
    {
        let entries = witness.methods.as_slice();
        let table = table_of(alloc, entries)?;
        Ok(Entries { entries, table })
    }

    /// The entry of a method of a class, if it has one. Where there are no entries nothing is looked up.
    pub fn entry(
        &self,
        alloc: Global,
        class: &Class,
        method: &Method,
    ) -> M<Option<&'w MethodWitness>>
        ensures { IfOk result (λ entry. option_map (λ e. e.now) entry ≡ entry_of self.now class.now method.now) }
    {
        if self.entries.is_empty() {
            return Ok(None);
        }
        let ty = method_text(alloc, &method.ty)?;
        let key = (class.name.clone()?, (method.name.clone()?, ty));
        Ok(self.table.get(&key).copied())
    }
}

/// It is filled from the last entry to the first, so that the first one stays.
fn table_of<'w>(alloc: Global, entries: &'w [MethodWitness]) -> M<EntryTable<'w>>
    ensures { IfOk result (λ table. TellsEntries table entries.now) }
{
    let mut table = Table::new(alloc);
    let mut left = entries.len();
    while left > 0 {
        left -= 1;
        put_entry(&mut table, &entries[left])?;
    }
    Ok(table)
}

fn put_entry<'w>(table: &mut EntryTable<'w>, entry: &'w MethodWitness) -> M<()>
    ensures { OnOk result ((key : MethodKey) → option_map (λ e. e.now) (lookup (is_same key) table.new)
        ≡ (if is_same key (key_of entry.entry.now) then Some entry.entry.now
        else option_map (λ e. e.now) (lookup (is_same key) table.old))) }
{
    let key = (
        entry.class.clone()?,
        (entry.name.clone()?, entry.ty.clone()?),
    );
    put_key(table, key, entry)
}

fn put_key<'w>(table: &mut EntryTable<'w>, own: Key, entry: &'w MethodWitness) -> M<()>
    ensures { OnOk result ((key : MethodKey) → option_map (λ e. e.now) (lookup (is_same key) table.new)
        ≡ (if is_same key own then Some entry.entry.now
        else option_map (λ e. e.now) (lookup (is_same key) table.old))) }
{
    table.insert(own, entry)
}
