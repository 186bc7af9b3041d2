// New names for what is kept, group by group.
ghost use Rattle.std.specs.Prelude.{◌≡◌, ◌||◌, ◌++◌, ◌∷◌, [], ℕ, List, Option, Some, false, IfOk, OnOk, is_some};
ghost use Rattle.std.specs.Prelude.{nat_eq};
ghost use Rattle.std.specs.Cmp.Lexicographic.{pointwise};
ghost use Rattle.std.specs.List.{list_any};
ghost use Rattle.std.specs.Map.{lookup};
ghost use Rattle.indexmap.specs.IndexMap.{insert_entry};
ghost use Rattle.class_rename.specs.Names.{is_same_method};
ghost use Rattle.fresh_names.specs.Fresh.{is_taken};
ghost use Rattle.fresh_names.specs.bodies.Giving.{HasAll, HasNews, IsApplied, IsGiven, TellsSo, front_in, number_of};
ghost use Rattle.fresh_names.specs.bodies.Giving.{stays_in, what_stays};

use crate::fresh::{fresh_name, next_free, number_after};
use crate::grouped::{Grouped, earlier};
use crate::stays::Stays;
use jv_base::{M, Name, Text};
use key_table::{KeySet, Table};
use std::alloc::Global;

/// The new names of these: each takes what an earlier mapping gives it, where that is free in its group, in the order
/// of the keys; then the others get `a` to `z`, `aa` and so on in the same order.
pub(crate) fn give_names<K: Grouped + Drop>(
    alloc: Global,
    stays: &Stays,
    old: &Table<K, Name>,
    keys: &[K],
) -> M<Table<K, Name>>
    ensures { (told : List ℕ → List ℕ → Option (List ℕ))
        → TellsSo K.eq (K.pair (what_stays stays.now)) (what_stays stays.now) old.now told
        → IfOk result (HasAll K.eq (K.pair (what_stays stays.now)) told (stays_in stays.now) (front_in stays.now)
        keys.now) }
{
    let mut table = Table::new(alloc);
    let mut news = KeySet::new(alloc);
    apply_all(alloc, stays, old, keys, &mut table, &mut news)?;
    let mut next = Table::new(alloc);
    give_all(alloc, stays, &news, keys, &mut table, &mut next)?;
    Ok(table)
}

// ---- what an earlier mapping gives

fn apply_all<K: Grouped + Drop>(
    alloc: Global,
    stays: &Stays,
    old: &Table<K, Name>,
    keys: &[K],
    table: &mut Table<K, Name>,
    news: &mut KeySet<(Name, Text)>,
) -> M<()>
    requires table { table.old ≡ [] }
    requires news { news.old ≡ [] }
    ensures { (told : List ℕ → List ℕ → Option (List ℕ))
        → TellsSo K.eq (K.pair (what_stays stays.now)) (what_stays stays.now) old.now told
        → OnOk result (IsApplied K.eq (K.pair (what_stays stays.now)) told (stays_in stays.now) keys.now
        table.new news.new) }
{
    for key in keys {
        apply(alloc, stays, old, key, table, news)?;
    }
    Ok(())
}

/// Gives a name what the earlier mapping has for it, unless the name stays or has a new one.
fn apply<K: Grouped + Drop>(
    alloc: Global,
    stays: &Stays,
    old: &Table<K, Name>,
    key: &K,
    table: &mut Table<K, Name>,
    news: &mut KeySet<(Name, Text)>,
) -> M<()>
    ensures { (told : List ℕ → List ℕ → Option (List ℕ)) (done : List K)
        → TellsSo K.eq (K.pair (what_stays stays.now)) (what_stays stays.now) old.now told
        → IsApplied K.eq (K.pair (what_stays stays.now)) told (stays_in stays.now) done table.old news.old
        → OnOk result (IsApplied K.eq (K.pair (what_stays stays.now)) told (stays_in stays.now)
        (done ++ key.now ∷ []) table.new news.new) }
{
    let new = earlier(alloc, stays.named(), key, old)?;
    match new {
        Some(new) => apply_told(alloc, stays, key, new, table, news),
        None => Ok(()),
    }
}

/// The same of what the earlier mapping has.
fn apply_told<K: Grouped + Drop>(
    alloc: Global,
    stays: &Stays,
    key: &K,
    name: Name,
    table: &mut Table<K, Name>,
    news: &mut KeySet<(Name, Text)>,
) -> M<()>
    ensures { (told : List ℕ → List ℕ → Option (List ℕ)) (done : List K)
        → told (K.pair (what_stays stays.now) key.now).1 (K.pair (what_stays stays.now) key.now).0 ≡ Some name
        → IsApplied K.eq (K.pair (what_stays stays.now)) told (stays_in stays.now) done table.old news.old
        → OnOk result (IsApplied K.eq (K.pair (what_stays stays.now)) told (stays_in stays.now)
        (done ++ key.now ∷ []) table.new news.new) }
{
    let member = key.member(alloc, stays.named())?;
    let group = member.1.clone()?;
    apply_new(stays, key, &member, (name, group), table, news)
}

/// Gives a name a new one, unless the name stays or has one, or the new one stays or was given in this group.
fn apply_new<K: Grouped + Drop>(
    stays: &Stays,
    key: &K,
    member: &(Name, Text),
    new: (Name, Text),
    table: &mut Table<K, Name>,
    news: &mut KeySet<(Name, Text)>,
) -> M<()>
    requires member { member.now ≡ K.pair (what_stays stays.now) key.now }
    requires group { new.1 ≡ member.now.1 }
    ensures { (told : List ℕ → List ℕ → Option (List ℕ)) (done : List K)
        → told member.now.1 member.now.0 ≡ Some new.0
        → IsApplied K.eq (K.pair (what_stays stays.now)) told (stays_in stays.now) done table.old news.old
        → OnOk result (IsApplied K.eq (K.pair (what_stays stays.now)) told (stays_in stays.now)
        (done ++ key.now ∷ []) table.new news.new) }
{
    if is_out(stays, table, news, key, member, &new) {
        return Ok(());
    }
    put_name(table, key, new.0.clone()?)?;
    put_new(news, new)
}

/// Whether a name stays or has a new one, or a new name stays in its group or was given there.
fn is_out<K: Grouped + Drop>(
    stays: &Stays,
    table: &Table<K, Name>,
    news: &KeySet<(Name, Text)>,
    key: &K,
    member: &(Name, Text),
    new: &(Name, Text),
) -> bool
    ensures { result ≡ ((is_some (lookup (K.eq key.now) table.now)
        || is_taken (stays_in stays.now member.now.1) member.now.0)
        || (is_taken (stays_in stays.now new.now.1) new.now.0 || list_any (is_same_method new.now) news.now)) }
{
    has_name(stays, table, key, member) || is_given(stays, news, new)
}

/// Whether a new name stays in its group, or was given there.
fn is_given(stays: &Stays, news: &KeySet<(Name, Text)>, new: &(Name, Text)) -> bool
    ensures { result ≡ (is_taken (stays_in stays.now new.now.1) new.now.0
        || list_any (is_same_method new.now) news.now) }
{
    stays.has(new) || news.has(new)
}

fn put_new(news: &mut KeySet<(Name, Text)>, new: (Name, Text)) -> M<()>
    requires { list_any (is_same_method new) news.old ≡ false }
    ensures { OnOk result (news.new ≡ news.old ++ new ∷ []) }
{
    news.insert(new)?;
    Ok(())
}

// ---- fresh names

fn give_all<K: Grouped + Drop>(
    alloc: Global,
    stays: &Stays,
    news: &KeySet<(Name, Text)>,
    keys: &[K],
    table: &mut Table<K, Name>,
    next: &mut Table<Text, u32>,
) -> M<()>
    requires next { next.old ≡ [] }
    ensures { (told : List ℕ → List ℕ → Option (List ℕ))
        → IsApplied K.eq (K.pair (what_stays stays.now)) told (stays_in stays.now) keys.now table.old news.now
        → OnOk result (IsGiven K.eq (K.pair (what_stays stays.now)) told (stays_in stays.now) (front_in stays.now)
        keys.now keys.now table.new next.new) }
{
    for key in keys {
        give(alloc, stays, news, key, table, next)?;
    }
    Ok(())
}

/// Gives a name the next one that is free in its group, unless the name stays or has a new one.
fn give<K: Grouped + Drop>(
    alloc: Global,
    stays: &Stays,
    news: &KeySet<(Name, Text)>,
    key: &K,
    table: &mut Table<K, Name>,
    next: &mut Table<Text, u32>,
) -> M<()>
    ensures { (told : List ℕ → List ℕ → Option (List ℕ)) (keys done : List K)
        → HasNews (K.pair (what_stays stays.now)) told (stays_in stays.now) keys news.now
        → IsGiven K.eq (K.pair (what_stays stays.now)) told (stays_in stays.now) (front_in stays.now)
        keys done table.old next.old
        → OnOk result (IsGiven K.eq (K.pair (what_stays stays.now)) told (stays_in stays.now) (front_in stays.now)
        keys (done ++ key.now ∷ []) table.new next.new) }
{
    let member = key.member(alloc, stays.named())?;
    if has_name(stays, table, key, &member) {
        return Ok(());
    }
    let number = next_free(alloc, stays, news, &member.1, number_of(next, &member.1))?;
    let front = stays.front(alloc, &member.1)?;
    let new = fresh_name(alloc, &front, number)?;
    let behind = number_after(number)?;
    put_name(table, key, new)?;
    put_number(next, &member.1, behind)
}

/// Whether a name has a new one, or stays. Most names have stood before.
fn has_name<K: Grouped + Drop>(
    stays: &Stays,
    table: &Table<K, Name>,
    key: &K,
    member: &(Name, Text),
) -> bool
    ensures { result ≡ (is_some (lookup (K.eq key.now) table.now)
        || is_taken (stays_in stays.now member.now.1) member.now.0) }
{
    table.has(key) || stays.has(member)
}

/// The number from which on names of a group are to be given.
fn number_of(next: &Table<Text, u32>, group: &Text) -> u32
    ensures { result ≡ number_of next.now group.now }
{
    match next.get(group) {
        Some(number) => *number,
        None => 0,
    }
}

fn put_name<K: Grouped + Drop>(table: &mut Table<K, Name>, key: &K, new: Name) -> M<()>
    ensures { OnOk result (table.new ≡ insert_entry K.eq table.old key.now new) }
{
    let key = key.clone()?;
    table.insert(key, new)?;
    Ok(())
}

fn put_number(next: &mut Table<Text, u32>, group: &Text, number: u32) -> M<()>
    ensures { OnOk result (next.new ≡ insert_entry (pointwise nat_eq) next.old group.now number) }
{
    let group = group.clone()?;
    next.insert(group, number)?;
    Ok(())
}
