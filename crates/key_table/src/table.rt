// Values by keys.
ghost use Rattle.std.specs.Prelude.{◌≡◌, ◌<◌, ◌++◌, ◌∷◌, [], ℕ, None, Some, IfSome, OnOk, OnErr, is_ok, is_some};
ghost use Rattle.std.specs.Prelude.{if◌then◌else◌, length, slice_get, take};
ghost use Rattle.std.specs.BTreeMap.{is_at};
ghost use Rattle.std.specs.List.{position, position_from};
ghost use Rattle.std.specs.Map.{keys_of, lookup};
ghost use Rattle.std.specs.Option.{option_copied};
ghost use Rattle.indexmap.specs.IndexMap.{insert_entry};
ghost use Rattle.std.specs.Ordering.{nat_cmp};
ghost use Rattle.key_table.specs.Tables.{ArePlaced, is_there, place_by};

use crate::Key;
use jv_base::M;
use std::alloc::Global;
use std::collections::BTreeMap;
use std::marker::Model;

/// Values by keys, each key there once. Contracts see the entries in the order in which the keys came.
///
/// A look-up takes the logarithm of how many keys there are, and compares one key in most cases: marks tell them apart.
#[derive(Drop)]
pub struct Table<K: Key, V> {
    entries: Vec<(K, V)>,
    /// The place of the first key with each mark.
    firsts: BTreeMap<u64, usize>,
    /// The places of the other keys.
    others: BTreeMap<K, usize>,
}

impl<K: Key, V> Model for Table<K, V> {
    ghost use Rattle.std.specs.Prelude.{List};
    ghost use Rattle.std.specs.Map.{keys_of};
    ghost use Rattle.key_table.specs.Tables.{ArePlaced};

    ghost Value = { List (K × V) };

    ghost view = { λ t. t.entries.items };

    ghost invariant = { λ t. ArePlaced K.cmp K.eq K.mark (keys_of t.entries.items) t.firsts.entries t.others.entries };
}

impl<K: Key, V> Table<K, V> {
    /// No entries.
    pub fn new(alloc: Global) -> Self
        ensures { result ≡ [] }
    {
        Table {
            entries: Vec::new(alloc),
            firsts: BTreeMap::new(alloc),
            others: BTreeMap::new(alloc),
        }
    }

    /// The place of a key among the entries, if it is there.
    pub fn place(&self, key: &K) -> Option<usize>
        ensures found { result ≡ position (K.eq key.now) (keys_of self.now) }
        ensures within { IfSome result (λ n. n < length self.now) }
    {
        place_in(
            self.entries.as_slice(),
            &self.others,
            key,
            first_place(&self.firsts, key.mark()),
        )
    }

    /// The value of a key, if it has one.
    pub fn get(&self, key: &K) -> Option<&V>
        ensures { option_copied result ≡ lookup (K.eq key.now) self.now }
    {
        match self.place(key) {
            Some(place) => Some(&self.entries[place].1),
            None => None,
        }
    }

    /// Whether a key has a value.
    pub fn has(&self, key: &K) -> bool
        ensures { result ≡ is_some (lookup (K.eq key.now) self.now) }
    {
        self.get(key).is_some()
    }

    /// Gives a key a value: a key that is there keeps its place, and a new one stands behind the others.
    pub fn insert(&mut self, key: K, value: V) -> M<()>
    where
        K: Drop,
        V: Drop,
        ensures { self.new ≡ (if is_ok result then insert_entry K.eq self.old key value else self.old) }
    {
        match self.place(&key) {
            Some(place) => {
                self.entries[place].1 = value;
                Ok(())
            }
            None => self.insert_new(key, value),
        }
    }

    /// Puts a key that isn't there behind the others.
    pub(crate) fn insert_new(&mut self, key: K, value: V) -> M<()>
    where
        K: Drop,
        V: Drop,
        requires { position (K.eq key) (keys_of self.old) ≡ None }
        ensures { self.new ≡ (if is_ok result then self.old ++ (key, value) ∷ [] else self.old) }
    {
        push(
            &mut self.entries,
            &mut self.firsts,
            &mut self.others,
            key,
            value,
        )
    }

    /// How many entries there are.
    pub fn len(&self) -> usize
        ensures { result ≡ length self.now }
    {
        self.entries.len()
    }

    /// The key of a place, if there is one.
    pub fn key(&self, place: usize) -> Option<&K>
        ensures { option_copied result ≡ slice_get (keys_of self.now) place }
    {
        match self.entries.as_slice().get(place) {
            Some((key, _)) => Some(key),
            None => None,
        }
    }
}

/// The place of the first key with a mark.
fn first_place(firsts: &BTreeMap<u64, usize>, mark: u64) -> Option<usize>
    ensures { result ≡ lookup (is_at (nat_cmp mark)) firsts.now.entries }
{
    firsts.get(&mark).copied()
}

/// The place of a key by that of the first with its mark.
fn place_in<K: Key, V>(
    entries: &[(K, V)],
    others: &BTreeMap<K, usize>,
    key: &K,
    first: Option<usize>,
) -> Option<usize>
    ensures { result ≡ place_by K.cmp K.eq (keys_of entries.now) others.now.entries key.now first }
{
    let first = first?;
    if has_key(entries, first, key) {
        Some(first)
    } else {
        others.get(key).copied()
    }
}

/// Whether the entry of a place has a key.
fn has_key<K: Key, V>(entries: &[(K, V)], place: usize, key: &K) -> bool
    ensures { result ≡ is_there K.eq key.now (slice_get (keys_of entries.now) place) }
{
    match entries.get(place) {
        Some((there, _)) => key == there,
        None => false,
    }
}

/// Puts a new key behind the others.
fn push<K: Key + Drop, V: Drop>(
    entries: &mut Vec<(K, V)>,
    firsts: &mut BTreeMap<u64, usize>,
    others: &mut BTreeMap<K, usize>,
    key: K,
    value: V,
) -> M<()>
    requires placed { ArePlaced K.cmp K.eq K.mark (keys_of entries.old.items) firsts.old.entries others.old.entries }
    requires missing { position_from (K.eq key) 0 (keys_of entries.old.items) ≡ None }
    ensures placed { ArePlaced K.cmp K.eq K.mark (keys_of entries.new.items) firsts.new.entries others.new.entries }
    ensures entries { entries.new.items ≡ (if is_ok result then entries.old.items ++ (key, value) ∷ []
        else entries.old.items) }
{
    let place = entries.len();
    let mark = key.mark();
    match first_place(firsts, mark) {
        None => {
            entries.push((key, value))?;
            keep_or_drop(entries, place, put(firsts, mark, place))
        }
        Some(_) => {
            let copy = key.clone()?;
            entries.push((key, value))?;
            keep_or_drop(entries, place, put(others, copy, place))
        }
    }
}

/// Puts the place of a key.
fn put<K: Ord + Drop>(places: &mut BTreeMap<K, usize>, key: K, place: usize) -> M<()>
    ensures put { OnOk result ((q : K) → lookup (is_at (K.cmp q)) places.new.entries
        ≡ (if is_at (K.cmp key) q then Some place else lookup (is_at (K.cmp q)) places.old.entries)) }
    ensures unchanged { OnErr result (places.new.entries ≡ places.old.entries) }
{
    places.insert(key, place)?;
    Ok(())
}

/// Takes back what stands from a place on, where the place wasn't put.
fn keep_or_drop<T: Drop>(entries: &mut Vec<T>, place: usize, put: M<()>) -> M<()>
    ensures entries { entries.new.items ≡ (if is_ok put then entries.old.items else take place entries.old.items) }
    ensures same { result ≡ put }
{
    if put.is_err() {
        entries.truncate(place);
    }
    put
}
