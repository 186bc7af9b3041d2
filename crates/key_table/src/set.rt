// Keys, each once.
ghost use Rattle.std.specs.Prelude.{◌≡◌, ◌<◌, [], IfOk, IfSome, None, Some, is_ok, if◌then◌else◌, length, not};
ghost use Rattle.std.specs.Prelude.{slice_get};
ghost use Rattle.std.specs.Option.{option_copied};
ghost use Rattle.std.specs.List.{list_any, position};
ghost use Rattle.indexmap.specs.IndexSet.{insert_key};

use crate::{Key, Table};
use jv_base::M;
use std::alloc::Global;
use std::marker::Model;

/// Keys, each there once. Contracts see them in the order in which they came.
#[derive(Drop)]
pub struct KeySet<K: Key> {
    table: Table<K, ()>,
}

impl<K: Key> Model for KeySet<K> {
    ghost use Rattle.std.specs.Prelude.{List};
    ghost use Rattle.std.specs.Map.{keys_of};

    ghost Value = { List K };

    ghost view = { λ s. keys_of s.table };
}

impl<K: Key> KeySet<K> {
    /// No keys.
    pub fn new(alloc: Global) -> Self
        ensures { result ≡ [] }
    {
        KeySet {
            table: Table::new(alloc),
        }
    }

    /// How many keys there are.
    pub fn len(&self) -> usize
        ensures { result ≡ length self.now }
    {
        self.table.len()
    }

    /// The key of a place, if there is one.
    pub fn get(&self, place: usize) -> Option<&K>
        ensures { option_copied result ≡ slice_get self.now place }
    {
        self.table.key(place)
    }

    /// The place of a key among them, if it is there.
    pub fn place(&self, key: &K) -> Option<usize>
        ensures found { result ≡ position (K.eq key.now) self.now }
        ensures within { IfSome result (λ n. n < length self.now) }
    {
        self.table.place(key)
    }

    /// Whether a key is there.
    pub fn has(&self, key: &K) -> bool
        ensures { result ≡ list_any (K.eq key.now) self.now }
    {
        self.table.place(key).is_some()
    }

    /// Puts a key behind the others, unless it is there. Tells whether it is new.
    pub fn insert(&mut self, key: K) -> M<bool>
    where
        K: Drop,
        ensures is_new { IfOk result (λ is_new. is_new ≡ not (list_any (K.eq key) self.old)) }
        ensures keys { self.new ≡ (if is_ok result then insert_key K.eq self.old key else self.old) }
    {
        match self.place(&key) {
            Some(_) => Ok(false),
            None => {
                self.table.insert_new(key, ())?;
                Ok(true)
            }
        }
    }

    /// The place of a key, which is put behind the others unless it is there.
    pub fn keep(&mut self, key: K) -> M<usize>
    where
        K: Drop,
        ensures place { IfOk result (λ n. Some n ≡ position (K.eq key) self.new) }
        ensures keys { self.new ≡ (if is_ok result then insert_key K.eq self.old key else self.old) }
    {
        match self.place(&key) {
            Some(place) => Ok(place),
            None => {
                let place = self.len();
                self.table.insert_new(key, ())?;
                Ok(place)
            }
        }
    }
}
