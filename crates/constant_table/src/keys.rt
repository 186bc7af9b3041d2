// Keys of constants in the order of their indices, and the index of each.
ghost use Rattle.std.specs.Prelude.{◌≡◌, [], ◌∷◌, ◌++◌, None, is_ok, if◌then◌else◌, length};
ghost use Rattle.indexmap.specs.IndexSet.{insert_key};
ghost use Rattle.constant_table.specs.bodies.Keys.{same_key, index_in, IsIndexed};
ghost use Rattle.constant_table.specs.bodies.Indices.{index_at};

use crate::indices::Indices;
use crate::key::Key;
use jv_base::{M, OutOfMemory};
use std::alloc::Global;
use std::marker::Model;

/// The keys of the constants of a pool, the first at index 1. Contracts see the list of them.
#[derive(Drop)]
pub struct Keys {
    keys: Vec<Key>,
    /// The index of the first place of each.
    indices: Indices,
}

impl Model for Keys {
    ghost use Rattle.std.specs.Prelude.{List};
    ghost use Rattle.constant_table.specs.declared.key.Key.{Key};
    ghost use Rattle.constant_table.specs.bodies.Keys.{IsIndexed};
    ghost use Rattle.constant_table.specs.bodies.Indices.{index_at};

    ghost Value = { List Key };

    ghost view = { λ t. t.keys.items };

    ghost invariant = { λ t. IsIndexed t.keys.items (index_at t.indices) };
}

impl Keys {
    /// No keys.
    pub fn new(alloc: Global) -> Self
        ensures { result ≡ [] }
    {
        Keys {
            keys: Vec::new(alloc),
            indices: Indices::new(alloc),
        }
    }

    /// How many there are.
    pub fn len(&self) -> usize
        ensures { result ≡ length self.now }
    {
        self.keys.len()
    }

    /// The keys, that of index i at place i - 1.
    pub fn as_slice(&self) -> &[Key]
        ensures { result.now ≡ self.now }
    {
        self.keys.as_slice()
    }

    /// The index of a key, that of its first place; or the index behind the last, where it is missing.
    pub fn index_of(&self, key: Key) -> usize
        ensures { result ≡ index_in self.now key }
    {
        match self.indices.get(key) {
            Some(index) => index,
            None => self.keys.len() + 1,
        }
    }

    /// Puts a key behind the others, whether or not it is there. Where memory is wanting, nothing changes.
    pub fn push(&mut self, key: Key) -> M<()>
        ensures { self.new ≡ (if is_ok result then self.old ++ key ∷ [] else self.old) }
    {
        push_key(&mut self.keys, &mut self.indices, key)
    }

    /// Puts a key behind the others, unless it is there. Where memory is wanting, nothing changes.
    pub fn add(&mut self, key: Key) -> M<()>
        ensures { self.new ≡ (if is_ok result then insert_key same_key self.old key else self.old) }
    {
        add_key(&mut self.keys, &mut self.indices, key)
    }
}

// A key that is missing, behind the others with its index.
fn push_new(keys: &mut Vec<Key>, indices: &mut Indices, key: Key) -> M<()>
    requires indices { IsIndexed keys.old.items (index_at indices.old) }
    requires missing { index_at indices.old key ≡ None }
    ensures keys { keys.new.items ≡ (if is_ok result then keys.old.items ++ key ∷ [] else keys.old.items) }
    ensures indices { IsIndexed keys.new.items (index_at indices.new) }
{
    keys.push(key)?;
    let index = keys.len();
    if indices.put(key, index).is_err() {
        keys.truncate(index - 1);
        return Err(OutOfMemory);
    }
    Ok(())
}

// A key behind the others, and its index unless an earlier one is the same.
fn push_key(keys: &mut Vec<Key>, indices: &mut Indices, key: Key) -> M<()>
    requires { IsIndexed keys.old.items (index_at indices.old) }
    ensures keys { keys.new.items ≡ (if is_ok result then keys.old.items ++ key ∷ [] else keys.old.items) }
    ensures indices { IsIndexed keys.new.items (index_at indices.new) }
{
    match indices.get(key) {
        Some(_) => {
            keys.push(key)?;
            Ok(())
        }
        None => push_new(keys, indices, key),
    }
}

fn add_key(keys: &mut Vec<Key>, indices: &mut Indices, key: Key) -> M<()>
    requires { IsIndexed keys.old.items (index_at indices.old) }
    ensures keys { keys.new.items ≡ (if is_ok result then insert_key same_key keys.old.items key else keys.old.items) }
    ensures indices { IsIndexed keys.new.items (index_at indices.new) }
{
    match indices.get(key) {
        Some(_) => Ok(()),
        None => push_new(keys, indices, key),
    }
}
