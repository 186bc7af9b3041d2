// The index of the first place of each key.
ghost use Rattle.std.specs.Prelude.{◌≡◌, None, Some, OnOk, OnErr, if◌then◌else◌};
ghost use Rattle.constant_table.specs.declared.key.Key.{Key};
ghost use Rattle.constant_table.specs.bodies.Keys.{same_key};
ghost use Rattle.constant_table.specs.bodies.Indices.{index_at};

use crate::key::Key;
use crate::slots::Slots;
use jv_base::M;
use std::alloc::Global;
use std::collections::BTreeMap;

/// An index for each of some keys. That of a key of one text is found by the number of the text, each other one in a
/// tree, so that no choice of constants makes a look-up slow.
#[derive(Drop)]
pub struct Indices {
    texts: Slots,
    classes: Slots,
    strings: Slots,
    others: BTreeMap<Key, usize>,
}

impl Indices {
    /// None.
    pub fn new(alloc: Global) -> Self
        ensures { (k : Key) → index_at result k ≡ None }
    {
        Indices {
            texts: Slots::new(alloc),
            classes: Slots::new(alloc),
            strings: Slots::new(alloc),
            others: BTreeMap::new(alloc),
        }
    }

    /// The index of a key.
    pub fn get(&self, key: Key) -> Option<usize>
        ensures { result ≡ index_at self.now key }
    {
        match key {
            Key::Utf8(number) => self.texts.get(number),
            Key::Class(number) => self.classes.get(number),
            Key::Str(number) => self.strings.get(number),
            _ => self.others.get(&key).copied(),
        }
    }

    /// Keeps the index of a key.
    pub fn put(&mut self, key: Key, index: usize) -> M<()>
        ensures kept { OnOk result ((k : Key) → index_at self.new k
            ≡ (if same_key key k then Some index else index_at self.old k)) }
        ensures unchanged { OnErr result ((k : Key) → index_at self.new k ≡ index_at self.old k) }
    {
        match key {
            Key::Utf8(number) => self.texts.put(number, index),
            Key::Class(number) => self.classes.put(number, index),
            Key::Str(number) => self.strings.put(number, index),
            _ => {
                self.others.insert(key, index)?;
                Ok(())
            }
        }
    }
}
