// Values of static fields, found by their names.
ghost use Rattle.std.specs.Prelude.{◌≡◌, [], IfOk, OnOk};
ghost use Rattle.jvm_model.specs.Value.{set_key};
ghost use Rattle.run_heap.specs.Held.{held};

use crate::Key;
use crate::fields::default_of;
use crate::key::MemberNames;
use indexmap::IndexMap;
use jv_base::M;
use run_values::Value;
use std::alloc::Global;
use std::marker::Model;

/// The static fields that were set, with their values; all others have their default values. One is found by its names
/// at once, however many there are.
#[derive(Drop)]
pub struct Statics {
    values: IndexMap<MemberNames, Value>,
}

impl Model for Statics {
    ghost use Rattle.std.specs.Prelude.{List, map};
    ghost use Rattle.run_heap.specs.Held.{held_at};
    ghost use Rattle.run_heap.specs.declared.fields.Held.{Held};

    ghost Value = { List Held };

    ghost view = { λ s. map held_at s.values.entries };
}

impl Statics {
    /// None was set.
    pub fn new(alloc: Global) -> Self
        ensures { result ≡ [] }
    {
        Statics {
            values: IndexMap::new(alloc),
        }
    }

    /// The value of a field.
    pub fn get(&self, alloc: Global, key: &Key) -> M<Value>
        ensures { IfOk result (λ value. value ≡ held self.now key.now) }
    {
        match self.values.get(key.names()) {
            Some(value) => Ok(value.clone()?),
            None => default_of(alloc, key),
        }
    }

    /// A field gets a value, as it is.
    pub fn set(&mut self, key: &Key, value: Value) -> M<()>
        ensures { OnOk result (held self.new ≡ set_key (held self.old) key.now value) }
    {
        let key = key.clone()?;
        self.values.insert(key.names, value)?;
        Ok(())
    }
}
