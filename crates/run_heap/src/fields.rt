// Values of fields (JVMS 2.3, 2.4, 6.5.getfield, 6.5.putfield).
ghost use Rattle.std.specs.Prelude.{◌≡◌, [], IfOk, OnOk, option_copied};
ghost use Rattle.jvm_model.specs.Fields.{blank, stored_in};
ghost use Rattle.jvm_model.specs.Value.{set_key};
ghost use Rattle.run_heap.specs.Held.{IsPlace, found_in, held};

use crate::Key;
use jv_base::{M, Or, OutOfMemory, read_field_type};
use run_steps::field_kind;
use run_values::Value;
use run_values::types::stored;
use std::alloc::Global;
use std::marker::Model;

/// A field and its value.
#[derive(Drop)]
pub struct Held {
    pub key: Key,
    pub value: Value,
}

/// The fields that were set, with their values; all others have their default values.
#[derive(Drop)]
pub struct Fields {
    held: Vec<Held>,
}

impl Model for Fields {
    ghost use Rattle.std.specs.Prelude.{List};
    ghost use Rattle.run_heap.specs.declared.fields.Held.{Held};

    ghost Value = { List Held };

    ghost view = { λ f. f.held.items };
}

impl Fields {
    /// None was set.
    pub fn new(alloc: Global) -> Self
        ensures { result ≡ [] }
    {
        Fields {
            held: Vec::new(alloc),
        }
    }

    /// The value of a field.
    pub fn get(&self, alloc: Global, key: &Key) -> M<Value>
        ensures { IfOk result (λ value. value ≡ held self.now key.now) }
    {
        value_in(alloc, self.held.as_slice(), key)
    }

    /// A field gets a value, as it is.
    pub fn set(&mut self, key: &Key, value: Value) -> M<()>
        ensures { OnOk result (held self.new ≡ set_key (held self.old) key.now value) }
    {
        set_in(&mut self.held, key, value)
    }
}

#[tactic(auto, using(crate::proofs::Replacing::found_held, crate::proofs::Replacing::missing_held))]
fn value_in(alloc: Global, fields: &[Held], key: &Key) -> M<Value>
    ensures { IfOk result (λ value. value ≡ held fields.now key.now) }
{
    match find(fields, key) {
        Some(value) => Ok(value.clone()?),
        None => default_of(alloc, key),
    }
}

fn find<'a>(fields: &'a [Held], key: &Key) -> Option<&'a Value>
    ensures { option_copied result ≡ found_in key.now fields.now }
{
    for field in fields {
        if key.is_same(&field.key) {
            return Some(&field.value);
        }
    }
    None
}

/// The default value of a field (JVMS 2.3, 2.4).
pub fn default_of(alloc: Global, key: &Key) -> M<Value>
    ensures { IfOk result (λ value. value ≡ blank key.now) }
{
    match field_kind(alloc, key.descriptor())? {
        Some(kind) => Ok(Value::default_of(kind)),
        None => Ok(Value::null()),
    }
}

fn set_in(fields: &mut Vec<Held>, key: &Key, value: Value) -> M<()>
    ensures { OnOk result (held fields.new.items ≡ set_key (held fields.old.items) key.now value) }
{
    match place(fields.as_slice(), key) {
        Some(at) => set_value(&mut fields[at], value),
        None => {
            let key = key.clone()?;
            fields.push(Held { key, value })?;
        }
    }
    Ok(())
}

fn set_value(field: &mut Held, value: Value)
    ensures { field.new ≡ record field.old { value = value } }
{
    field.value = value;
}

/// Where a field stands that was set.
fn place(fields: &[Held], key: &Key) -> Option<usize>
    ensures { IsPlace result key.now fields.now }
{
    let mut at = 0;
    while at < fields.len() {
        if key.is_same(&fields[at].key) {
            return Some(at);
        }
        at += 1;
    }
    None
}

/// The longest descriptor that is read has so many bytes; there is no memory for a longer one.
const LONGEST: usize = 4_294_967_294;

/// What a field holds when a value was stored.
pub fn stored_in(alloc: Global, key: &Key, value: Value) -> M<Value>
    ensures { IfOk result (λ kept. kept ≡ stored_in key.now value) }
{
    if key.descriptor().len() > LONGEST {
        return Err(OutOfMemory);
    }
    match read_field_type(alloc, key.descriptor()) {
        Ok(ty) => Ok(stored(&ty, value)),
        Err(Or::Fault(_)) => Ok(value),
        Err(Or::OutOfMemory) => Err(OutOfMemory),
    }
}
