// Objects and the heap (JVMS 2.4, 2.5.3).
ghost use Rattle.std.specs.Prelude.{IfOk};

use crate::{Fields, Statics};
use jv_base::{FieldType, M, Name, Shared, Units};
use run_values::Value;

/// An object of a class that isn't String or StringBuilder; an exception also has what its constructor was given.
#[derive(Drop)]
pub struct Instance {
    pub class: Name,
    pub fields: Fields,
    pub message: Value,
    pub cause: Value,
}

/// An object.
#[derive(Drop)]
pub enum Object {
    Instance(Instance),
    /// An array, with its component type.
    Array {
        component: FieldType,
        values: Vec<Value>,
    },
    /// A string, by its UTF-16 units.
    Text(Shared<Units>),
    /// A StringBuilder, by its UTF-16 units.
    Builder(Vec<u16>),
}

/// The heap, the static fields, and what was printed. An object's number is its place on the heap.
#[derive(Drop)]
pub struct World {
    pub heap: Vec<Object>,
    pub statics: Statics,
    pub printed: Vec<u16>,
}

impl World {
    ghost use Rattle.run_heap.specs.Worlds.{Adds};

    /// One more object, and the reference to it.
    pub fn add(&mut self, object: Object) -> M<Value>
        ensures { IfOk result (λ reference. Adds reference self.old self.new object) }
    {
        let number = self.heap.len();
        self.heap.push(object)?;
        Ok(Value::reference(number))
    }
}
