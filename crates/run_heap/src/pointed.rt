// What a reference refers to (JVMS 2.4).
ghost use Rattle.run_heap.specs.bodies.Pointing.{IsPointed};

use run_values::Value;

/// What a value refers to.
#[derive(Clone, Copy)]
pub(crate) enum Pointed {
    Null,
    /// An object of the heap, by its number.
    Object(usize),
    /// Nothing on the heap.
    Other,
}

#[tactic(auto, using(crate::proofs::Pointing::pointed))]
pub(crate) fn refers_to(value: &Value) -> Pointed
    ensures { IsPointed result value.now }
{
    if value.is_null() {
        return Pointed::Null;
    }
    match value.as_number() {
        Some(number) => Pointed::Object(number),
        None => Pointed::Other,
    }
}
