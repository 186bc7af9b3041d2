// Operands as methods of the library see them (Java SE 8 API).
ghost use Rattle.std.specs.Prelude.{◌≡◌, IfOk, List, ℕ};
ghost use Rattle.std.specs.Option.{option_map};
ghost use Rattle.jvm_model.specs.Calls.{seen_operand, seen_object};
ghost use Rattle.jvm_model.specs.Heap.{Init};
ghost use Rattle.jvm_model.specs.Value.{Ref};
ghost use Rattle.run_heap.specs.bodies.Seeing.{Sees};
ghost use Rattle.run_heap.specs.Worlds.{object_of, world_of};
ghost use Rattle.run_library.specs.Acts.{operand_of};

use crate::objects::object_at;
use crate::{Object, World};
use jv_base::M;
use run_library::Seen;
use run_values::Value;
use std::alloc::Global;

/// The operands as a method sees them; nothing where one refers to no object.
pub(crate) fn all_seen<'a>(
    alloc: Global,
    world: &'a World,
    operands: &'a [Value],
) -> M<Option<Vec<Seen<'a>>>>
    ensures { IfOk result (λ told. Sees (option_map (λ v. v.items) told) world.now operands.now) }
{
    let mut told: Vec<Seen<'a>> = Vec::with_capacity(alloc, operands.len())?;
    for operand in operands {
        let Some(one) = seen(world, operand) else {
            return Ok(None);
        };
        told.push(one)?;
    }
    Ok(Some(told))
}

/// An operand as a method sees it; nothing where it refers to no object.
#[tactic(auto, using(crate::proofs::Seeing::operand_seen))]
fn seen<'a>(world: &'a World, operand: &'a Value) -> Option<Seen<'a>>
    ensures { (inits : List ℕ → Init) → option_map operand_of result
        ≡ seen_operand (world_of inits world.now) operand.now }
{
    if operand.is_null() {
        return Some(Seen::Null);
    }
    if let Some(number) = operand.as_int() {
        return Some(Seen::Int(number));
    }
    if let Some(number) = operand.as_long() {
        return Some(Seen::Long(number));
    }
    if let Some(units) = operand.as_text() {
        return Some(Seen::Text(operand, units.as_slice()));
    }
    match operand.as_number() {
        Some(number) => seen_at(world, operand, number),
        None => None,
    }
}

#[tactic(auto, using(crate::proofs::Pointing::is_reference))]
fn seen_at<'a>(world: &'a World, operand: &'a Value, number: usize) -> Option<Seen<'a>>
    requires { operand.now ≡ Ref number }
    ensures { (inits : List ℕ → Init) → option_map operand_of result
        ≡ seen_operand (world_of inits world.now) (Ref number) }
{
    match object_at(world, number) {
        Some(object) => Some(seen_object(operand, number, object)),
        None => None,
    }
}

/// The object with a number, of which an operand is the reference.
fn seen_object<'a>(operand: &'a Value, number: usize, object: &'a Object) -> Seen<'a>
    requires { operand.now ≡ Ref number }
    ensures { operand_of result ≡ seen_object number (object_of object.now) }
{
    match object {
        Object::Instance(instance) => Seen::Instance(number, &instance.message, &instance.cause),
        Object::Array { .. } => Seen::Array(number),
        Object::Text(units) => Seen::Text(operand, units.as_slice()),
        Object::Builder(units) => Seen::Builder(number, units.as_slice()),
    }
}
