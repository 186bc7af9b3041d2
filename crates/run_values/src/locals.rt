// The local variables of a frame (JVMS 2.6.1).
ghost use Rattle.std.specs.Prelude.{◌≡◌, ◌≤◌, [], ◌∷◌, ◌++◌, length, IfOk, OnOk, Some, option_copied};
ghost use Rattle.jvm_model.specs.Local.{slots_from};
ghost use Rattle.jvm_model.specs.Value.{set_at};
ghost use Rattle.run_values.specs.bodies.Cells.{cells};
ghost use Rattle.run_values.specs.Slots.{slots_of};

use crate::Value;
use jv_base::M;
use std::alloc::Global;
use std::marker::Model;

/// The local variables of a frame by their slots. There is no bound on them.
#[derive(Drop)]
pub struct Locals {
    slots: Vec<Option<Value>>,
}

impl Model for Locals {
    ghost use Rattle.std.specs.Prelude.{List, Option};
    ghost use Rattle.jvm_model.specs.Value as machine;

    ghost Value = { List (Option machine.Value) };

    ghost view = { λ l. l.slots.items };
}

impl Locals {
    /// Those of a method that is called with these arguments, a long being given two slots (JVMS 2.6.1).
    #[tactic(auto, using(crate::proofs::Cells::cells_are_slots))]
    pub fn of_arguments(alloc: Global, arguments: &[Value]) -> M<Self>
        ensures { IfOk result (λ locals. slots_of locals ≡ slots_from 0 arguments.now) }
    {
        Ok(Locals {
            slots: cells_of(alloc, arguments)?,
        })
    }

    /// What a slot holds, if it holds anything.
    pub fn get(&self, slot: usize) -> Option<&Value>
        ensures { option_copied result ≡ slots_of self.now slot }
    {
        match self.slots.as_slice().get(slot) {
            Some(held) => held.as_ref(),
            None => None,
        }
    }

    /// Puts a value into a slot.
    pub fn set(&mut self, slot: usize, value: Value) -> M<()>
        ensures { OnOk result (slots_of self.new ≡ set_at (slots_of self.old) slot (Some value)) }
    {
        set_slot(&mut self.slots, slot, value)
    }
}

fn cells_of(alloc: Global, arguments: &[Value]) -> M<Vec<Option<Value>>>
    ensures { IfOk result (λ slots. slots.items ≡ cells arguments.now) }
{
    let mut slots: Vec<Option<Value>> = Vec::with_capacity(alloc, arguments.len())?;
    for argument in arguments {
        push_cells(&mut slots, argument.clone()?)?;
    }
    Ok(slots)
}

/// Appends a value, and a slot without one behind a long.
fn push_cells(slots: &mut Vec<Option<Value>>, value: Value) -> M<()>
    ensures { OnOk result (slots.new.items ≡ slots.old.items ++ cells (value ∷ [])) }
{
    let is_wide = value.is_wide();
    slots.push(Some(value))?;
    if is_wide {
        slots.push(None)?;
    }
    Ok(())
}

fn set_slot(slots: &mut Vec<Option<Value>>, slot: usize, value: Value) -> M<()>
    ensures { OnOk result (slots_of slots.new.items ≡ set_at (slots_of slots.old.items) slot (Some value)) }
{
    if slot < slots.len() {
        slots[slot] = Some(value);
        return Ok(());
    }
    grow(slots, slot)?;
    slots.push(Some(value))?;
    Ok(())
}

/// Appends slots that hold nothing up to so many slots.
fn grow(slots: &mut Vec<Option<Value>>, len: usize) -> M<()>
    requires { length slots.old.items ≤ len }
    ensures len { OnOk result (length slots.new.items ≡ len) }
    ensures same { slots_of slots.new.items ≡ slots_of slots.old.items }
{
    while slots.len() < len {
        slots.push(None)?;
    }
    Ok(())
}
