// Indices of constants by the numbers of their texts.
ghost use Rattle.std.specs.Prelude.{◌≡◌, ℕ, ◌==◌, ◌≤◌, length, [], Some, OnOk, OnErr, if◌then◌else◌};
ghost use Rattle.constant_table.specs.bodies.Indices.{slot};

use jv_base::M;
use std::alloc::Global;
use std::marker::Model;

/// For each text the index of a constant that it makes, where there is one.
#[derive(Drop)]
pub struct Slots {
    slots: Vec<Option<usize>>,
}

impl Model for Slots {
    ghost use Rattle.std.specs.Prelude.{List, ℕ, Option};

    ghost Value = { List (Option ℕ) };

    ghost view = { λ s. s.slots.items };
}

impl Slots {
    /// None.
    pub fn new(alloc: Global) -> Self
        ensures { result ≡ [] }
    {
        Slots {
            slots: Vec::new(alloc),
        }
    }

    /// The index for the text of a number.
    pub fn get(&self, number: usize) -> Option<usize>
        ensures { result ≡ slot self.now number }
    {
        if number < self.slots.len() {
            self.slots[number]
        } else {
            None
        }
    }

    /// Keeps an index for the text of a number.
    pub fn put(&mut self, number: usize, index: usize) -> M<()>
        ensures kept { OnOk result ((n : ℕ) → slot self.new n ≡ (if number == n then Some index else slot self.old n)) }
        ensures unchanged { OnErr result ((n : ℕ) → slot self.new n ≡ slot self.old n) }
    {
        if number < self.slots.len() {
            self.slots[number] = Some(index);
            return Ok(());
        }
        push_behind(&mut self.slots, number, index)
    }
}

// One more, with those before it that are missing.
fn push_behind(slots: &mut Vec<Option<usize>>, number: usize, index: usize) -> M<()>
    requires { length slots.old.items ≤ number }
    ensures kept { OnOk result ((n : ℕ) → slot slots.new.items n
        ≡ (if number == n then Some index else slot slots.old.items n)) }
    ensures unchanged { OnErr result ((n : ℕ) → slot slots.new.items n ≡ slot slots.old.items n) }
{
    slots.resize(number, None)?;
    slots.push(Some(index))?;
    Ok(())
}
