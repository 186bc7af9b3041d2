// A list that grows and shrinks at one end.
ghost use Rattle.std.specs.Prelude.{◌≡◌, [], ◌∷◌, OnOk, length};
ghost use Rattle.run_machine.specs.bodies.Piles.{Takes};

use jv_base::{Items, M};
use std::alloc::Global;
use std::marker::Model;

/// A list, which contracts see with the item first that was put last.
#[derive(Drop)]
pub struct Pile<T> {
    /// The first one last.
    items: Vec<T>,
}

impl<T> Model for Pile<T> {
    ghost use Rattle.std.specs.Prelude.{List, reverse};

    ghost Value = { List T };

    ghost view = { λ p. reverse p.items.items };
}

impl<T: Drop> Pile<T> {
    /// The list without an item, which takes no memory.
    pub fn new(alloc: Global) -> Self
        ensures { result ≡ [] }
    {
        Pile {
            items: Vec::new(alloc),
        }
    }

    /// A list of these items, in their order.
    pub fn of(items: Items<T>) -> Self
        ensures { result ≡ items }
    {
        let mut items = items.into_vec();
        items.reverse();
        Pile { items }
    }

    /// Puts an item before all others.
    pub fn push(&mut self, item: T) -> M<()>
        ensures { OnOk result (self.new ≡ item ∷ self.old) }
    {
        self.items.push(item)?;
        Ok(())
    }

    /// Takes the first item.
    pub fn pop(&mut self) -> Option<T>
        ensures { Takes result self.old self.new }
    {
        self.items.pop()
    }

    /// How many items it has.
    pub fn len(&self) -> usize
        ensures { result ≡ length self.now }
    {
        self.items.len()
    }
}
