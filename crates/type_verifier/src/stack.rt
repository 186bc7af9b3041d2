// The operand stack (JVMS 4.10.1.4).
ghost use Rattle.std.specs.Prelude.{◌≡◌, ◌∷◌, [], reverse, OnOk};
ghost use Rattle.std.specs.List.{list_any};
ghost use Rattle.class_model.specs.Frames.{words_of_type, words_of_types};
ghost use Rattle.type_verifier.specs.bodies.Pops.{Pops};
ghost use Rattle.type_verifier.specs.Effects.{is_copy, substituted};

use crate::types::{has_copy, substitute, words_of};
use class_model::VType;
use jv_base::{M, OutOfMemory};
use std::alloc::Global;
use std::marker::Model;

/// The types on the stack, which contracts see with the top first.
#[derive(Drop)]
pub struct Stack {
    /// From the bottom to the top.
    items: Vec<VType>,
    words: usize,
}

impl Model for Stack {
    ghost use Rattle.std.specs.Prelude.{◌≡◌, List, reverse};
    ghost use Rattle.class_model.specs.declared.frame.VType.{VType};
    ghost use Rattle.class_model.specs.Frames.{words_of_types};

    ghost Value = { List VType };

    ghost view = { λ s. reverse s.items.items };

    ghost invariant = { λ s. s.words ≡ words_of_types s.items.items };
}

impl Stack {
    /// The stack without a value.
    pub(crate) fn new(alloc: Global) -> Self
        ensures { result ≡ [] }
    {
        Stack {
            items: Vec::new(alloc),
            words: 0,
        }
    }

    /// How many words the values take.
    pub(crate) fn words(&self) -> usize
        ensures { result ≡ words_of_types self.now }
    {
        self.words
    }

    /// The values from the bottom to the top.
    pub(crate) fn from_bottom(&self) -> &[VType]
        ensures { reverse result.now ≡ self.now }
    {
        self.items.as_slice()
    }

    /// Puts a value onto the top.
    pub(crate) fn push(&mut self, ty: VType) -> M<()>
        ensures { OnOk result (self.new ≡ ty ∷ self.old) }
    {
        let words = self.words.checked_add(words_of(&ty));
        let Some(words) = words else {
            return Err(OutOfMemory);
        };
        self.items.push(ty)?;
        self.words = words;
        Ok(())
    }

    /// Takes the value at the top.
    pub(crate) fn pop(&mut self) -> Option<VType>
        ensures { Pops result self.old self.new }
    {
        let ty = self.items.pop()?;
        self.words -= words_of(&ty);
        Some(ty)
    }

    /// Whether there is such an object.
    pub(crate) fn has_copy(&self, old: &VType) -> bool
        ensures { result ≡ list_any (is_copy old.now) self.now }
    {
        has_copy(self.items.as_slice(), old)
    }

    /// Puts another type of one word in place of each such object.
    pub(crate) fn substitute(&mut self, old: &VType, new: &VType) -> M<()>
        requires { words_of_type new.now ≡ 1 }
        ensures { OnOk result (self.new ≡ substituted old.now new.now self.old) }
    {
        substitute_items(&mut self.items, old, new)
    }
}

fn substitute_items(items: &mut Vec<VType>, old: &VType, new: &VType) -> M<()>
    ensures are { OnOk result (items.new.items ≡ substituted old.now new.now items.old.items) }
    ensures words { words_of_type new.now ≡ 1 → words_of_types items.new.items ≡ words_of_types items.old.items }
{
    substitute(items.as_mut_slice(), old, new)
}
