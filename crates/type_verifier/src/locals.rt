// The local variables (JVMS 4.10.1.6, 4.10.1.7).
ghost use Rattle.std.specs.Prelude.{◌≡◌, ◌≤◌, ◌+◌, OnOk, length, option_copied, slice_get};
ghost use Rattle.class_model.specs.Frames.{words_of_type};
ghost use Rattle.type_verifier.specs.Effects.{cut_before, put_local, substituted};

use crate::types::{substitute, words_of};
use class_model::VType;
use jv_base::M;
use std::marker::Model;

/// What each word of the locals holds: behind a long stands Top.
#[derive(Drop)]
pub struct Locals {
    slots: Vec<VType>,
}

impl Model for Locals {
    ghost use Rattle.std.specs.Prelude.{List};
    ghost use Rattle.class_model.specs.declared.frame.VType.{VType};

    ghost Value = { List VType };

    ghost view = { λ l. l.slots.items };
}

impl Locals {
    /// Locals that hold this word by word.
    pub(crate) fn from_words(slots: Vec<VType>) -> Self
        ensures { result ≡ slots.items }
    {
        Locals { slots }
    }

    /// How many words there are.
    pub(crate) fn len(&self) -> usize
        ensures { result ≡ length self.now }
    {
        self.slots.len()
    }

    /// All words.
    pub(crate) fn as_slice(&self) -> &[VType]
        ensures { result.now ≡ self.now }
    {
        self.slots.as_slice()
    }

    /// What a word holds, if there is such a word.
    pub(crate) fn get(&self, slot: usize) -> Option<&VType>
        ensures { option_copied result ≡ slice_get self.now slot }
    {
        self.slots.as_slice().get(slot)
    }

    /// Puts a value into a local.
    pub(crate) fn put(&mut self, slot: usize, ty: VType)
        requires { slot + words_of_type ty ≤ length self.old }
        ensures { self.new ≡ put_local slot ty self.old }
    {
        put_local(self.slots.as_mut_slice(), slot, ty);
    }

    /// Puts another type in place of each such object.
    pub(crate) fn substitute(&mut self, old: &VType, new: &VType) -> M<()>
        ensures { OnOk result (self.new ≡ substituted old.now new.now self.old) }
    {
        substitute(self.slots.as_mut_slice(), old, new)
    }
}

fn put_local(slots: &mut [VType], slot: usize, ty: VType)
    requires { slot + words_of_type ty ≤ length slots.old }
    ensures { slots.new ≡ put_local slot ty slots.old }
{
    cut_before(slots, slot);
    let wide = words_of(&ty) == 2;
    slots[slot] = ty;
    if wide {
        slots[slot + 1] = VType::Top;
    }
}

/// A long in the word before loses its second word.
fn cut_before(slots: &mut [VType], slot: usize)
    requires { slot ≤ length slots.old }
    ensures { slots.new ≡ cut_before slot slots.old }
{
    if slot == 0 {
        return;
    }
    if words_of(&slots[slot - 1]) == 2 {
        slots[slot - 1] = VType::Top;
    }
}
