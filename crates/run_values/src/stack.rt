// The operand stack of a frame (JVMS 2.6.2).
ghost use Rattle.std.specs.Prelude.{◌≡◌, [], ◌∷◌, ◌++◌, IfOk, OnOk, Some};
ghost use Rattle.jvm_model.specs.Stack.{counts_above, doubled, dropped, many, one_word, split_words, swapped, top};
ghost use Rattle.jvm_model.specs.Stack.{two_words};
ghost use Rattle.jvm_model.specs.Value.{as_int, as_kind, as_long};
ghost use Rattle.run_values.specs.Takes.{Becomes, Takes};
ghost use Rattle.run_values.specs.bodies.Words.{Splits, values_of};

use crate::Value;
use crate::words::Words;
use class_model::Kind;
use jv_base::{Items, M};
use std::alloc::Global;
use std::marker::Model;

/// An operand stack, which contracts see with the top first. There is no bound on it.
#[derive(Drop)]
pub struct Stack {
    /// From the bottom to the top.
    values: Vec<Value>,
}

impl Model for Stack {
    ghost use Rattle.std.specs.Prelude.{List, reverse};
    ghost use Rattle.jvm_model.specs.Value as machine;

    ghost Value = { List machine.Value };

    ghost view = { λ s. reverse s.values.items };
}

impl Stack {
    /// The stack without a value, which takes no memory.
    pub fn new(alloc: Global) -> Self
        ensures { result ≡ [] }
    {
        Stack {
            values: Vec::new(alloc),
        }
    }

    /// Puts a value onto the top.
    pub fn push(&mut self, value: Value) -> M<()>
        ensures { OnOk result (self.new ≡ value ∷ self.old) }
    {
        self.values.push(value)?;
        Ok(())
    }

    /// Takes the value at the top.
    pub fn pop(&mut self) -> Option<Value>
        ensures { Takes (top Some) result self.old self.new }
    {
        self.values.pop()
    }

    /// Takes the value at the top, where it is of a computational type.
    pub fn pop_kind(&mut self, kind: Kind) -> Option<Value>
        ensures { Takes (top (as_kind kind)) result self.old self.new }
    {
        let value = self.pop()?;
        if value.is_of(kind) { Some(value) } else { None }
    }

    /// Takes the int at the top, where there is one.
    pub fn pop_int(&mut self) -> Option<i32>
        ensures { Takes (top as_int) result self.old self.new }
    {
        self.pop()?.as_int()
    }

    /// Takes the long at the top, where there is one.
    pub fn pop_long(&mut self) -> Option<i64>
        ensures { Takes (top as_long) result self.old self.new }
    {
        self.pop()?.as_long()
    }

    /// Takes values of these computational types, the last of which is at the top.
    pub fn pop_many(&mut self, alloc: Global, kinds: &[Kind]) -> M<Option<Items<Value>>>
        ensures { IfOk result (λ taken. Takes (many kinds.now) taken self.old self.new) }
    {
        let mut taken: Vec<Value> = Vec::with_capacity(alloc, kinds.len())?;
        let mut left = kinds.len();
        while left > 0 {
            left -= 1;
            let Some(value) = self.pop_kind(kinds[left]) else {
                return Ok(None);
            };
            taken.push(value)?;
        }
        taken.reverse();
        Ok(Some(Items::from_vec(taken)))
    }

    /// Takes so many ints, in the order in which they were put.
    pub fn pop_counts(&mut self, alloc: Global, count: u8) -> M<Option<Items<i32>>>
        ensures { IfOk result (λ taken. Takes (counts_above count []) taken self.old self.new) }
    {
        let mut taken: Vec<i32> = Vec::with_capacity(alloc, usize::from(count))?;
        for _ in 0..count {
            let Some(number) = self.pop_int() else {
                return Ok(None);
            };
            taken.push(number)?;
        }
        taken.reverse();
        Ok(Some(Items::from_vec(taken)))
    }

    /// Takes so many words away, none, one or two (JVMS 6.5.pop, 6.5.pop2). It says whether they cut no value.
    pub fn drop_words(&mut self, count: u8) -> bool
        ensures { Becomes result (dropped count self.old) self.new }
    {
        self.pop_words(count).is_some()
    }

    /// Puts so many words once more under so many others (JVMS 6.5.dup and the like). It says whether they cut no
    /// value.
    pub fn double_words(&mut self, copied: u8, under: u8) -> M<bool>
        ensures { IfOk result (λ done. Becomes done (doubled copied under self.old) self.new) }
    {
        let Some(upper) = self.pop_words(copied) else {
            return Ok(false);
        };
        let Some(lower) = self.pop_words(under) else {
            return Ok(false);
        };
        let copy = upper.copied()?;
        self.push_words(copy)?;
        self.push_words(lower)?;
        self.push_words(upper)?;
        Ok(true)
    }

    /// Exchanges the two words at the top (JVMS 6.5.swap). It says whether they cut no value.
    pub fn swap_words(&mut self) -> M<bool>
        ensures { IfOk result (λ done. Becomes done (swapped self.old) self.new) }
    {
        let Some(upper) = self.pop_word() else {
            return Ok(false);
        };
        let Some(lower) = self.pop_word() else {
            return Ok(false);
        };
        self.push(upper)?;
        self.push(lower)?;
        Ok(true)
    }

    /// Takes a value of one word.
    fn pop_word(&mut self) -> Option<Value>
        ensures { Splits (λ v. v ∷ []) result (one_word self.old) self.new }
    {
        let value = self.pop()?;
        if value.is_wide() { None } else { Some(value) }
    }

    /// Takes the values of two words.
    fn pop_two_words(&mut self) -> Option<Words>
        ensures { Splits values_of result (two_words self.old) self.new }
    {
        let upper = self.pop()?;
        if upper.is_wide() {
            return Some(Words::OneValue(upper));
        }
        let lower = self.pop_word()?;
        Some(Words::TwoValues { upper, lower })
    }

    /// Takes the values of so many words.
    fn pop_words(&mut self, count: u8) -> Option<Words>
        ensures { Splits values_of result (split_words count self.old) self.new }
    {
        if count == 0 {
            return Some(Words::NoWord);
        }
        if count == 1 {
            return Some(Words::OneValue(self.pop_word()?));
        }
        self.pop_two_words()
    }

    fn push_words(&mut self, words: Words) -> M<()>
        ensures { OnOk result (self.new ≡ values_of words ++ self.old) }
    {
        match words {
            Words::NoWord => Ok(()),
            Words::OneValue(value) => self.push(value),
            Words::TwoValues { upper, lower } => {
                self.push(lower)?;
                self.push(upper)
            }
        }
    }
}
