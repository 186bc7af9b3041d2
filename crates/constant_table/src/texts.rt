// Texts in UTF-16, each stored once, with numbers (JVMS 4.4.7).
ghost use Rattle.std.specs.Prelude.{◌≡◌, [], ℕ, List, Some, IfOk, OnErr, OnOk, if◌then◌else◌, option_copied, slice_get};
ghost use Rattle.std.specs.Map.{lookup};
ghost use Rattle.jv_base.specs.Utf16.{units_of};
ghost use Rattle.class_model.specs.CanonicalPool.{same_text};
ghost use Rattle.constant_table.specs.bodies.Keys.{number_of};
ghost use Rattle.constant_table.specs.bodies.Texts.{HasNumber, HasText, AreNumbers, Grows};

use jv_base::{Items, M, Text, Units, units_of_text};
use key_table::{KeySet, Table};
use std::alloc::Global;
use std::marker::Model;

/// Texts with numbers from 0 on. Contracts see the list of them, each by its units in UTF-16.
#[derive(Drop)]
pub struct Texts {
    units: KeySet<Units>,
    /// The numbers of those that came as UTF-8, so that they aren't turned into UTF-16 again.
    numbers: Table<Text, usize>,
}

impl Model for Texts {
    ghost use Rattle.std.specs.Prelude.{List, ℕ};
    ghost use Rattle.constant_table.specs.bodies.Texts.{AreNumbers};

    ghost Value = { List (List ℕ) };

    ghost view = { λ t. t.units };

    ghost invariant = { λ t. AreNumbers t.units t.numbers };
}

impl Texts {
    /// No texts.
    pub fn new(alloc: Global) -> Self
        ensures { result ≡ [] }
    {
        Texts {
            units: KeySet::new(alloc),
            numbers: Table::new(alloc),
        }
    }

    /// The units of the text of a number, if there is one.
    pub fn get(&self, number: usize) -> Option<&Units>
        ensures { option_copied result ≡ slice_get self.now number }
    {
        self.units.get(number)
    }

    /// The number of the text of these units; where it is missing, how many texts there are.
    pub fn number_of_units(&self, units: &Units) -> usize
        ensures { result ≡ number_of self.now units.now }
    {
        match self.units.place(units) {
            Some(number) => number,
            None => self.units.len(),
        }
    }

    /// The number of a text; where it is missing, how many texts there are.
    pub fn number_of_text(&self, alloc: Global, text: &Text) -> M<usize>
        ensures { IfOk result (λ n. n ≡ number_of self.now (units_of text.now)) }
    {
        match number_kept(&self.numbers, text) {
            Some(number) => Ok(number),
            None => {
                let units = units_of_text(alloc, text)?;
                Ok(self.number_of_units(&units))
            }
        }
    }

    /// The number of the text of these units, which is put behind the others unless it is there.
    pub fn keep_units(&mut self, alloc: Global, units: &Units) -> M<usize>
        ensures text { IfOk result (λ n. HasText self.new n units.now) }
        ensures grows { Grows self.old self.new }
    {
        keep_units(alloc, &mut self.units, units)
    }

    /// The number of a text, which is put behind the others unless it is there.
    pub fn keep_text(&mut self, alloc: Global, text: &Text) -> M<usize>
        ensures text { IfOk result (λ n. HasText self.new n (units_of text.now)) }
        ensures grows { Grows self.old self.new }
    {
        keep_text(alloc, &mut self.units, &mut self.numbers, text)
    }
}

fn keep_units(alloc: Global, texts: &mut KeySet<Units>, units: &Units) -> M<usize>
    ensures number { IfOk result (λ n. HasNumber texts.new n units.now) }
    ensures grows { Grows texts.old texts.new }
{
    match texts.place(units) {
        Some(number) => Ok(number),
        None => keep(texts, Items::from_vec(units.as_slice().to_vec(alloc)?)),
    }
}

fn keep(texts: &mut KeySet<Units>, units: Units) -> M<usize>
    ensures number { IfOk result (λ n. HasNumber texts.new n units) }
    ensures grows { Grows texts.old texts.new }
{
    texts.keep(units)
}

fn keep_text(
    alloc: Global,
    texts: &mut KeySet<Units>,
    numbers: &mut Table<Text, usize>,
    text: &Text,
) -> M<usize>
    requires { AreNumbers texts.old numbers.old }
    ensures text { IfOk result (λ n. HasText texts.new n (units_of text.now)) }
    ensures grows { Grows texts.old texts.new }
    ensures numbers { AreNumbers texts.new numbers.new }
{
    match number_kept(numbers, text) {
        Some(number) => Ok(number),
        None => keep_new(alloc, texts, numbers, text),
    }
}

// The number of a text of which none is kept yet.
fn keep_new(
    alloc: Global,
    texts: &mut KeySet<Units>,
    numbers: &mut Table<Text, usize>,
    text: &Text,
) -> M<usize>
    requires { AreNumbers texts.old numbers.old }
    ensures text { IfOk result (λ n. HasText texts.new n (units_of text.now)) }
    ensures grows { Grows texts.old texts.new }
    ensures numbers { AreNumbers texts.new numbers.new }
{
    let number = keep(texts, units_of_text(alloc, text)?)?;
    put_number(numbers, text, number)?;
    Ok(number)
}

fn number_kept(numbers: &Table<Text, usize>, text: &Text) -> Option<usize>
    ensures { result ≡ lookup (same_text text.now) numbers.now }
{
    numbers.get(text).copied()
}

fn put_number(numbers: &mut Table<Text, usize>, text: &Text, number: usize) -> M<()>
    ensures kept { OnOk result ((other : List ℕ) → lookup (same_text other) numbers.new
        ≡ (if same_text other text.now then Some number else lookup (same_text other) numbers.old)) }
    ensures unchanged { OnErr result (numbers.new ≡ numbers.old) }
{
    numbers.insert(text.clone()?, number)
}
