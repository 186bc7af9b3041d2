// The instructions of a code by their offsets.
ghost use Rattle.std.specs.Prelude.{◌≡◌, ◌<◌, ◌≤◌, ℕ, OnOk, IfOk, IfSome, length, position, nat_eq};
ghost use Rattle.frame_read.specs.bodies.Numbers.{found, noted};

use jv_base::M;
use std::alloc::Global;
use std::marker::Model;

/// The offsets at which the instructions of a code begin, by which their numbers are found.
#[derive(Drop)]
pub struct Starts<'a> {
    starts: &'a [u32],
    // For each offset the number of the first instruction that begins there, if one does.
    table: Vec<Option<u32>>,
}

impl<'a> Model for Starts<'a> {
    ghost use Rattle.std.specs.Prelude.{◌≡◌, ◌≤◌, ℕ, List, length, position, nat_eq};
    ghost use Rattle.frame_read.specs.bodies.Numbers.{found};

    ghost Value = { List ℕ };

    ghost view = { λ s. s.starts.now };

    ghost invariant = { λ s. ((offset : ℕ) → found s.table.items offset ≡ position (nat_eq offset) s.starts.now)
        × (length s.table.items ≤ 4294967296) };
}

impl<'a> Starts<'a> {
    /// The instructions that begin at these offsets, numbered from 0.
    pub fn new(alloc: Global, starts: &'a [u32]) -> M<Self>
        requires { length starts.now < 4294967295 }
        ensures { IfOk result (λ s. s ≡ starts.now) }
    {
        let table = numbers_of(alloc, starts)?;
        Ok(Starts { starts, table })
    }

    /// The number of the instruction that begins at an offset.
    pub fn number(&self, offset: u64) -> Option<u32>
        ensures number { result ≡ position (nat_eq offset) self.now }
        ensures below { IfSome result (λ _. offset < 4294967296) }
    {
        match self.table.get(offset as usize) {
            Some(Some(number)) => Some(*number),
            _ => None,
        }
    }
}

fn grow(table: &mut Vec<Option<u32>>, count: usize) -> M<()>
    ensures same { (offset : ℕ) → found table.new.items offset ≡ found table.old.items offset }
    ensures long { OnOk result (count ≤ length table.new.items) }
    ensures short { length table.old.items ≤ 4294967296 → count ≤ 4294967296 → length table.new.items ≤ 4294967296 }
{
    for _ in table.len()..count {
        table.push(None)?;
    }
    Ok(())
}

// The first instruction that begins at an offset counts.
fn note(table: &mut Vec<Option<u32>>, start: u32, number: u32) -> M<()>
    requires { length table.old.items ≤ 4294967296 }
    ensures noted { OnOk result ((offset : ℕ) → found table.new.items offset
        ≡ noted (found table.old.items offset) start number offset) }
    ensures short { length table.new.items ≤ 4294967296 }
{
    let start = start as usize;
    grow(table, start + 1)?;
    if table[start].is_none() {
        table[start] = Some(number);
    }
    Ok(())
}

fn numbers_of(alloc: Global, starts: &[u32]) -> M<Vec<Option<u32>>>
    requires { length starts.now < 4294967295 }
    ensures found { IfOk result (λ table. (offset : ℕ) → found table.items offset
        ≡ position (nat_eq offset) starts.now) }
    ensures short { IfOk result (λ table. length table.items ≤ 4294967296) }
{
    let mut table = Vec::new(alloc);
    for (number, start) in starts.iter().enumerate() {
        note(&mut table, *start, number as u32)?;
    }
    Ok(table)
}
