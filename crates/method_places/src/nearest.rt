// The nearest instance method of each number from a class upwards.
//
// A note has the stamp of the class for which it was made, so that none is cleared.
ghost use Rattle.std.specs.Prelude.{◌≡◌, ◌++◌, ◌∷◌, ◌<◌, [], IfOk, List, length, slice_get};
ghost use Rattle.std.specs.List.{All};
ghost use Rattle.method_places.specs.bodies.Nearest.{AreNoted, AreUpTo, IsBefore, front_rows, noted};
ghost use Rattle.method_places.specs.declared.methods.InstanceMethod.{InstanceMethod};

use crate::methods::{InstanceMethod, Openness};
use class_pool::ClassId;
use jv_base::{Items, M};
use std::alloc::Global;

/// The nearest method with a number, for the class with a stamp.
#[derive(Clone, Copy)]
pub struct Note {
    pub stamp: u32,
    pub row: InstanceMethod,
}

/// No class has the stamp 0.
pub fn no_notes(alloc: Global, highest: usize) -> M<Vec<Note>>
    ensures { IfOk result (λ notes. AreUpTo 0 notes.items) }
{
    let row = InstanceMethod {
        class: 0,
        index: 0,
        item: 0,
        openness: Openness::Private,
        number: 0,
    };
    let none = Note { stamp: 0, row };
    Ok(vec![in alloc; none; highest.saturating_add(1)]?)
}

/// Notes the methods of the classes of the program in a chain of superclasses, those of the library being behind them.
pub fn note_chain(
    table: &Items<Items<InstanceMethod>>,
    notes: &mut Vec<Note>,
    stamp: u32,
    chain: &[ClassId],
)
    requires classes { All (λ c. IsBefore (length table.now) c) chain.now }
    requires stamps { All (λ note. note.stamp < stamp) notes.old.items }
    ensures noted { AreNoted stamp (front_rows table.now chain.now) notes.new.items }
    ensures stamps { AreUpTo stamp notes.new.items }
{
    for class in chain {
        let ClassId::Prog(number) = class else {
            return;
        };
        note_rows(notes, stamp, table[*number as usize].as_slice());
    }
}

fn note_rows(notes: &mut Vec<Note>, stamp: u32, rows: &[InstanceMethod])
    requires stamps { AreUpTo stamp notes.old.items }
    ensures noted { (before : List InstanceMethod) → AreNoted stamp before notes.old.items
        → AreNoted stamp (before ++ rows.now) notes.new.items }
    ensures stamps { AreUpTo stamp notes.new.items }
{
    for row in rows {
        note_row(notes, stamp, row);
    }
}

/// Notes a row, unless one with its number is noted.
fn note_row(notes: &mut Vec<Note>, stamp: u32, row: &InstanceMethod)
    requires stamps { AreUpTo stamp notes.old.items }
    ensures noted { (before : List InstanceMethod) → AreNoted stamp before notes.old.items
        → AreNoted stamp (before ++ row.now ∷ []) notes.new.items }
    ensures stamps { AreUpTo stamp notes.new.items }
{
    let at = row.number;
    if at < notes.len() && notes[at].stamp != stamp {
        notes[at] = Note { stamp, row: *row };
    }
}

/// The row that is noted for a number.
pub fn noted(notes: &[Note], stamp: u32, number: usize) -> Option<InstanceMethod>
    ensures { result ≡ noted stamp (slice_get notes.now number) }
{
    let note = notes.get(number)?;
    if note.stamp == stamp {
        Some(note.row)
    } else {
        None
    }
}
