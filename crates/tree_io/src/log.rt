// The calls that were made, with their answers. They stand in proofs alone.
ghost use Rattle.std.specs.Prelude.{◌≡◌, List, []};
ghost use Rattle.std.specs.Borrow.{ftrue};
ghost use Rattle.tree_io.specs.declared.event.Event.{Event};

use crate::event::Note;
use std::marker::Model;

/// The calls so far. It takes no memory, and its calls do nothing when the program runs.
#[derive(Drop)]
pub struct Log {
    pub ghost events: { List Event },
}

impl Model for Log {
    ghost also_owns = { λ _. ftrue };
}

impl Log {
    ghost use Rattle.tree_io.specs.Event.{noted};

    /// No call yet.
    pub fn new() -> Log
        ensures { result.events ≡ [] }
    {
        Log {}
    }

    /// One call more.
    #[inline(always)]
    pub fn then(&self, _note: &Note<'_>) -> Log
        ensures { result.events ≡ noted self.now.events _note.now }
    {
        Log {}
    }
}
