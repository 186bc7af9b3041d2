// Where a program's text goes.
ghost use Rattle.std.specs.Prelude.{◌≡◌, ◌≤◌, ℕ, List, [], ◌∷◌, ◌++◌, Option};
ghost use Rattle.tree_io.specs.Sink.{Takes};
ghost use Rattle.tree_io.specs.declared.event.Event.{Event};
ghost use Rattle.tree_io.specs.declared.event.Event.TheVariants.{Put};

use crate::PutFault;

/// Takes bytes, one piece after the other.
pub trait Sink {
    /// What it has taken so far, where the sink tells it.
    ghost written: { Self → Option (List ℕ) };

    /// How many calls of the device have failed. It never falls, and stands still at 2^64 - 1.
    ghost faults: { Self → ℕ };

    /// Every call so far with its answer.
    ghost log: { Self → List Event };

    /// Appends bytes.
    ///
    /// # Errors
    ///
    /// `Failed` where the device failed: then a front of the bytes was appended. After
    /// `OutOfMemory` nothing was appended.
    fn put(&mut self, bytes: &[u8]) -> Result<(), PutFault>
        ensures log { log self.new ≡ log self.old ++ Put bytes.now result ∷ [] }
        ensures later { faults self.old ≤ faults self.new }
        ensures takes { Takes result bytes.now (written self.old) (written self.new) (faults self.old)
            (faults self.new) };
}
