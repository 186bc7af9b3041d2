// A tree of files, as a program sees it.
ghost use Rattle.std.specs.Prelude.{◌≡◌, ◌≤◌, ℕ, List, [], ◌∷◌, ◌++◌, Option, length, IfOk, IfSome, OnOk, IsErrOf};
ghost use Rattle.std.specs.FinMap as map;
ghost use Rattle.tree_io.specs.Below.{IsAscending};
ghost use Rattle.tree_io.specs.Count.{Rose};
ghost use Rattle.tree_io.specs.Files.{Files, put_at, MayChangeAt};
ghost use Rattle.tree_io.specs.Runs.{Tells};
ghost use Rattle.tree_io.specs.Tree.{due_list, due_read, Lists, ReadsFile};
ghost use Rattle.tree_io.specs.declared.event.Event.{Event};
ghost use Rattle.tree_io.specs.declared.event.Event.TheVariants.{Listed, Read, Wrote};

use crate::{ListFault, ReadFault, WriteFault};
use jv_base::{Bytes, Items, Text};
use std::alloc::Global;

/// Files under paths whose parts are joined by `/`.
///
/// There are no directories beside the files in them: one without files is the same as none.
pub trait Tree {
    /// The files, where the tree tells them.
    ghost files: { Self → Option Files };

    /// How many calls of the device have failed. It never falls, and stands still at 2^64 - 1.
    ghost faults: { Self → ℕ };

    /// Every call so far with its answer.
    ghost log: { Self → List Event };

    /// The paths below a directory, each without the directory and the `/` after it, in ascending
    /// order of their bytes. No file changes.
    ///
    /// # Errors
    ///
    /// `TooMany` where there are more than `max`, `Failed` where the device failed.
    fn list(&mut self, alloc: Global, dir: &Text, max: u32) -> Result<Items<Text>, ListFault>
        ensures log { log self.new ≡ log self.old ++ Listed dir.now max result ∷ [] }
        ensures fits { Tells (files self.old) (files self.new) (Listed dir.now max result ∷ []) }
        ensures files { files self.new ≡ files self.old }
        ensures later { faults self.old ≤ faults self.new }
        ensures failed { IsErrOf result ListFault.Failed → Rose (faults self.old) (faults self.new) }
        ensures count { IfOk result (λ paths. length paths ≤ max) }
        ensures ascending { IfOk result (λ paths. IsAscending paths) }
        ensures told { IfSome (files self.old) (λ fs. Lists result (due_list fs dir.now max)) }
        ensures no_fault { IsErrOf result ListFault.OutOfMemory → faults self.new ≡ faults self.old };

    /// The bytes of a file. No file changes.
    ///
    /// # Errors
    ///
    /// `Absent` where no file stands at the path, `TooLong` where it has more than `max` bytes,
    /// `Failed` where the device failed.
    fn read(&mut self, alloc: Global, path: &Text, max: u64) -> Result<Bytes, ReadFault>
        ensures log { log self.new ≡ log self.old ++ Read path.now max result ∷ [] }
        ensures fits { Tells (files self.old) (files self.new) (Read path.now max result ∷ []) }
        ensures files { files self.new ≡ files self.old }
        ensures later { faults self.old ≤ faults self.new }
        ensures failed { IsErrOf result ReadFault.Failed → Rose (faults self.old) (faults self.new) }
        ensures length { IfOk result (λ bytes. length bytes ≤ max) }
        ensures told { IfSome (files self.old) (λ fs. ReadsFile result (due_read (map.get fs path.now) max)) }
        ensures no_fault { IsErrOf result ReadFault.OutOfMemory → faults self.new ≡ faults self.old };

    /// Puts bytes at a path, in place of any before.
    ///
    /// # Errors
    ///
    /// `Failed` where the device failed: then the path may hold any bytes, and all else is as it
    /// was. After `OutOfMemory` nothing has changed.
    fn write(&mut self, alloc: Global, path: &Text, bytes: &[u8]) -> Result<(), WriteFault>
        ensures log { log self.new ≡ log self.old ++ Wrote path.now bytes.now result ∷ [] }
        ensures fits { Tells (files self.old) (files self.new) (Wrote path.now bytes.now result ∷ []) }
        ensures later { faults self.old ≤ faults self.new }
        ensures ok { OnOk result (files self.new ≡ put_at (files self.old) path.now bytes.now) }
        ensures failed { IsErrOf result WriteFault.Failed → Rose (faults self.old) (faults self.new) }
        ensures partly { IsErrOf result WriteFault.Failed → MayChangeAt path.now (files self.old) (files self.new) }
        ensures no_memory { IsErrOf result WriteFault.OutOfMemory → files self.new ≡ files self.old }
        ensures no_fault { IsErrOf result WriteFault.OutOfMemory → faults self.new ≡ faults self.old };
}
