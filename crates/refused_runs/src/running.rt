// A run of an entry of a set.
ghost use Rattle.std.specs.Prelude.{◌≡◌, IfOk};
ghost use Rattle.class_run.specs.Ended.{ended_after};

use class_pool::ClassSet;
use class_run::{Arg, Ended};
use jv_base::M;
use run_heap::Key;
use std::alloc::Global;

/// `run_class` of `run_entry`.
pub fn run_class(alloc: Global, set: &ClassSet, entry: Key, args: &[Arg], steps: u64) -> M<Ended>
    ensures { IfOk result (λ ended. ended ≡ ended_after set.now entry args.now steps) }
{
    run_entry::run_class(alloc, set, entry, args, steps)
}
