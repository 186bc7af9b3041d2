// Runs of an entry.
ghost use Rattle.std.specs.Prelude.{◌≡◌, IfOk};
ghost use Rattle.class_run.specs.Ended.{ended_after};

use crate::arguments::started;
use crate::ending::ended_of;
use class_pool::ClassSet;
use class_run::{Arg, Ended};
use jv_base::M;
use run_heap::Key;
use run_machine::{State, run};
use set_program::SetProgram;
use std::alloc::Global;

/// What a run of an entry of a set has come to after so many steps. The entry is meant to be one with which a run may
/// begin (`is_startable` of `set_program`), and the arguments to be of its parameters' types.
pub fn run_class(alloc: Global, set: &ClassSet, entry: Key, args: &[Arg], steps: u64) -> M<Ended>
    ensures { IfOk result (λ ended. ended ≡ ended_after set.now entry args.now steps) }
{
    let started = started(alloc, args)?;
    let mut state = State::start(alloc, entry, started.heap, started.args)?;
    let program = SetProgram::of(alloc, set)?;
    run(alloc, &program, &mut state, steps)?;
    ended_of(alloc, &state)
}
