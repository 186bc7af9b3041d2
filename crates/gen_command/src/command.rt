// The command.
ghost use Rattle.std.specs.Prelude.{◌≡◌, ◌≤◌};
ghost use Rattle.command_frame.specs.Steps.{Finds, seen};
ghost use Rattle.gen_command.specs.Due.{IsDue, IsEmptied, plan_for};

use crate::planning::plan_of;
use command_frame::{Command, Plan, Reason, Refusal, Stop};
use jv_base::Text;
use std::alloc::Global;
use tree_io::{ListFault, Tree};

/// The set and the directory of `gen NUMBER DIRECTORY`, which writes the classes of `generate` (`gen_classes`) below a
/// directory in which no file lies: 2 for each number below NUMBER, and an interface. NUMBER is at most 4,000.
///
/// | Status | Comes | Text |
/// |---|---|---|
/// | 0 | where the files were written | `classes` and their number |
/// | 7 | only where a count of faults rose, the tree's or (once the files stand) the sink's | `error 7 device` |
/// | 8 | where a file lies below DIRECTORY | `error 8 not-empty DIRECTORY` |
/// | 10 | where memory is wanting | `error 10 memory` |
///
/// After 8 no file has changed. After 7 and 10 the first of the files may stand, in the order of their paths; after 7
/// the next path may hold any bytes.
#[derive(Drop)]
pub struct GenFiles {
    pub number: u32,
    pub directory: Text,
}

impl Command for GenFiles {
    ghost ready = { λ named. named.number ≤ 4000 };

    ghost plans = { λ named plan. plan ≡ plan_for named };

    ghost due = { IsDue };

    fn due_plan<T: Tree>(&self, alloc: Global, tree: &mut T) -> Result<Plan, Stop> {
        check_empty(alloc, &self.directory, tree)?;
        plan_of(alloc, self)
    }
}

/// Whether no file lies below a directory.
fn check_empty<T: Tree>(alloc: Global, directory: &Text, tree: &mut T) -> Result<(), Stop>
    ensures { Finds result (λ fs. IsEmptied fs directory.now)
        (seen (T.files tree.old) (T.faults tree.old) (T.log tree.old))
        (seen (T.files tree.new) (T.faults tree.new) (T.log tree.new)) }
{
    match tree.list(alloc, directory, 0) {
        Ok(_) => Ok(()),
        Err(ListFault::TooMany) => Err(Stop::Refused(Refusal {
            reason: Reason::NotEmpty,
            told: directory.clone()?,
        })),
        Err(ListFault::Failed) => Err(Stop::Device),
        Err(ListFault::OutOfMemory) => Err(Stop::OutOfMemory),
    }
}
