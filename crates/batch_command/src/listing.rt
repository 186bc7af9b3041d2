// The list of the jobs.
ghost use Rattle.std.specs.Prelude.{◌≡◌, ◌<◌, IfOk, length};
ghost use Rattle.command_frame.specs.Steps.{Finds, Makes, seen};
ghost use Rattle.batch_command.specs.Jobs.{AreJobs, AreListed, list_refused};

use batch_list::{JobFiles, ListFault, read_list};
use command_frame::{Quantity, Refusal, Stop, faulty_text, read_file};
use jv_base::{Items, M, Or, Text};
use std::alloc::Global;
use tree_io::Tree;

/// The jobs of the list at a path.
pub(crate) fn find_jobs<T: Tree>(
    alloc: Global,
    list: &Text,
    tree: &mut T,
) -> Result<Items<JobFiles>, Stop>
    ensures { Finds result (λ fs. AreListed fs list.now)
        (seen (T.files tree.old) (T.faults tree.old) (T.log tree.old))
        (seen (T.files tree.new) (T.faults tree.new) (T.log tree.new)) }
{
    let bytes = read_file(alloc, Quantity::Config, list, tree)?;
    jobs_in(alloc, bytes.as_slice())
}

/// The jobs that bytes list.
fn jobs_in(alloc: Global, bytes: &[u8]) -> Result<Items<JobFiles>, Stop>
    requires { length bytes.now < 4294967295 }
    ensures { Makes result (AreJobs bytes.now) }
{
    match read_list(alloc, bytes) {
        Ok(jobs) => Ok(jobs),
        Err(Or::Fault(fault)) => Err(Stop::Refused(refused_list(alloc, fault)?)),
        Err(Or::OutOfMemory) => Err(Stop::OutOfMemory),
    }
}

/// The bytes are no list.
fn refused_list(alloc: Global, fault: ListFault) -> M<Refusal>
    ensures { IfOk result (λ refusal. refusal ≡ list_refused fault) }
{
    match fault {
        ListFault::BadLine(line) => faulty_text(alloc, line, "BadLine"),
        ListFault::TooMany => Quantity::Jobs.passed(alloc),
    }
}
