// The run of a batch.
ghost use Rattle.std.specs.Prelude.{◌≡◌, ◌≢◌, ◌⊎◌, ◌≤◌, ◌<◌, IfOk, IsErrOf};
ghost use Rattle.tree_io.specs.Count.{Rose};
ghost use Rattle.tree_io.specs.Runs.{AddsCalls, memory_faults};
ghost use Rattle.command_frame.specs.Output.{outside, output};
ghost use Rattle.batch_command.specs.Answer.{Ended};
ghost use Rattle.batch_command.specs.Batch.{IsDue, IsJoined};
ghost use Rattle.batch_command.specs.bodies.Steps.{CarriesOut, SaysBatch};

use crate::joined::Batch;
use crate::steps::find_batch;
use crate::work::Work;
use class_files::write_files;
use command_frame::{Stop, say_stop, say_text};
use jv_base::Text;
use std::alloc::Global;
use std::sync::Wait;
use std::thread::Threads;
use tree_io::{Gate, Sink, Tree, WriteFault};

/// Does the jobs of a list: finds what each is to write and to say, writes the files of all in the order of the list,
/// says a report of each, and answers the status of the first job whose status isn't 0, or 0. All is read before
/// anything is written, so what a job does is what it would do alone, on the files as they were.
///
/// The list has a line for each job, with the paths of its config and of its witness and one blank between, and at most
/// 64 lines.
///
/// | Status | Comes | Text |
/// |---|---|---|
/// | that of a job | where all reports were said | for each job `job NUMBER`, and what it says |
/// | 2 | where no file stands at the path of the list | `error 2 absent PATH` |
/// | 6 | where the list has more than 67,108,864 bytes or 64 lines, or the class files of all jobs have together more than 67,108,864 bytes | `error 6 limit QUANTITY LIMIT`, with `config`, `jobs` or `batch` |
/// | 7 | only where a count of faults rose, the tree's or (once the files stand) the sink's | `error 7 device` |
/// | 10 | where memory is wanting | `error 10 memory` |
/// | 11 | where a line of the list names no job | `error 11 text LINE BadLine` |
/// | 15 | where a path that a job writes is the list or one that an earlier job reads or writes, lies below such a one or has it below, or an earlier job writes so into what it reads | `error 15 overlap LINE` |
///
/// The list is looked at first, then the config of each job and the earlier mapping that it names, then their paths,
/// then their class files; each job that was refused is left out of what follows. A refusal of a job is told in its
/// report, and the others go on. After a refusal of the batch no file has changed. After 7 and 10 the first of the files
/// to be written may stand; after 7 the next path may hold any bytes.
pub fn run_jobs<R: Threads + Wait + Sync, W: Work + Sync, T: Tree, S: Sink, G: Gate>(
    rt: &R,
    alloc: Global,
    work: &W,
    workers: u32,
    list: &Text,
    tree: &mut T,
    out: &mut S,
    gate: &G,
) -> u8
    requires { W.ready work.now }

    // The words aren't refused.
    ensures words { result ≢ 1 }

    // A device is blamed only where its count rose.
    ensures device { result ≡ 7 → Rose (T.faults tree.old) (T.faults tree.new)
        ⊎ Rose (S.faults out.old) (S.faults out.new) }

    // Where memory was wanting for a call of the tree, the status says so.
    ensures memory { memory_faults (T.log tree.old) < memory_faults (T.log tree.new) → result ≡ 10 }

    // The run has an ending, which tells its status, which device is blamed, what the tree was asked, what became of
    // all files that its answers fit, told ones among them, and what was said.
    ensures ended { Ended (IsDue W.parts list.now) result
        (outside (T.files tree.old) (T.faults tree.old) (T.log tree.old)
        (output (S.written out.old) (S.faults out.old) (S.log out.old)))
        (outside (T.files tree.new) (T.faults tree.new) (T.log tree.new)
        (output (S.written out.new) (S.faults out.new) (S.log out.new))) }
{
    match carry_out(rt, alloc, work, workers, list, gate, tree) {
        Ok(batch) => say_batch(&batch, out),
        Err(stop) => say_stop(alloc, &stop, out),
    }
}

/// Writes the files of all jobs.
fn carry_out<R: Threads + Wait + Sync, W: Work + Sync, T: Tree, G: Gate>(
    rt: &R,
    alloc: Global,
    work: &W,
    workers: u32,
    list: &Text,
    gate: &G,
    tree: &mut T,
) -> Result<Batch, Stop>
    requires { W.ready work.now }
    ensures made { IfOk result IsJoined }
    ensures device { IsErrOf result Stop.Device → Rose (T.faults tree.old) (T.faults tree.new) }
    ensures left { AddsCalls (T.log tree.old) (T.log tree.new) (T.files tree.old) (T.files tree.new)
        (CarriesOut (IsDue W.parts list.now) result) }
{
    let batch = find_batch(rt, alloc, work, workers, list, gate, tree)?;
    match write_files(alloc, &batch.plan.files, tree) {
        Ok(()) => Ok(batch),
        Err(WriteFault::Failed) => Err(Stop::Device),
        Err(WriteFault::OutOfMemory) => Err(Stop::OutOfMemory),
    }
}

/// Says the reports, and answers the status of the jobs.
fn say_batch<S: Sink>(batch: &Batch, out: &mut S) -> u8
    requires { IsJoined batch.now }
    ensures words { result ≢ 1 }
    ensures device { result ≡ 7 → Rose (S.faults out.old) (S.faults out.new) }
    ensures said { SaysBatch batch.now result
        (output (S.written out.old) (S.faults out.old) (S.log out.old))
        (output (S.written out.new) (S.faults out.new) (S.log out.new)) }
{
    match say_text(batch.plan.text.as_slice(), out) {
        0 => batch.status,
        status => status,
    }
}
