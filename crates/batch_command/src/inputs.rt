// The class files of the jobs.
ghost use Rattle.std.specs.Prelude.{◌≡◌, ◌≤◌, IfOk, length};
ghost use Rattle.class_files.specs.Input.{total};
ghost use Rattle.command_frame.specs.Steps.{seen};
ghost use Rattle.batch_command.specs.Finding.{FindsAll};
ghost use Rattle.batch_command.specs.Jobs.{AreClassFiles};
ghost use Rattle.batch_command.specs.bodies.Steps.{HasRoom};
ghost use Rattle.batch_command.specs.bodies.Workers.{AreFound, IsFound, AreTaken, bytes_of};

use crate::board::{Board, Job};
use crate::configs::{caught, put};
use crate::shared_files::SharedFiles;
use crate::work::{JobConfig, Work};
use command_frame::{Quantity, Refusal, Stop};
use jv_base::{Items, M};
use std::alloc::Global;
use std::sync::Wait;
use tree_io::{FileAt, Tree};

/// How many bytes the class files of all jobs may have together.
const MOST_BYTES: u64 = 67_108_864;

/// The class files of each job that has a config, or why it is refused. Nothing more is read once they have too many
/// bytes. Each job goes into the queue as soon as it was read, where there are workers to take it.
pub(crate) fn find_inputs<R: Wait, W: Work, T: Tree>(
    rt: &R,
    alloc: Global,
    work: &W,
    board: &Board,
    queues: bool,
    tree: &mut T,
) -> Result<Items<Result<SharedFiles, Refusal>>, Stop>
    requires { W.ready work.now }
    ensures count { IfOk result (λ inputs. length inputs ≡ length board.now.configs) }
    ensures found { FindsAll result (λ fs. AreFound W.parts fs board.now.configs)
        (seen (T.files tree.old) (T.faults tree.old) (T.log tree.old))
        (seen (T.files tree.new) (T.faults tree.new) (T.log tree.new)) }
{
    let mut inputs = Items::new(alloc);
    let mut room = MOST_BYTES;
    for at in 0..board.configs.len() {
        let found = caught(find_input(alloc, work, &board.configs[at], tree))?;
        room = room_behind(alloc, room, bytes_of(&found))?;
        let shared = share(alloc, found)?;
        if queues {
            queue_job(rt, board, at, &shared)?;
        }
        put(&mut inputs, shared)?;
    }
    Ok(inputs)
}

/// The room that so many bytes leave, where they have room.
fn room_behind(alloc: Global, room: u64, bytes: u64) -> Result<u64, Stop>
    ensures { HasRoom room bytes result }
{
    if bytes > room {
        return Err(Stop::Refused(Quantity::Batch.passed(alloc)?));
    }
    Ok(room - bytes)
}

/// The class files of a job that has a config.
fn find_input<W: Work, T: Tree>(
    alloc: Global,
    work: &W,
    config: &Result<JobConfig, Refusal>,
    tree: &mut T,
) -> Result<Items<FileAt>, Stop>
    requires { W.ready work.now }
    ensures taken { IfOk result AreClassFiles }
    ensures found { FindsAll result (λ fs. IsFound W.parts fs config.now)
        (seen (T.files tree.old) (T.faults tree.old) (T.log tree.old))
        (seen (T.files tree.new) (T.faults tree.new) (T.log tree.new)) }
{
    match config {
        Ok(config) => work.find_input(alloc, &config.rules, tree),
        Err(refusal) => Err(Stop::Refused(again(refusal)?)),
    }
}

/// The same refusal.
pub(crate) fn again(refusal: &Refusal) -> M<Refusal>
    ensures { IfOk result (λ other. other ≡ refusal.now) }
{
    Ok(Refusal {
        reason: refusal.reason,
        told: refusal.told.clone()?,
    })
}

/// The class files of a job, for several threads.
fn share(alloc: Global, found: Result<Items<FileAt>, Refusal>) -> M<Result<SharedFiles, Refusal>>
    requires { AreTaken found }
    ensures { IfOk result (λ shared. shared ≡ found) }
{
    match found {
        Ok(files) => Ok(Ok(SharedFiles::new(alloc, files)?)),
        Err(refusal) => Ok(Err(refusal)),
    }
}

/// Hands a job to the workers. One that the queue doesn't take is left to the caller.
fn queue_job<R: Wait>(
    rt: &R,
    board: &Board,
    number: usize,
    shared: &Result<SharedFiles, Refusal>,
) -> M<()> {
    if let Ok(files) = shared {
        let job = Job {
            number,
            files: files.again()?,
        };
        let _refused = board.queue.put(rt, job);
    }
    Ok(())
}

/// How many bytes the class files of a job have together.
fn bytes_of(found: &Result<Items<FileAt>, Refusal>) -> u64
    requires { AreTaken found.now }
    ensures { result ≡ bytes_of found.now }
{
    match found {
        Ok(files) => total(files.as_slice()),
        Err(_) => 0,
    }
}

fn total(files: &[FileAt]) -> u64
    requires { total files.now ≤ 67108864 }
    ensures { result ≡ total files.now }
{
    let mut sum = 0;
    for at in 0..files.len() {
        sum += files[at].bytes.len() as u64;
    }
    sum
}
