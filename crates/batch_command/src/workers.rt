// Workers in threads: each takes jobs and makes their plans, while the caller reads.
ghost use Rattle.std.specs.Prelude.{◌≡◌, length, IfOk, IfSome};
ghost use Rattle.std.specs.List.{All, AllByRecursion};
ghost use Rattle.std.specs.Thread.{IsSync};
ghost use Rattle.command_frame.specs.Steps.{seen};
ghost use Rattle.batch_command.specs.Finding.{FindsAll, MakesAll};
ghost use Rattle.batch_command.specs.Jobs.{HasNames, IsNamed, input_of};
ghost use Rattle.batch_command.specs.bodies.Workers.{AreFound, IsFresh, IsMade, MakesDue};

use crate::board::{Board, Job, Made, Member};
use crate::configs::caught;
use crate::inputs::find_inputs;
use crate::shared_files::SharedFiles;
use crate::work::{JobConfig, Work};
use command_frame::{Plan, Refusal, Stop};
use jv_base::{Items, M};
use std::alloc::Global;
use std::sync::Wait;
use std::thread::{Threads, for_each_mut, join_mut};
use tree_io::{Gate, Tree, Turn};

/// So many workers, of which the first one has this number.
pub(crate) fn hire(alloc: Global, first: u32, end: u32) -> M<Vec<Member>>
    ensures { IfOk result (λ crew. All IsFresh crew.items) }
{
    let mut crew = Vec::new(alloc);
    for number in first..end {
        crew.push(new_member(alloc, number))?;
    }
    Ok(crew)
}

/// A worker that made nothing yet.
pub(crate) fn new_member(alloc: Global, number: u32) -> Member
    ensures { IsFresh result }
{
    Member {
        number,
        made: Vec::new(alloc),
    }
}

/// Reads the class files of all jobs, while the crew makes plans of those that were read. Behind that the caller makes
/// plans too, until nothing is left. Where no thread can be made the crew comes last, and finds nothing; where there is
/// no crew the caller reads alone.
pub(crate) fn read_beside<R: Threads + Wait + Sync, W: Work + Sync, T: Tree, G: Gate>(
    rt: &R,
    alloc: Global,
    work: &W,
    board: &Board,
    gate: &G,
    crew: &mut [Member],
    own: &mut Member,
    tree: &mut T,
) -> Result<Items<Result<SharedFiles, Refusal>>, Stop>
    requires ready { W.ready work.now }
    requires names { AllByRecursion IsNamed board.now.configs }
    requires crew { All (MakesDue W.parts board.now.configs) crew.old }
    requires own { MakesDue W.parts board.now.configs own.old }
    ensures crew { All (MakesDue W.parts board.now.configs) crew.new }
    ensures own { MakesDue W.parts board.now.configs own.new }
    ensures count { IfOk result (λ inputs. length inputs ≡ length board.now.configs) }
    ensures found { FindsAll result (λ fs. AreFound W.parts fs board.now.configs)
        (seen (T.files tree.old) (T.faults tree.old) (T.log tree.old))
        (seen (T.files tree.new) (T.faults tree.new) (T.log tree.new)) }
{
    if crew.is_empty() {
        return find_inputs(rt, alloc, work, board, false, tree);
    }
    let mut help = ||
        requires { IsSync R.row × IsSync W.row × IsSync G.row × W.ready work.now
            × AllByRecursion IsNamed board.now.configs × All (MakesDue W.parts board.now.configs) crew.now }
        ensures { All (MakesDue W.parts board.entry.now.configs) crew.exit.now }
    { work_all(rt, alloc, work, board, gate, crew) };
    let mut read = || -> Result<Items<Result<SharedFiles, Refusal>>, Stop>
        requires { W.ready work.now × AllByRecursion IsNamed board.now.configs
            × MakesDue W.parts board.now.configs own.now }
        ensures own { MakesDue W.parts board.entry.now.configs own.exit.now }
        ensures count { IfOk result (λ inputs. length inputs ≡ length board.entry.now.configs) }
        ensures found { FindsAll result (λ fs. AreFound W.parts fs board.entry.now.configs)
            (seen (T.files tree.entry.now) (T.faults tree.entry.now) (T.log tree.entry.now))
            (seen (T.files tree.exit.now) (T.faults tree.exit.now) (T.log tree.exit.now)) }
    { read_and_work(rt, alloc, work, board, gate, own, tree) };
    join_mut(rt, &mut help, &mut read).1
}

/// All workers of the crew, each in a thread of its own.
fn work_all<R: Threads + Wait + Sync, W: Work + Sync, G: Gate>(
    rt: &R,
    alloc: Global,
    work: &W,
    board: &Board,
    gate: &G,
    crew: &mut [Member],
)
    requires ready { W.ready work.now }
    requires names { AllByRecursion IsNamed board.now.configs }
    requires crew { All (MakesDue W.parts board.now.configs) crew.old }
    ensures { All (MakesDue W.parts board.now.configs) crew.new }
{
    let threads = crew.len();
    if threads == 0 {
        return;
    }
    let each = |_place: usize, member: &mut Member|
        requires { W.ready work.now × AllByRecursion IsNamed board.now.configs
            × MakesDue W.parts board.now.configs member.old }
        ensures { MakesDue W.parts board.entry.now.configs member.new }
    { work_on(rt, alloc, work, board, gate, member) };
    for_each_mut(rt, crew, threads, &each);
}

/// Reads the class files of all jobs, which go into the queue, closes it, and works until nothing is left in it.
fn read_and_work<R: Wait, W: Work, T: Tree, G: Gate>(
    rt: &R,
    alloc: Global,
    work: &W,
    board: &Board,
    gate: &G,
    own: &mut Member,
    tree: &mut T,
) -> Result<Items<Result<SharedFiles, Refusal>>, Stop>
    requires ready { W.ready work.now }
    requires names { AllByRecursion IsNamed board.now.configs }
    requires own { MakesDue W.parts board.now.configs own.old }
    ensures own { MakesDue W.parts board.now.configs own.new }
    ensures count { IfOk result (λ inputs. length inputs ≡ length board.now.configs) }
    ensures found { FindsAll result (λ fs. AreFound W.parts fs board.now.configs)
        (seen (T.files tree.old) (T.faults tree.old) (T.log tree.old))
        (seen (T.files tree.new) (T.faults tree.new) (T.log tree.new)) }
{
    let inputs = find_inputs(rt, alloc, work, board, true, tree);
    board.queue.close(rt);
    if inputs.is_ok() {
        work_on(rt, alloc, work, board, gate, own);
    } else {
        drop_jobs(rt, board);
    }
    inputs
}

/// Takes all jobs that wait, so that nobody does them.
fn drop_jobs<R: Wait>(rt: &R, board: &Board) {
    for _ in 0..board.configs.len() {
        if board.queue.take(rt).is_none() {
            break;
        }
    }
}

/// One worker: it takes jobs and makes their plans, until the queue is closed and empty.
fn work_on<R: Wait, W: Work, G: Gate>(
    rt: &R,
    alloc: Global,
    work: &W,
    board: &Board,
    gate: &G,
    member: &mut Member,
)
    requires ready { W.ready work.now }
    requires names { AllByRecursion IsNamed board.now.configs }
    requires made { MakesDue W.parts board.now.configs member.old }
    ensures { MakesDue W.parts board.now.configs member.new }
{
    for _ in 0..board.configs.len() {
        let Some(job) = board.queue.take(rt) else {
            break;
        };
        gate.turn(member.number, Turn::Took);
        do_job(alloc, work, board, job, &mut member.made);
        gate.turn(member.number, Turn::Finished);
    }
    gate.turn(member.number, Turn::Left);
}

/// Makes the plan of a job. One for which memory is wanting is left to the caller.
fn do_job<W: Work>(alloc: Global, work: &W, board: &Board, job: Job, made: &mut Vec<Made>)
    requires ready { W.ready work.now }
    requires names { AllByRecursion IsNamed board.now.configs }
    requires made { All (IsMade W.parts board.now.configs) made.old.items }
    ensures { All (IsMade W.parts board.now.configs) made.new.items }
{
    if let Some(one) = make(alloc, work, board, job) {
        let _refused = made.push(one);
    }
}

/// What is made of a job, where memory isn't wanting.
fn make<W: Work>(alloc: Global, work: &W, board: &Board, job: Job) -> Option<Made>
    requires ready { W.ready work.now }
    requires names { AllByRecursion IsNamed board.now.configs }
    ensures { IfSome result (IsMade W.parts board.now.configs) }
{
    let Some(Ok(config)) = board.configs.get(job.number) else {
        return None;
    };
    let files = job.files.again().ok()?;
    let answer = caught(make_plan(alloc, work, 1, config, job.files)).ok()?;
    Some(Made {
        number: job.number,
        files,
        answer,
    })
}

/// The plan of a job with a config and class files, and with so many workers inside.
pub(crate) fn make_plan<W: Work>(
    alloc: Global,
    work: &W,
    workers: u32,
    config: &JobConfig,
    files: SharedFiles,
) -> Result<Plan, Stop>
    requires ready { W.ready work.now }
    requires names { HasNames config.now }
    ensures { MakesAll result (W.parts.plan (input_of config.now files)) }
{
    let inputs = files.into_files()?;
    work.make_plan(alloc, workers, config, inputs)
}
