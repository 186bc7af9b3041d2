// The steps of a batch before it writes.
ghost use Rattle.std.specs.Prelude.{◌≡◌, IfOk};
ghost use Rattle.std.specs.List.{AllByRecursion};
ghost use Rattle.command_frame.specs.Steps.{seen};
ghost use Rattle.batch_command.specs.Batch.{IsDue, IsJoined};
ghost use Rattle.batch_command.specs.Finding.{FindsAll};
ghost use Rattle.batch_command.specs.Jobs.{AreAnswers, FollowsApart, FollowsConfigs, FollowsList, IsNamed};

use crate::board::Board;
use crate::configs::{find_configs, look_apart};
use crate::gathering::gather;
use crate::joined::{Batch, batch_of};
use crate::listing::find_jobs;
use crate::work::{JobConfig, Work};
use crate::workers::{hire, new_member, read_beside};
use batch_list::JobFiles;
use command_frame::{Plan, Refusal, Stop};
use job_queue::JobQueue;
use jv_base::{Items, Text};
use std::alloc::Global;
use std::sync::Wait;
use std::thread::Threads;
use tree_io::{Gate, Tree};

/// What the batch of a list is to write and to say.
pub(crate) fn find_batch<R: Threads + Wait + Sync, W: Work + Sync, T: Tree, G: Gate>(
    rt: &R,
    alloc: Global,
    work: &W,
    workers: u32,
    list: &Text,
    gate: &G,
    tree: &mut T,
) -> Result<Batch, Stop>
    requires { W.ready work.now }
    ensures made { IfOk result IsJoined }
    ensures found { FindsAll result (IsDue W.parts list.now)
        (seen (T.files tree.old) (T.faults tree.old) (T.log tree.old))
        (seen (T.files tree.new) (T.faults tree.new) (T.log tree.new)) }
{
    let answers = find_answers(rt, alloc, work, workers, list, gate, tree)?;
    Ok(batch_of(alloc, answers)?)
}

/// What each job of a list is to write and to say.
fn find_answers<R: Threads + Wait + Sync, W: Work + Sync, T: Tree, G: Gate>(
    rt: &R,
    alloc: Global,
    work: &W,
    workers: u32,
    list: &Text,
    gate: &G,
    tree: &mut T,
) -> Result<Items<Result<Plan, Refusal>>, Stop>
    requires { W.ready work.now }
    ensures { FindsAll result (AreAnswers W.parts list.now)
        (seen (T.files tree.old) (T.faults tree.old) (T.log tree.old))
        (seen (T.files tree.new) (T.faults tree.new) (T.log tree.new)) }
{
    let jobs = find_jobs(alloc, list, tree)?;
    answers_of_jobs(rt, alloc, work, workers, list, jobs, gate, tree)
}

fn answers_of_jobs<R: Threads + Wait + Sync, W: Work + Sync, T: Tree, G: Gate>(
    rt: &R,
    alloc: Global,
    work: &W,
    workers: u32,
    list: &Text,
    jobs: Items<JobFiles>,
    gate: &G,
    tree: &mut T,
) -> Result<Items<Result<Plan, Refusal>>, Stop>
    requires { W.ready work.now }
    ensures { FindsAll result (λ fs. FollowsList W.parts list.now fs jobs)
        (seen (T.files tree.old) (T.faults tree.old) (T.log tree.old))
        (seen (T.files tree.new) (T.faults tree.new) (T.log tree.new)) }
{
    let configs = find_configs(alloc, work, jobs, tree)?;
    answers_of_configs(rt, alloc, work, workers, list, configs, gate, tree)
}

fn answers_of_configs<R: Threads + Wait + Sync, W: Work + Sync, T: Tree, G: Gate>(
    rt: &R,
    alloc: Global,
    work: &W,
    workers: u32,
    list: &Text,
    configs: Items<Result<JobConfig, Refusal>>,
    gate: &G,
    tree: &mut T,
) -> Result<Items<Result<Plan, Refusal>>, Stop>
    requires ready { W.ready work.now }
    requires names { AllByRecursion IsNamed configs }
    ensures { FindsAll result (λ fs. FollowsConfigs W.parts list.now fs configs)
        (seen (T.files tree.old) (T.faults tree.old) (T.log tree.old))
        (seen (T.files tree.new) (T.faults tree.new) (T.log tree.new)) }
{
    look_apart(alloc, list, configs.as_slice())?;
    let board = new_board(alloc, configs);
    answers_apart(rt, alloc, work, workers, &board, gate, tree)
}

/// These configs, and an empty queue.
fn new_board(alloc: Global, configs: Items<Result<JobConfig, Refusal>>) -> Board
    ensures { result.configs ≡ configs }
{
    Board {
        configs,
        queue: JobQueue::new(alloc),
    }
}

/// What jobs are to write and to say that are in nobody's way. The caller is one of the workers, of which there are no
/// more than jobs; one who is alone has them all inside the jobs.
fn answers_apart<R: Threads + Wait + Sync, W: Work + Sync, T: Tree, G: Gate>(
    rt: &R,
    alloc: Global,
    work: &W,
    workers: u32,
    board: &Board,
    gate: &G,
    tree: &mut T,
) -> Result<Items<Result<Plan, Refusal>>, Stop>
    requires ready { W.ready work.now }
    requires names { AllByRecursion IsNamed board.now.configs }
    ensures { FindsAll result (λ fs. FollowsApart W.parts fs board.now.configs)
        (seen (T.files tree.old) (T.faults tree.old) (T.log tree.old))
        (seen (T.files tree.new) (T.faults tree.new) (T.log tree.new)) }
{
    let busy = u64::from(workers).min(board.configs.len() as u64) as u32;
    let mut own = new_member(alloc, 0);
    let mut crew = hire(alloc, 1, busy)?;
    let inputs = read_beside(
        rt,
        alloc,
        work,
        board,
        gate,
        crew.as_mut_slice(),
        &mut own,
        tree,
    )?;
    let made = board.all_made::<W>(own, crew)?;
    gather(alloc, work, workers, board, gate, made, inputs)
}
