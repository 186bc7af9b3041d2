// A batch of shrinks: words in, a status out.
ghost use Rattle.std.specs.Prelude.{◌≡◌, ◌≢◌, ◌⊎◌, ◌<◌, IfOk, None, Some};
ghost use Rattle.std.specs.Thread.{IsSync};
ghost use Rattle.mark_core.specs.Marks.{Marks};
ghost use Rattle.mark_core.specs.Valid.{Valid};
ghost use Rattle.tree_io.specs.Count.{Rose};
ghost use Rattle.tree_io.specs.Runs.{memory_faults};
ghost use Rattle.batch_command.specs.Jobs.{HasNames};
ghost use Rattle.command_frame.specs.Output.{outside, output};
ghost use Rattle.command_frame.specs.Steps.{Finds, seen};
ghost use Rattle.command_words.specs.Batch.{batch_commanded};
ghost use Rattle.shrink_command.specs.Marking.{FindsMarks};
ghost use Rattle.shrink_core.specs.Batches.{DoesBatch, IsApplied, RanBatch, shrink_parts};

use crate::command::{MOST_WORKERS, refuse_words};
use batch_command::{JobConfig, Work, run_jobs};
use batch_list::JobFiles;
use command_frame::{Plan, Stop, say_no_memory};
use command_steps::{find_config_apart, find_earlier, find_files};
use command_words::{Batch, read_batch};
use jv_base::{Items, M, Text};
use keep_rules::Rules;
use mark_core::System;
use mark_words::Marked;
use mark_workers::mark_all;
use shrink_command::{check_empty, plan_of};
use std::alloc::Global;
use std::sync::Wait;
use std::thread::Threads;
use tree_io::{FileAt, Gate, OpenGate, Sink, Tree};

/// What each job of a batch does: it shrinks, as `shrink` does with the same config and witness.
#[derive(Drop)]
struct Shrinks<'r, Rt> {
    /// Has the threads in which a job marks, edits and writes classes.
    rt: &'r Rt,
}

impl<'r, Rt: Threads + Sync> Work for Shrinks<'r, Rt> {
    ghost ready = { λ shrinks. IsSync Rt.row };

    ghost parts = { shrink_parts };

    fn find_config<T: Tree>(
        &self,
        alloc: Global,
        job: JobFiles,
        tree: &mut T,
    ) -> Result<JobConfig, Stop> {
        let rules = find_config_apart(alloc, &job.config, &job.witness, tree)?;
        find_applied(alloc, job, rules, tree)
    }

    fn find_input<T: Tree>(
        &self,
        alloc: Global,
        rules: &Rules,
        tree: &mut T,
    ) -> Result<Items<FileAt>, Stop> {
        check_empty(alloc, &rules.out_dir, tree)?;
        find_files(alloc, &rules.in_dir, tree)
    }

    fn make_plan(
        &self,
        alloc: Global,
        workers: u32,
        config: &JobConfig,
        inputs: Items<FileAt>,
    ) -> Result<Plan, Stop> {
        let rt = self.rt;
        let workers = workers.clamp(1, MOST_WORKERS);
        let mark = |sys: &System| -> M<Marked>
            requires { IsSync Rt.row × Valid sys.now }
            ensures { IfOk result (Marks sys.now) }
        { mark_all(rt, alloc, sys, workers.clamp(1, MOST_WORKERS), &OpenGate) };
        plan_of(
            rt,
            workers as usize,
            &mark,
            alloc,
            &config.rules,
            &config.earlier,
            &config.files.witness,
            inputs,
        )
    }
}

/// The config of a job with these rules, and the earlier mapping that they name.
fn find_applied<T: Tree>(
    alloc: Global,
    files: JobFiles,
    rules: Rules,
    tree: &mut T,
) -> Result<JobConfig, Stop>
    ensures names { IfOk result HasNames }
    ensures found { Finds result (λ fs. IsApplied fs files rules)
        (seen (T.files tree.old) (T.faults tree.old) (T.log tree.old))
        (seen (T.files tree.new) (T.faults tree.new) (T.log tree.new)) }
{
    let earlier = find_earlier(alloc, &rules.apply, tree)?;
    Ok(JobConfig {
        files,
        rules,
        earlier,
    })
}

/// Runs a batch and answers the status with which the program ends. The words are read by `read_batch` of
/// `command_words`: `batch LIST`. Each line of the list names the config and the witness of a job, which does what
/// `shrink` would do with them alone (`run_jobs` of `batch_command` tells in what order and with which statuses).
///
/// | Status | Comes | Text |
/// |---|---|---|
/// | that of a job | where all reports were said | for each job `job NUMBER`, and what it says |
/// | 1 | where the words ask for no batch | `error 1 words` |
/// | 2, 6, 11, 15 | where a refusal of the whole batch is due | `error STATUS WORD ..` |
/// | 7 | only where a count of faults rose, the tree's or (once the files stand) the sink's | `error 7 device` |
/// | 10 | where memory is wanting | `error 10 memory` |
///
/// So many jobs are done at a time as there are workers, the caller among them, and each with one worker inside; a job
/// that is alone, or all where there is one worker, has all workers inside. The gate is told of each job that a worker
/// took and of each that it finished; the caller is worker 0. That the call returns isn't promised, since it takes locks.
pub fn run_batch<Rt: Threads + Wait + Sync, T: Tree, S: Sink, G: Gate>(
    rt: &Rt,
    alloc: Global,
    words: &Items<Text>,
    tree: &mut T,
    out: &mut S,
    gate: &G,
) -> u8
    // The words are refused only where they ask for no batch, and no status but want of memory comes then beside.
    ensures refused { result ≡ 1 → batch_commanded words.now ≡ None }
    ensures words { batch_commanded words.now ≡ None → (result ≡ 1) ⊎ (result ≡ 10) }

    // A device is blamed only where its count rose.
    ensures device { result ≡ 7 → Rose (T.faults tree.old) (T.faults tree.new)
        ⊎ Rose (S.faults out.old) (S.faults out.new) }

    // Where memory was wanting for a call of the tree, the status says so.
    ensures memory { memory_faults (T.log tree.old) < memory_faults (T.log tree.new) → result ≡ 10 }

    // The run has an ending, which tells its status, which device is blamed, what the tree was asked, what became of
    // all files that its answers fit, told ones among them, and what was said.
    ensures ended { RanBatch (batch_commanded words.now) result
        (outside (T.files tree.old) (T.faults tree.old) (T.log tree.old)
        (output (S.written out.old) (S.faults out.old) (S.log out.old)))
        (outside (T.files tree.new) (T.faults tree.new) (T.log tree.new)
        (output (S.written out.new) (S.faults out.new) (S.log out.new))) }
{
    match read_batch(alloc, words) {
        Ok(Some(batch)) => run_asked_batch(rt, alloc, &batch, tree, out, gate),
        Ok(None) => refuse_words(out),
        Err(_) => say_no_memory(out),
    }
}

/// Runs the batch that words ask for.
fn run_asked_batch<Rt: Threads + Wait + Sync, T: Tree, S: Sink, G: Gate>(
    rt: &Rt,
    alloc: Global,
    batch: &Batch,
    tree: &mut T,
    out: &mut S,
    gate: &G,
) -> u8
    ensures words { result ≢ 1 }
    ensures device { result ≡ 7 → Rose (T.faults tree.old) (T.faults tree.new)
        ⊎ Rose (S.faults out.old) (S.faults out.new) }
    ensures memory { memory_faults (T.log tree.old) < memory_faults (T.log tree.new) → result ≡ 10 }
    ensures ended { DoesBatch (Some batch.now) result
        (outside (T.files tree.old) (T.faults tree.old) (T.log tree.old)
        (output (S.written out.old) (S.faults out.old) (S.log out.old)))
        (outside (T.files tree.new) (T.faults tree.new) (T.log tree.new)
        (output (S.written out.new) (S.faults out.new) (S.log out.new))) }
{
    let shrinks = Shrinks { rt };
    run_jobs(
        rt,
        alloc,
        &shrinks,
        batch.workers,
        &batch.list,
        tree,
        out,
        gate,
    )
}
