// The configs of the jobs, and their paths.
ghost use Rattle.std.specs.Prelude.{◌≡◌, ◌++◌, ◌∷◌, [], IfOk, OnOk};
ghost use Rattle.std.specs.List.{AllByRecursion};
ghost use Rattle.keep_rules.specs.Paths.{before_texts};
ghost use Rattle.command_frame.specs.Steps.{seen};
ghost use Rattle.batch_command.specs.Caught.{caught};
ghost use Rattle.batch_command.specs.Finding.{FindsAll, MakesAll};
ghost use Rattle.batch_command.specs.Jobs.{AreApart, Each, IsNamed, overlap_refused, paths_from, paths_of};

use crate::work::{JobConfig, Work};
use batch_list::{JobFiles, JobPaths, first_overlap};
use command_frame::{Reason, Refusal, Stop};
use jv_base::{Items, M, Text};
use std::alloc::Global;
use tree_io::Tree;

/// The config of each job, or why it is refused.
pub(crate) fn find_configs<W: Work, T: Tree>(
    alloc: Global,
    work: &W,
    jobs: Items<JobFiles>,
    tree: &mut T,
) -> Result<Items<Result<JobConfig, Refusal>>, Stop>
    requires { W.ready work.now }
    ensures names { IfOk result (AllByRecursion IsNamed) }
    ensures found { FindsAll result (λ fs. Each (W.parts.config fs) jobs)
        (seen (T.files tree.old) (T.faults tree.old) (T.log tree.old))
        (seen (T.files tree.new) (T.faults tree.new) (T.log tree.new)) }
{
    let mut configs = Items::new(alloc);
    for job in jobs.into_vec() {
        let config = caught(work.find_config(alloc, job, tree))?;
        put(&mut configs, config)?;
    }
    Ok(configs)
}

/// Puts an item behind others.
pub(crate) fn put<A: Drop>(items: &mut Items<A>, item: A) -> M<()>
    ensures { OnOk result (items.new ≡ items.old ++ item ∷ []) }
{
    Ok(items.push(item)?)
}

/// What a job answered, a refusal of it among the rest.
pub(crate) fn caught<A>(answer: Result<A, Stop>) -> Result<Result<A, Refusal>, Stop>
    ensures { result ≡ caught answer }
{
    match answer {
        Ok(x) => Ok(Ok(x)),
        Err(Stop::Refused(refusal)) => Ok(Err(refusal)),
        Err(Stop::Device) => Err(Stop::Device),
        Err(Stop::OutOfMemory) => Err(Stop::OutOfMemory),
    }
}

/// Looks whether a job would get in the way of the list or of an earlier one.
pub(crate) fn look_apart(
    alloc: Global,
    list: &Text,
    configs: &[Result<JobConfig, Refusal>],
) -> Result<(), Stop>
    ensures { MakesAll result (AreApart list.now configs.now) }
{
    let paths = paths_in(alloc, configs)?;
    match first_overlap(list, paths.as_slice()) {
        Some(line) => Err(Stop::Refused(overlap(alloc, line)?)),
        None => Ok(()),
    }
}

/// The job on this line would get in another one's way.
fn overlap(alloc: Global, line: usize) -> M<Refusal>
    ensures { IfOk result (λ refusal. refusal ≡ overlap_refused line) }
{
    let told = format!(in alloc; "{line}")?;
    Refusal::new(alloc, Reason::Overlap, told)
}

/// What the jobs read and write that have a config.
fn paths_in(alloc: Global, configs: &[Result<JobConfig, Refusal>]) -> M<Items<JobPaths>>
    ensures { IfOk result (λ paths. paths ≡ paths_from 1 configs.now) }
{
    let mut paths = Items::new(alloc);
    for at in 0..configs.len() {
        if let Ok(config) = &configs[at] {
            paths.push(paths_of(alloc, at + 1, config)?)?;
        }
    }
    Ok(paths)
}

/// What a job reads and writes.
fn paths_of(alloc: Global, line: usize, config: &JobConfig) -> M<JobPaths>
    ensures { IfOk result (λ paths. paths ≡ paths_of line config.now) }
{
    let mut reads = Items::new(alloc);
    reads.push(config.files.config.clone()?)?;
    reads.push(config.rules.in_dir.clone()?)?;
    push_file(&mut reads, &config.rules.apply)?;
    let mut writes = Items::new(alloc);
    writes.push(config.rules.out_dir.clone()?)?;
    writes.push(config.rules.mapping.clone()?)?;
    push_file(&mut writes, &config.rules.seeds)?;
    push_file(&mut writes, &config.rules.usage)?;
    writes.push(config.files.witness.clone()?)?;
    Ok(JobPaths {
        line,
        reads,
        writes,
    })
}

fn push_file(files: &mut Items<Text>, file: &Option<Text>) -> M<()>
    ensures { OnOk result (files.new ≡ files.old ++ before_texts file.now []) }
{
    if let Some(file) = file {
        files.push(file.clone()?)?;
    }
    Ok(())
}
