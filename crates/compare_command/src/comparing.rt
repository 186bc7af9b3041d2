// What is said of two sets of classes.
ghost use Rattle.std.specs.Prelude.{◌≡◌, IfOk, Some};
ghost use Rattle.class_run.specs.Ended.{ended_after};
ghost use Rattle.command_frame.specs.Steps.{Makes};
ghost use Rattle.command_frame.specs.declared.stop.Stop.TheVariants.{Refused};
ghost use Rattle.compare_command.specs.Due.{FollowsOutput, IsCompared, IsSeed, IsSeedStart, differs_refused, same_plan};
ghost use Rattle.compare_command.specs.NewEntry.{new_entry};
ghost use Rattle.compare_command.specs.bodies.Saying.{IsSaid};

use crate::alike::is_alike;
use crate::command::CompareFiles;
use crate::entries::new_entry;
use crate::seeds::is_seed;
use class_pool::ClassSet;
use class_run::{Arg, Ended};
use command_frame::{Plan, Reason, Refusal, Stop};
use jv_base::{Items, M, Text};
use keep_rules::Rules;
use mapping_file::Mapping;
use new_names::NewNames;
use run_command::{Start, no_entry, start_of};
use run_entry::run_class;
use run_heap::Key;
use std::alloc::Global;

/// Whether an output shows what its input shows, names being those of the mapping.
pub(crate) fn compare(
    alloc: Global,
    named: &CompareFiles,
    rules: &Rules,
    mapping: &Mapping,
    input: &ClassSet,
    output: &ClassSet,
) -> Result<Plan, Stop>
    ensures made { IfOk result (λ plan. plan ≡ same_plan) }
    ensures compared { Makes result (FollowsOutput named.now rules.now mapping.now input.now output.now) }
{
    let start = seed_start(alloc, named, rules, input)?;
    compare_runs(alloc, mapping, input, output, start, named.steps)
}

// ---- the entry

/// What a run of the entry begins with, which rules keep in any case.
fn seed_start(
    alloc: Global,
    named: &CompareFiles,
    rules: &Rules,
    input: &ClassSet,
) -> Result<Start, Stop>
    ensures { Makes result (IsSeedStart rules.now input.now named.now) }
{
    let start = start_of(alloc, input, &named.entry, &named.words)?;
    kept_start(alloc, rules, input, &named.entry, start)
}

/// The same start, where its method is one that rules keep in any case.
fn kept_start(
    alloc: Global,
    rules: &Rules,
    input: &ClassSet,
    entry: &Text,
    start: Start,
) -> Result<Start, Stop>
    ensures { Makes result (IsSeed rules.now input.now entry.now start) }
{
    if is_seed(alloc, rules, input, &start.entry.key)? {
        Ok(start)
    } else {
        Err(Stop::Refused(no_entry(entry.clone()?)))
    }
}

// ---- the runs

/// Whether the output shows the same from this start, after so many steps.
fn compare_runs(
    alloc: Global,
    mapping: &Mapping,
    input: &ClassSet,
    output: &ClassSet,
    start: Start,
    steps: u32,
) -> Result<Plan, Stop>
    ensures made { IfOk result (λ plan. plan ≡ same_plan) }
    ensures compared { Makes result (IsCompared mapping.now input.now output.now steps start) }
{
    let names = NewNames::of(alloc, mapping)?;
    compare_by_names(alloc, &names, input, output, start, steps)
}

/// The same by the names that a mapping gives.
fn compare_by_names(
    alloc: Global,
    names: &NewNames<'_>,
    input: &ClassSet,
    output: &ClassSet,
    start: Start,
    steps: u32,
) -> Result<Plan, Stop>
    ensures made { IfOk result (λ plan. plan ≡ same_plan) }
    ensures compared { Makes result (IsCompared names.now input.now output.now steps start) }
{
    let new = new_entry(alloc, names, output, &start.entry)?;
    match new {
        Some(key) => compare_with(alloc, names, input, output, start, key, steps),
        None => said_of(alloc, false),
    }
}

/// The same where the output has the entry under new names.
fn compare_with(
    alloc: Global,
    names: &NewNames<'_>,
    input: &ClassSet,
    output: &ClassSet,
    start: Start,
    key: Key,
    steps: u32,
) -> Result<Plan, Stop>
    requires { Some key ≡ new_entry names.now output.now start.entry }
    ensures made { IfOk result (λ plan. plan ≡ same_plan) }
    ensures compared { Makes result (IsCompared names.now input.now output.now steps start) }
{
    let Start { entry, args } = start;
    let had = ended_after(alloc, input, entry.key, &args, steps)?;
    let has = ended_after(alloc, output, key, &args, steps)?;
    said_of(alloc, is_alike(names, &had, &has))
}

/// What a run of an entry of a set has come to after so many steps.
fn ended_after(alloc: Global, set: &ClassSet, entry: Key, args: &Items<Arg>, steps: u32) -> M<Ended>
    ensures { IfOk result (λ ended. ended ≡ ended_after set.now entry args.now steps) }
{
    run_class(alloc, set, entry, args.as_slice(), u64::from(steps))
}

/// What is said of an output that shows the same, or doesn't.
fn said_of(alloc: Global, alike: bool) -> Result<Plan, Stop>
    ensures made { IfOk result (λ plan. plan ≡ same_plan) }
    ensures said { Makes result (IsSaid alike) }
{
    if alike {
        Ok(said_same(alloc)?)
    } else {
        Err(differs(alloc)?)
    }
}

/// No file is written, and `same` is said.
fn said_same(alloc: Global) -> M<Plan>
    ensures { IfOk result (λ plan. plan ≡ same_plan) }
{
    Ok(Plan {
        files: Items::new(alloc),
        text: Items::from_vec(b"same\n".to_vec(alloc)?),
    })
}

/// The output doesn't show what its input shows.
fn differs(alloc: Global) -> M<Stop>
    ensures { IfOk result (λ stop. stop ≡ Refused differs_refused) }
{
    let told = Text::from_str(alloc, "")?;
    Ok(Stop::Refused(Refusal {
        reason: Reason::Differs,
        told,
    }))
}
