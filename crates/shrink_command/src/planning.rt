// The plan for class files.
ghost use Rattle.std.specs.Prelude.{◌≡◌, ◌++◌, List, IfOk, IfSome, Ok, Result};
ghost use Rattle.jv_base.specs.Outcome.{IsDue};
ghost use Rattle.tree_io.specs.declared.file_at.FileAt.{FileAt as FileValue};
ghost use Rattle.list_texts.specs.declared.limit.TooLong.{TooLong as LongText};
ghost use Rattle.mapping_file.specs.Mappings.{IsMapping};
ghost use Rattle.pass_driver.specs.Optimised.{IsOptimisedIf};
ghost use Rattle.set_shrink.specs.Lists.{lists_due};
ghost use Rattle.set_shrink.specs.Texts.{texts_beside};
ghost use Rattle.command_frame.specs.Steps.{Makes};
ghost use Rattle.command_steps.specs.Sets.{AreClassFiles};
ghost use Rattle.shrink_command.specs.Marking.{FindsMarks};
ghost use Rattle.shrink_command.specs.Due.{FollowsCodes, FollowsInput, FollowsMarks, IsKept, IsPlan, IsPlanned, Joins};
ghost use Rattle.shrink_command.specs.Due.{most_written};
ghost use Rattle.shrink_command.specs.bodies.Given.{IsGiven};

use crate::summary::summary_text;
use class_model::WriteLimit;
use class_pool::ClassSet;
use command_frame::{Plan, Quantity, Stop, passed_limit};
use command_steps::{requirements, set_of};
use jv_base::{Items, M, Or, Text};
use keep_rules::Rules;
use list_texts::TooLong;
use mapping_file::Mapping;
use mark_core::System;
use mark_words::Marked;
use pair_laws::named_form::optimised_can_be_written;
use pass_driver::{Optimised, optimise_if, with_codes};
use rename_map::fixed_names;
use report_text::limit_name;
use set_shrink::{ShrunkSet, lists_of, shrink_classes, texts_of};
use std::alloc::Global;
use std::thread::Threads;
use tree_io::FileAt;
use witness_file::Witness;

/// The plan for the class files of an input directory, by rules. So many workers edit and write classes.
pub fn plan_of<Rt: Threads + Sync, F: Fn(&System) -> M<Marked>>(
    rt: &Rt,
    workers: usize,
    mark: &F,
    alloc: Global,
    rules: &Rules,
    old: &Option<Mapping>,
    witness: &Text,
    inputs: Items<FileAt>,
) -> Result<Plan, Stop>
    requires mark { FindsMarks (F.pre mark.now) (F.post mark.now) }
    requires files { AreClassFiles inputs }
    requires names { IfSome old.now IsMapping }
    ensures { Makes result (FollowsInput rules.now old.now witness.now inputs) }
{
    let set = set_of(alloc, &rules.in_dir, inputs)?;
    set_plan(rt, workers, mark, alloc, rules, old, witness, set)
}

/// The plan for a set.
fn set_plan<Rt: Threads + Sync, F: Fn(&System) -> M<Marked>>(
    rt: &Rt,
    workers: usize,
    mark: &F,
    alloc: Global,
    rules: &Rules,
    old: &Option<Mapping>,
    witness: &Text,
    set: ClassSet,
) -> Result<Plan, Stop>
    requires mark { FindsMarks (F.pre mark.now) (F.post mark.now) }
    requires given { IsGiven set }
    requires names { IfSome old.now IsMapping }
    ensures { Makes result (IsPlanned rules.now old.now witness.now set) }
{
    let sys = requirements(alloc, rules, &set)?;
    let marked = mark(&sys)?;
    kept_plan(rt, workers, alloc, rules, old, witness, set, &marked)
}

/// The plan for a set of which the marked items are kept. The lists are made while the set is whole; that one of them
/// is too long is told behind the limits of the classes.
fn kept_plan<Rt: Threads + Sync>(
    rt: &Rt,
    workers: usize,
    alloc: Global,
    rules: &Rules,
    old: &Option<Mapping>,
    witness: &Text,
    set: ClassSet,
    marked: &Marked,
) -> Result<Plan, Stop>
    requires given { IsGiven set }
    requires names { IfSome old.now IsMapping }
    requires kept { IsKept rules.now set marked.now }
    ensures { Makes result (FollowsMarks rules.now old.now witness.now set marked.now) }
{
    let lists = lists_of(alloc, &set, marked, rules);
    let optimised = optimise_if(rt, workers, alloc, rules.optimise, &set, marked)?;
    codes_plan(
        rt, workers, alloc, rules, old, witness, set, marked, optimised, lists,
    )
}

/// The plan for a set, where this becomes of the codes of what is kept. No rule looks at a code, so the names that stay
/// are those of the set as it was read.
fn codes_plan<Rt: Threads + Sync>(
    rt: &Rt,
    workers: usize,
    alloc: Global,
    rules: &Rules,
    old: &Option<Mapping>,
    witness: &Text,
    set: ClassSet,
    marked: &Marked,
    optimised: Optimised,
    lists: Result<Items<FileAt>, Or<TooLong>>,
) -> Result<Plan, Stop>
    requires given { IsGiven set }
    requires names { IfSome old.now IsMapping }
    requires kept { IsKept rules.now set marked.now }
    requires optimised { IsOptimisedIf rules.now.optimise marked.now set optimised }
    requires lists { IsDue lists (lists_due set marked.now rules.now) }
    ensures { Makes result (FollowsCodes rules.now old.now witness.now set marked.now optimised) }
{
    optimised_can_be_written();
    let fixed = fixed_names(alloc, rules, &set)?;
    set.few_items();
    let Optimised {
        codes,
        witness: edits,
        fallback,
    } = optimised;
    let classes = with_codes(alloc, set.into_classes(), codes);
    match shrink_classes(rt, workers, alloc, classes, &fixed, marked, rules, old) {
        Ok(shrunk) => joined(alloc, rules, witness, shrunk, &edits, fallback, lists),
        Err(Or::Fault(limit)) => {
            Err(Stop::Refused(passed_limit(alloc, limit_name(limit), most_written(limit))?))
        }
        Err(Or::OutOfMemory) => Err(Stop::OutOfMemory),
    }
}

/// The greatest number that the format has room for (JVMS 4.7, 4.11, 6.5).
fn most_written(limit: WriteLimit) -> u64
    ensures { result ≡ most_written limit }
{
    match limit {
        WriteLimit::PoolFull(_)
        | WriteLimit::TextTooLong(_)
        | WriteLimit::CodeTooLong(_)
        | WriteLimit::AttributeFull(_) => 65_535,
        WriteLimit::BranchTooFar(..) => 32_767,
        WriteLimit::AttributeTooLong(_) => 4_294_967_295,
    }
}

/// The plan of what is written of a set, of how its methods were edited, and of its texts.
fn joined(
    alloc: Global,
    rules: &Rules,
    witness: &Text,
    shrunk: ShrunkSet,
    edits: &Witness,
    fallback: usize,
    lists: Result<Items<FileAt>, Or<TooLong>>,
) -> Result<Plan, Stop>
    ensures { (due : Result (List FileValue) LongText) → IsDue lists due
        → Makes result (Joins shrunk edits.now fallback
        (texts_beside shrunk.mapping edits.now due rules.now witness.now)) }
{
    match texts_of(alloc, &shrunk.mapping, edits, lists, rules, witness) {
        Ok(texts) => with_summary(alloc, shrunk, edits, fallback, texts),
        Err(Or::Fault(_)) => Err(Stop::Refused(Quantity::Text.passed(alloc)?)),
        Err(Or::OutOfMemory) => Err(Stop::OutOfMemory),
    }
}

/// The plan of what is written of a set, with texts.
fn with_summary(
    alloc: Global,
    shrunk: ShrunkSet,
    edits: &Witness,
    fallback: usize,
    texts: Items<FileAt>,
) -> Result<Plan, Stop>
    ensures { Makes result (IsPlan shrunk edits.now fallback texts) }
{
    let edited = edits.methods.len();
    let text = summary_text(alloc, shrunk.read, shrunk.kept, edited, fallback)?;
    let files = with_texts(shrunk.files, texts)?;
    Ok(Plan { files, text })
}

/// Files, and texts behind them.
fn with_texts(files: Items<FileAt>, texts: Items<FileAt>) -> M<Items<FileAt>>
    ensures { IfOk result (λ all. all ≡ files ++ texts) }
{
    let mut all = files.into_vec();
    all.append(&mut texts.into_vec())?;
    Ok(Items::from_vec(all))
}
