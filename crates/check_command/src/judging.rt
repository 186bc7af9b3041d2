// What is said of what was read.
ghost use Rattle.std.specs.Prelude.{◌≡◌, ◌++◌, IfOk, List, Ok};
ghost use Rattle.tree_io.specs.declared.file_at.FileAt.{FileAt};
ghost use Rattle.set_read.specs.Accepted.{IsAccepted};
ghost use Rattle.mark_core.specs.Valid.{Valid};
ghost use Rattle.rule_system.specs.Required.{system_due};
ghost use Rattle.command_frame.specs.Steps.{Makes};
ghost use Rattle.command_steps.specs.Sets.{AreClassFiles};
ghost use Rattle.command_steps.specs.System.{IsSystem};
ghost use Rattle.check_command.specs.Due.{FollowsSet, IsJudged, IsPair, no_refused, ok_plan};

use crate::finding::{Directories, Texts};
use class_pool::ClassSet;
use command_frame::{Plan, Reason, Refusal, Stop};
use command_steps::{name_or_dash, requirements, set_of};
use jv_base::{Items, M, Or};
use keep_rules::Rules;
use mark_core::System;
use pair_checker::{No, Told, check_required};
use std::alloc::Global;
use tree_io::FileAt;

/// Whether the output belongs to the input, of what was read.
pub(crate) fn judge(
    alloc: Global,
    rules: &Rules,
    texts: &Texts,
    directories: Directories,
) -> Result<Plan, Stop>
    requires input { AreClassFiles directories.input }
    requires output { AreClassFiles directories.output }
    ensures made { IfOk result (λ plan. plan ≡ ok_plan) }
    ensures judged { Makes result (IsJudged rules.now texts.now directories) }
{
    let Directories { input, output } = directories;
    let set = set_of(alloc, &rules.in_dir, input)?;
    judge_set(alloc, rules, texts, &output, &set)
}

/// Whether it belongs to an input that is a set of classes.
fn judge_set(
    alloc: Global,
    rules: &Rules,
    texts: &Texts,
    output: &Items<FileAt>,
    set: &ClassSet,
) -> Result<Plan, Stop>
    requires output { AreClassFiles output.now }
    requires accepted { (files : List FileAt) × IsAccepted files set.now }
    ensures made { IfOk result (λ plan. plan ≡ ok_plan) }
    ensures judged { Makes result (FollowsSet rules.now texts.now output.now set.now) }
{
    let sys = requirements(alloc, rules, set)?;
    judge_pair(alloc, rules, texts, output, set, &sys)
}

/// Whether it belongs to an input of which this has to be kept.
fn judge_pair(
    alloc: Global,
    rules: &Rules,
    texts: &Texts,
    output: &Items<FileAt>,
    set: &ClassSet,
    sys: &System,
) -> Result<Plan, Stop>
    requires output { AreClassFiles output.now }
    requires accepted { (files : List FileAt) × IsAccepted files set.now }
    requires system { IsSystem rules.now set.now (Ok sys.now) }
    requires valid { Valid sys.now }
    ensures made { IfOk result (λ plan. plan ≡ ok_plan) }
    ensures judged { Makes result (IsPair rules.now texts.now output.now set.now) }
{
    let told = Told {
        mapping: &texts.mapping,
        rules,
        witness: &texts.witness,
    };
    match check_required(alloc, set, output, &told, sys) {
        Ok(()) => Ok(said_ok(alloc)?),
        Err(Or::Fault(no)) => Err(Stop::Refused(no_pair(alloc, &no)?)),
        Err(Or::OutOfMemory) => Err(Stop::OutOfMemory),
    }
}

// ---- what is said then

/// No file is written, and `ok` is said.
fn said_ok(alloc: Global) -> M<Plan>
    ensures { IfOk result (λ plan. plan ≡ ok_plan) }
{
    Ok(Plan {
        files: Items::new(alloc),
        text: Items::from_vec(b"ok\n".to_vec(alloc)?),
    })
}

/// The pair doesn't belong together: the first clause that says so, with its class and its member.
fn no_pair(alloc: Global, no: &No) -> M<Refusal>
    ensures { IfOk result (λ refusal. refusal ≡ no_refused no.now) }
{
    let clause = no.clause.name();
    let class = name_or_dash(&no.class);
    let member = name_or_dash(&no.member);
    let told = format!(in alloc; "{clause} {class} {member}")?;
    Refusal::new(alloc, Reason::No, told)
}
