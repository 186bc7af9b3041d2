// The command.
ghost use Rattle.std.specs.Prelude.{◌≡◌, IfSome};
ghost use Rattle.std.specs.Thread.{IsSync};
ghost use Rattle.mapping_file.specs.Mappings.{IsMapping};
ghost use Rattle.command_frame.specs.Steps.{Finds, seen};
ghost use Rattle.shrink_command.specs.Marking.{FindsMarks};
ghost use Rattle.shrink_command.specs.Due.{FollowsEarlier, FollowsOutput, FollowsRules, IsDue, IsEmptied};

use crate::planning::plan_of;
use command_frame::{Command, Plan, Reason, Refusal, Stop};
use command_steps::{find_config_apart, find_earlier, find_files};
use jv_base::{M, Text};
use keep_rules::Rules;
use mapping_file::Mapping;
use mark_core::System;
use mark_words::Marked;
use std::alloc::Global;
use std::thread::Threads;
use tree_io::{ListFault, Tree};

/// The files of `shrink CONFIG OUTWIT`, which keeps what the rules of a config keep of a directory of class files,
/// optimises its codes, gives it new names, and writes the classes that are left to another directory. OUTWIT gets the
/// witness, which tells each edit of a code.
///
/// A config has options as ProGuard has them (`read_rules` of `keep_rules`): `-injars IN`, `-outjars OUT` and
/// `-printmapping MAP`, which have to be there, and others. IN, OUT and MAP are paths; one `/` at the end of a
/// directory is dropped.
///
/// Kept is the least set of classes, fields and methods that has what keep rules keep and what all that is kept needs
/// (`system_of` of `require_sys`); under `-dontshrink` all. The codes of kept methods go through the six steps of the
/// passes (`optimise` of `pass_driver`), unless `-dontoptimize` is given; where the edited code isn't typed, the method
/// keeps its own. Each class is written in its canonical spelling, with its
/// kept members and the attributes ConstantValue, Code and StackMapTable, and of SourceFile, Exceptions,
/// LineNumberTable, Synthetic and Deprecated those that `-keepattributes` keeps, or all under `-dontobfuscate`. Names
/// that the rules don't keep become short ones (`names_of` of `rename_map`), but first what the mapping of
/// `-applymapping` has for them, where that is free; and each class is written at the path of its new name. Behind the
/// classes the mapping goes to MAP, a list of what the rules keep to the file of `-printseeds`, one of what is dropped
/// to the file of `-printusage`, where these are given, and the witness to OUTWIT.
///
/// | Status | Comes | Text |
/// |---|---|---|
/// | 0 | where the files were written | the summary |
/// | 2 | where no file stands at CONFIG or at the path of `-applymapping`, or a class file that was listed isn't there any more | `error 2 absent PATH` |
/// | 3 | where the config breaks its grammar, something would be written over it or below it, or no rule keeps anything | `error 3 rules LINE KIND` |
/// | 4 | where a file below IN that ends in `.class` is no class file | `error 4 format PATH OFFSET KIND` |
/// | 5 | where these are no set, a rule is broken, or a code isn't typed | `error 5 profile CLASS MEMBER KIND` |
/// | 6 | where a quantity passes its limit | `error 6 limit QUANTITY LIMIT` |
/// | 7 | only where a count of faults rose, the tree's or (once the files stand) the sink's | `error 7 device` |
/// | 8 | where a file lies below OUT | `error 8 not-empty OUT` |
/// | 10 | where memory is wanting | `error 10 memory` |
/// | 11 | where the mapping of `-applymapping` is outside its grammar | `error 11 text LINE KIND` |
///
/// The config is looked at first, then the file of `-applymapping` and its text, then OUT, then IN: the number of its
/// files, of its class files, and of their bytes; then each class file by itself, in the order of their paths, and then
/// all as a set; then how much they have and need (`items`, `needs`, `pairs`); then whether anything is kept; last what
/// is to be written, the classes before the texts. LINE counts from 1, and is 0 where the config as a whole is at fault;
/// KIND has its option behind it. CLASS is a name with dots, MEMBER as `int x` or `int f(int)`, and `-` where the class
/// itself is at fault; of a code that isn't typed KIND is two words, as `Type Local`. Limits: `config`, `mapping` and
/// `input` (the class files together) 67,108,864 bytes, `files` 65,536 and `classes` 20,000 below IN, `items` 1,048,576,
/// `needs` and `pairs` 16,777,216, what a class file has room for (`pool`, `utf8`, `code`, `table`, `branch`,
/// `attribute`), and `text` (the mapping, a list, the witness) 67,108,864 bytes.
///
/// After 2 to 6, 8 and 11 no file has changed. After 7 and 10 the first of the files to be written may stand: the class
/// files in the order of their paths, then the mapping, both lists and the witness; after 7 the next path may hold any
/// bytes.
///
/// The summary is five lines: `classes`, `fields` and `methods`, each with how many were read and how many are kept,
/// `edited` with how many methods have another code, and `fallback` with how many keep their own because the edited one
/// isn't typed.
#[derive(Drop)]
pub struct ShrinkFiles {
    /// The config that is read.
    pub config: Text,
    /// Where the witness goes.
    pub witness: Text,
}

/// The command with its workers, and with who finds the marks of what is kept. What is due is a matter of the files
/// alone.
#[derive(Drop)]
pub struct Shrinking<'r, Rt, F> {
    pub files: ShrinkFiles,
    /// Has the threads in which workers edit and write classes.
    pub rt: &'r Rt,
    /// How many of these there are.
    pub workers: usize,
    /// Finds the least closed set of a system of requirements.
    pub mark: F,
}

impl<'r, Rt: Threads + Sync, F: Fn(&System) -> M<Marked>> Command for Shrinking<'r, Rt, F> {
    ghost ready = { λ shrinking. IsSync Rt.row × FindsMarks (F.pre shrinking.mark) (F.post shrinking.mark) };

    ghost plans = { λ _ _. Unit {0} };

    ghost due = { λ shrinking. IsDue shrinking.files };

    fn due_plan<T: Tree>(&self, alloc: Global, tree: &mut T) -> Result<Plan, Stop> {
        let files = &self.files;
        let rules = find_config_apart(alloc, &files.config, &files.witness, tree)?;
        shrink_by_rules(
            self.rt,
            self.workers,
            &self.mark,
            alloc,
            &rules,
            &files.witness,
            tree,
        )
    }
}

/// The plan for the directories that rules name.
fn shrink_by_rules<Rt: Threads + Sync, F: Fn(&System) -> M<Marked>, T: Tree>(
    rt: &Rt,
    workers: usize,
    mark: &F,
    alloc: Global,
    rules: &Rules,
    witness: &Text,
    tree: &mut T,
) -> Result<Plan, Stop>
    requires { FindsMarks (F.pre mark.now) (F.post mark.now) }
    ensures { Finds result (λ fs. FollowsRules fs witness.now rules.now)
        (seen (T.files tree.old) (T.faults tree.old) (T.log tree.old))
        (seen (T.files tree.new) (T.faults tree.new) (T.log tree.new)) }
{
    let old = find_earlier(alloc, &rules.apply, tree)?;
    shrink_by_earlier(rt, workers, mark, alloc, rules, &old, witness, tree)
}

/// The plan for the directories that rules name, where this is the earlier mapping.
fn shrink_by_earlier<Rt: Threads + Sync, F: Fn(&System) -> M<Marked>, T: Tree>(
    rt: &Rt,
    workers: usize,
    mark: &F,
    alloc: Global,
    rules: &Rules,
    old: &Option<Mapping>,
    witness: &Text,
    tree: &mut T,
) -> Result<Plan, Stop>
    requires mark { FindsMarks (F.pre mark.now) (F.post mark.now) }
    requires names { IfSome old.now IsMapping }
    ensures { Finds result (λ fs. FollowsEarlier fs witness.now rules.now old.now)
        (seen (T.files tree.old) (T.faults tree.old) (T.log tree.old))
        (seen (T.files tree.new) (T.faults tree.new) (T.log tree.new)) }
{
    check_empty(alloc, &rules.out_dir, tree)?;
    shrink_input(rt, workers, mark, alloc, rules, old, witness, tree)
}

/// The plan for the input directory, where the output directory is empty.
fn shrink_input<Rt: Threads + Sync, F: Fn(&System) -> M<Marked>, T: Tree>(
    rt: &Rt,
    workers: usize,
    mark: &F,
    alloc: Global,
    rules: &Rules,
    old: &Option<Mapping>,
    witness: &Text,
    tree: &mut T,
) -> Result<Plan, Stop>
    requires mark { FindsMarks (F.pre mark.now) (F.post mark.now) }
    requires names { IfSome old.now IsMapping }
    ensures { Finds result (λ fs. FollowsOutput fs witness.now rules.now old.now)
        (seen (T.files tree.old) (T.faults tree.old) (T.log tree.old))
        (seen (T.files tree.new) (T.faults tree.new) (T.log tree.new)) }
{
    let inputs = find_files(alloc, &rules.in_dir, tree)?;
    plan_of(rt, workers, mark, alloc, rules, old, witness, inputs)
}

/// Whether no file lies below a directory.
pub fn check_empty<T: Tree>(alloc: Global, directory: &Text, tree: &mut T) -> Result<(), Stop>
    ensures { Finds result (λ fs. IsEmptied fs directory.now)
        (seen (T.files tree.old) (T.faults tree.old) (T.log tree.old))
        (seen (T.files tree.new) (T.faults tree.new) (T.log tree.new)) }
{
    match tree.list(alloc, directory, 0) {
        Ok(_) => Ok(()),
        Err(ListFault::TooMany) => Err(Stop::Refused(Refusal {
            reason: Reason::NotEmpty,
            told: directory.clone()?,
        })),
        Err(ListFault::Failed) => Err(Stop::Device),
        Err(ListFault::OutOfMemory) => Err(Stop::OutOfMemory),
    }
}
