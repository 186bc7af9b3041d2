// The command.
ghost use Rattle.std.specs.Prelude.{◌≡◌, IfOk, []};
ghost use Rattle.command_frame.specs.Steps.{Makes};
ghost use Rattle.command_steps.specs.Sets.{AreClassFiles};
ghost use Rattle.run_command.specs.Due.{FollowsFiles, FollowsSet, IsDue, IsRun};

use crate::entries::{Start, start_of};
use crate::shown::run_said;
use class_pool::ClassSet;
use command_frame::{Command, Plan, Stop};
use command_steps::{find_files, set_of};
use jv_base::{Items, Text};
use run_entry::run_class;
use std::alloc::Global;
use tree_io::{FileAt, Tree};

/// What `run DIRECTORY ENTRY STEPS WORD..` is given. It says what a static method of the class files below a directory
/// prints, and how it ends: so many moves of the machine (`run_class` of `run_entry`) are made at most.
///
/// | Status | Comes | Text |
/// |---|---|---|
/// | 0 | where the run was told | what it has printed, and a line `end ..` |
/// | 4 | where a class file is none | `error 4 format PATH OFFSET KIND` |
/// | 5 | where the class files aren't taken as a set of classes | `error 5 profile CLASS MEMBER KIND` |
/// | 6 | where a quantity passes its limit | `error 6 limit QUANTITY LIMIT` |
/// | 7 | only where a count of faults rose: the tree's, or at the text the sink's | `error 7 device` |
/// | 10 | where memory is wanting | `error 10 memory` |
/// | 12 | where no method can be run as the entry with these words | `error 12 entry ENTRY` |
///
/// The entry is spelled `class.name(types)`, as a mapping spells them. It is a static method of a class file, other than
/// the one that initialises its class; of several, which differ in their result, the first of its class. Each word is an
/// argument: a decimal number in the range of its type, with `~` in place of a minus, of a char too; `true` or `false`;
/// for a String the word itself; and a last String[] takes all words that are left. Parameters of other types have no
/// words.
///
/// What was printed is said in UTF-8, `?` in place of a surrogate without a partner, and with an LF behind it where it
/// ends in none. The last line is `end running`, `end returned`, `end returned N` of an int or a long,
/// `end returned null`, `end returned ref`, or `end threw CLASS`. Limits: `files` 65,536 and `classes` 20,000 below the
/// directory, `input` (the class files together) and `text` (what was printed) 67,108,864 bytes. No file changes.
#[derive(Drop)]
pub struct RunFiles {
    pub directory: Text,
    pub entry: Text,
    pub steps: u32,
    pub words: Items<Text>,
}

impl Command for RunFiles {
    ghost ready = { λ _. Unit {0} };

    ghost plans = { λ _ plan. plan.files ≡ [] };

    ghost due = { IsDue };

    fn due_plan<T: Tree>(&self, alloc: Global, tree: &mut T) -> Result<Plan, Stop> {
        let inputs = find_files(alloc, &self.directory, tree)?;
        run_files(alloc, self, inputs)
    }
}

/// The plan for class files.
fn run_files(alloc: Global, named: &RunFiles, inputs: Items<FileAt>) -> Result<Plan, Stop>
    requires { AreClassFiles inputs }
    ensures made { IfOk result (λ plan. plan.files ≡ []) }
    ensures told { Makes result (FollowsFiles named.now inputs) }
{
    let set = set_of(alloc, &named.directory, inputs)?;
    run_set(alloc, named, &set)
}

/// The plan for a set of classes.
fn run_set(alloc: Global, named: &RunFiles, set: &ClassSet) -> Result<Plan, Stop>
    ensures made { IfOk result (λ plan. plan.files ≡ []) }
    ensures told { Makes result (FollowsSet named.now set.now) }
{
    let start = start_of(alloc, set, &named.entry, &named.words)?;
    run_start(alloc, set, start, named.steps)
}

/// The plan for a method with its arguments.
fn run_start(alloc: Global, set: &ClassSet, start: Start, steps: u32) -> Result<Plan, Stop>
    ensures made { IfOk result (λ plan. plan.files ≡ []) }
    ensures told { Makes result (IsRun set.now steps start) }
{
    let Start { entry, args } = start;
    let ended = run_class(alloc, set, entry.key, args.as_slice(), u64::from(steps))?;
    run_said(alloc, &ended)
}
