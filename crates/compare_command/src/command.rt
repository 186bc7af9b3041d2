// The command.
ghost use Rattle.std.specs.Prelude.{◌≡◌, IfOk};
ghost use Rattle.command_frame.specs.Steps.{Finds, seen};
ghost use Rattle.compare_command.specs.Due.{FollowsInput, FollowsMapping, FollowsRules, IsDue, same_plan};

use crate::comparing::compare;
use crate::finding::{find_mapping, find_rules, find_set};
use class_pool::ClassSet;
use command_frame::{Command, Plan, Stop};
use jv_base::{Items, Text};
use keep_rules::Rules;
use mapping_file::Mapping;
use std::alloc::Global;
use tree_io::Tree;

/// What `compare CONFIG ENTRY STEPS WORD..` is given. It runs an entry of an input, as `run` does (`RunFiles` of
/// `run_command`), and the same method of the output of a config, and says whether the output shows what the input
/// shows.
///
/// | Status | Comes | Text |
/// |---|---|---|
/// | 0 | where the output shows the same | `same` |
/// | 2 | where no file stands at a path | `error 2 absent PATH` |
/// | 3 | where the config breaks its grammar | `error 3 rules LINE KIND` |
/// | 4 | where a class file is none | `error 4 format PATH OFFSET KIND` |
/// | 5 | where the class files of a directory aren't taken as a set of classes | `error 5 profile CLASS MEMBER KIND` |
/// | 6 | where a quantity passes its limit | `error 6 limit QUANTITY LIMIT` |
/// | 7 | only where a count of faults rose: the tree's, or at `same` the sink's | `error 7 device` |
/// | 10 | where memory is wanting | `error 10 memory` |
/// | 11 | where the mapping is outside its grammar | `error 11 text LINE KIND` |
/// | 12 | where no method can be run as the entry with these words, or the rules don't keep it in any case | `error 12 entry ENTRY` |
/// | 13 | where the output doesn't show the same | `error 13 differs` |
///
/// The output differs exactly where it has no static method of the entry's name and descriptor through the mapping, with
/// which a run may begin; where the input has ended after so many steps, and the output hasn't printed the same or hasn't
/// come to the same end; and where the input hasn't ended, and the output hasn't printed at least that. The class of what
/// was thrown is read through the mapping. A name without a line stays, and of several lines for one the first counts.
///
/// The config is looked at first, as `check` looks at it, where no file is a witness; then the mapping; then the class
/// files below the directory of `-injars`, as a set, and those below that of `-outjars`, as a set; then the entry with
/// its words, and last the runs. Limits: `config`, `mapping` and `input` (the class files of a directory together)
/// 67,108,864 bytes, `files` 65,536 and `classes` 20,000 below a directory. No file changes.
#[derive(Drop)]
pub struct CompareFiles {
    pub config: Text,
    pub entry: Text,
    pub steps: u32,
    pub words: Items<Text>,
}

impl Command for CompareFiles {
    ghost ready = { λ _. Unit {0} };

    ghost plans = { λ _ plan. plan ≡ same_plan };

    ghost due = { IsDue };

    fn due_plan<T: Tree>(&self, alloc: Global, tree: &mut T) -> Result<Plan, Stop> {
        let rules = find_rules(alloc, &self.config, tree)?;
        compare_by_rules(alloc, self, &rules, tree)
    }
}

/// Whether the output that rules name shows what the input shows.
fn compare_by_rules<T: Tree>(
    alloc: Global,
    named: &CompareFiles,
    rules: &Rules,
    tree: &mut T,
) -> Result<Plan, Stop>
    ensures made { IfOk result (λ plan. plan ≡ same_plan) }
    ensures found { Finds result (λ fs. FollowsRules named.now fs rules.now)
        (seen (T.files tree.old) (T.faults tree.old) (T.log tree.old))
        (seen (T.files tree.new) (T.faults tree.new) (T.log tree.new)) }
{
    let mapping = find_mapping(alloc, &rules.mapping, tree)?;
    compare_by_mapping(alloc, named, rules, &mapping, tree)
}

/// The same by a mapping.
fn compare_by_mapping<T: Tree>(
    alloc: Global,
    named: &CompareFiles,
    rules: &Rules,
    mapping: &Mapping,
    tree: &mut T,
) -> Result<Plan, Stop>
    ensures made { IfOk result (λ plan. plan ≡ same_plan) }
    ensures found { Finds result (λ fs. FollowsMapping named.now rules.now fs mapping.now)
        (seen (T.files tree.old) (T.faults tree.old) (T.log tree.old))
        (seen (T.files tree.new) (T.faults tree.new) (T.log tree.new)) }
{
    let input = find_set(alloc, &rules.in_dir, tree)?;
    compare_with_input(alloc, named, rules, mapping, &input, tree)
}

/// The same of an input that is a set of classes.
fn compare_with_input<T: Tree>(
    alloc: Global,
    named: &CompareFiles,
    rules: &Rules,
    mapping: &Mapping,
    input: &ClassSet,
    tree: &mut T,
) -> Result<Plan, Stop>
    ensures made { IfOk result (λ plan. plan ≡ same_plan) }
    ensures found { Finds result (λ fs. FollowsInput named.now rules.now mapping.now fs input.now)
        (seen (T.files tree.old) (T.faults tree.old) (T.log tree.old))
        (seen (T.files tree.new) (T.faults tree.new) (T.log tree.new)) }
{
    let output = find_set(alloc, &rules.out_dir, tree)?;
    compare(alloc, named, rules, mapping, input, &output)
}
