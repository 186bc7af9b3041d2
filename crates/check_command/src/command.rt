// The command.
ghost use Rattle.std.specs.Prelude.{◌≡◌, IfOk};
ghost use Rattle.command_frame.specs.Steps.{Finds, seen};
ghost use Rattle.check_command.specs.Due.{FollowsRules, FollowsTexts, IsDue, ok_plan};

use crate::finding::{Texts, find_directories, find_texts};
use crate::judging::judge;
use command_frame::{Command, Plan, Stop};
use command_steps::find_config;
use jv_base::Text;
use keep_rules::Rules;
use std::alloc::Global;
use tree_io::Tree;

/// The files of `check CONFIG WITNESS`, which says whether the output belongs to the input (`check_pair` of
/// `pair_checker`): an input and an output directory, with the mapping and the witness that join them.
///
/// | Status | Comes | Text |
/// |---|---|---|
/// | 0 | where the output belongs to the input | `ok` |
/// | 2 | where no file stands at a path | `error 2 absent PATH` |
/// | 3 | where the config breaks its grammar, or no rule keeps anything | `error 3 rules LINE KIND` |
/// | 4 | where a class file of the input is none | `error 4 format PATH OFFSET KIND` |
/// | 5 | where the input isn't taken as a set of classes | `error 5 profile CLASS MEMBER KIND` |
/// | 6 | where a quantity passes its limit | `error 6 limit QUANTITY LIMIT` |
/// | 7 | only where a count of faults rose: the tree's, or at `ok` the sink's | `error 7 device` |
/// | 9 | where the output doesn't belong to the input | `error 9 no CLAUSE CLASS MEMBER` |
/// | 10 | where memory is wanting | `error 10 memory` |
/// | 11 | where the mapping or the witness is outside its grammar | `error 11 text LINE KIND` |
///
/// The config is looked at first; then the file of `-printmapping` and that of the witness, and then their texts; then
/// the class files below the directory of `-injars` and those below that of `-outjars`; then the input as `shrink`
/// looks at it; and last the pair. CLAUSE is the first clause that holds, CLASS and MEMBER its first place, `-` where
/// none is named. Limits: `config`, `mapping`, `witness` and `input` (the class files of a directory together)
/// 67,108,864 bytes, `files` 65,536 and `classes` 20,000 below a directory, `items` 1,048,576, `needs` and `pairs`
/// 16,777,216. No file changes.
#[derive(Drop)]
pub struct CheckFiles {
    pub config: Text,
    pub witness: Text,
}

impl Command for CheckFiles {
    ghost ready = { λ _. Unit {0} };

    ghost plans = { λ _ plan. plan ≡ ok_plan };

    ghost due = { IsDue };

    fn due_plan<T: Tree>(&self, alloc: Global, tree: &mut T) -> Result<Plan, Stop> {
        let rules = find_config(alloc, &self.config, &self.witness, tree)?;
        check_by_rules(alloc, &rules, &self.witness, tree)
    }
}

/// Whether the output belongs to the input that rules name.
fn check_by_rules<T: Tree>(
    alloc: Global,
    rules: &Rules,
    witness: &Text,
    tree: &mut T,
) -> Result<Plan, Stop>
    ensures made { IfOk result (λ plan. plan ≡ ok_plan) }
    ensures found { Finds result (λ fs. FollowsRules fs witness.now rules.now)
        (seen (T.files tree.old) (T.faults tree.old) (T.log tree.old))
        (seen (T.files tree.new) (T.faults tree.new) (T.log tree.new)) }
{
    let texts = find_texts(alloc, &rules.mapping, witness, tree)?;
    check_by_texts(alloc, rules, &texts, tree)
}

/// Whether it belongs to it by the mapping and the witness.
fn check_by_texts<T: Tree>(
    alloc: Global,
    rules: &Rules,
    texts: &Texts,
    tree: &mut T,
) -> Result<Plan, Stop>
    ensures made { IfOk result (λ plan. plan ≡ ok_plan) }
    ensures found { Finds result (λ fs. FollowsTexts fs rules.now texts.now)
        (seen (T.files tree.old) (T.faults tree.old) (T.log tree.old))
        (seen (T.files tree.new) (T.faults tree.new) (T.log tree.new)) }
{
    let directories = find_directories(alloc, &rules.in_dir, &rules.out_dir, tree)?;
    judge(alloc, rules, texts, directories)
}
