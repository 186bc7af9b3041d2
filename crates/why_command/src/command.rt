// The command.
ghost use Rattle.std.specs.Prelude.{◌≡◌, IfOk, []};
ghost use Rattle.command_frame.specs.Steps.{Finds, seen};
ghost use Rattle.command_steps.specs.Config.{IsConfigured};
ghost use Rattle.why_command.specs.Due.{FollowsRules, IsDue};

use crate::answering::answer;
use command_frame::{Command, Plan, Stop};
use command_steps::{find_config, find_files};
use jv_base::Text;
use keep_rules::Rules;
use std::alloc::Global;
use tree_io::Tree;

/// The config of `why CONFIG ITEM`, which says why the rules of a config keep an item of its input: a derivation of
/// least depth (`why` of `why_kept`). An item is spelled as a list of seeds has it (ProGuard manual, "-printseeds"), and
/// the answer is what `-whyareyoukeeping` is asked for.
///
/// | Status | Comes | Text |
/// |---|---|---|
/// | 0 | where the item is kept | `depth D`, and a line for each step of the derivation |
/// | 0 | where it isn't | `none` |
/// | 2 | where no file stands at CONFIG, or a class file that was listed isn't there any more | `error 2 absent PATH` |
/// | 3 | where the config breaks its grammar, or no rule keeps anything | `error 3 rules LINE KIND` |
/// | 4 | where a class file of the input is none | `error 4 format PATH OFFSET KIND` |
/// | 5 | where the input isn't taken as a set of classes | `error 5 profile CLASS MEMBER KIND` |
/// | 6 | where a quantity passes its limit | `error 6 limit QUANTITY LIMIT` |
/// | 7 | only where a count of faults rose: the tree's, or at the answer the sink's | `error 7 device` |
/// | 10 | where memory is wanting | `error 10 memory` |
/// | 14 | where no item of the input is spelled so | `error 14 item ITEM` |
///
/// The lines of steps are `X seed`, where the rules keep X itself; `X from Y`, where Y needs X; and `X from Y and Z`,
/// where Y and Z need X together, as a class and a method above it need the method that it selects. A step stands behind
/// those of what it is kept by, and the last one is that of the item.
///
/// The config is looked at first, as `check` looks at it; then the class files below the directory of `-injars`, as
/// `shrink` looks at them; then the item, and last how long the answer is. The output directory isn't looked at, nor is
/// a file of `-applymapping`. Limits: `config`, `input` (the class files together) and `text` (the answer) 67,108,864
/// bytes, `files` 65,536 and `classes` 20,000 below the directory, `items` 1,048,576, `needs` and `pairs` 16,777,216.
/// No file changes.
#[derive(Drop)]
pub struct WhyFiles {
    /// The config that is read.
    pub config: Text,
    /// The item that is asked for.
    pub item: Text,
}

impl Command for WhyFiles {
    ghost ready = { λ _. Unit {0} };

    ghost plans = { λ _ plan. plan.files ≡ [] };

    ghost due = { IsDue };

    fn due_plan<T: Tree>(&self, alloc: Global, tree: &mut T) -> Result<Plan, Stop> {
        let rules = find_rules(alloc, &self.config, tree)?;
        answer_by_rules(alloc, &rules, &self.item, tree)
    }
}

/// The rules of the config, where no file is a witness.
fn find_rules<T: Tree>(alloc: Global, config: &Text, tree: &mut T) -> Result<Rules, Stop>
    ensures { Finds result (λ fs. IsConfigured fs config.now [])
        (seen (T.files tree.old) (T.faults tree.old) (T.log tree.old))
        (seen (T.files tree.new) (T.faults tree.new) (T.log tree.new)) }
{
    let no_witness = Text::from_str(alloc, "")?;
    find_config(alloc, config, &no_witness, tree)
}

/// The answer for the input directory that rules name.
fn answer_by_rules<T: Tree>(
    alloc: Global,
    rules: &Rules,
    item: &Text,
    tree: &mut T,
) -> Result<Plan, Stop>
    ensures made { IfOk result (λ plan. plan.files ≡ []) }
    ensures found { Finds result (λ fs. FollowsRules fs item.now rules.now)
        (seen (T.files tree.old) (T.faults tree.old) (T.log tree.old))
        (seen (T.files tree.new) (T.faults tree.new) (T.log tree.new)) }
{
    let inputs = find_files(alloc, &rules.in_dir, tree)?;
    answer(alloc, rules, item, inputs)
}
