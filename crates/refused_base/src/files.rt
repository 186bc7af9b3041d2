// Calls on the files of a tree.
ghost use Rattle.std.specs.Prelude.{◌≡◌, ◌≤◌, IfOk, IsErrOf, map};
ghost use Rattle.tree_io.specs.Below.{IsAscending};
ghost use Rattle.tree_io.specs.Count.{Rose};
ghost use Rattle.tree_io.specs.Runs.{AddsCalls, Sees};
ghost use Rattle.class_files.specs.Input.{FindsDue, input_due, missed, total};
ghost use Rattle.class_files.specs.Output.{Writes};

use class_files::InputFault;
use jv_base::{Items, Text};
use std::alloc::Global;
use tree_io::{FileAt, Tree, WriteFault};

/// `read_files` of `class_files`.
pub fn read_files<T: Tree>(
    alloc: Global,
    directory: &Text,
    tree: &mut T,
) -> Result<Items<FileAt>, InputFault>
    ensures files { T.files tree.new ≡ T.files tree.old }
    ensures later { T.faults tree.old ≤ T.faults tree.new }
    ensures device { IsErrOf result InputFault.Failed → Rose (T.faults tree.old) (T.faults tree.new) }
    ensures short { IfOk result (λ files. total files ≤ 67108864) }
    ensures ascending { IfOk result (λ files. IsAscending (map (λ f. f.path) files)) }
    ensures seen { AddsCalls (T.log tree.old) (T.log tree.new) (T.files tree.old) (T.files tree.new)
        (Sees (missed result) (λ fs. FindsDue result (input_due fs directory.now))) }
{
    class_files::read_files(alloc, directory, tree)
}

/// `write_files` of `class_files`.
pub fn write_files<T: Tree>(
    alloc: Global,
    files: &Items<FileAt>,
    tree: &mut T,
) -> Result<(), WriteFault>
    ensures later { T.faults tree.old ≤ T.faults tree.new }
    ensures failed { IsErrOf result WriteFault.Failed → Rose (T.faults tree.old) (T.faults tree.new) }
    ensures written { AddsCalls (T.log tree.old) (T.log tree.new) (T.files tree.old) (T.files tree.new)
        (Writes result files.now) }
{
    class_files::write_files(alloc, files, tree)
}
