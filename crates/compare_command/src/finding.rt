// What the command reads.
ghost use Rattle.std.specs.Prelude.{[]};
ghost use Rattle.command_frame.specs.Steps.{Finds, seen};
ghost use Rattle.command_steps.specs.Config.{IsConfigured};
ghost use Rattle.compare_command.specs.Due.{IsMappingAt, IsSetAt};

use class_pool::ClassSet;
use command_frame::{Quantity, Stop, read_file};
use command_steps::{find_config, find_files, mapping_in, set_of};
use jv_base::Text;
use keep_rules::Rules;
use mapping_file::Mapping;
use std::alloc::Global;
use tree_io::Tree;

/// The rules of the config, where no file is a witness.
pub(crate) fn find_rules<T: Tree>(alloc: Global, config: &Text, tree: &mut T) -> Result<Rules, Stop>
    ensures { Finds result (λ fs. IsConfigured fs config.now [])
        (seen (T.files tree.old) (T.faults tree.old) (T.log tree.old))
        (seen (T.files tree.new) (T.faults tree.new) (T.log tree.new)) }
{
    let no_witness = Text::from_str(alloc, "")?;
    find_config(alloc, config, &no_witness, tree)
}

/// The mapping in a file.
pub(crate) fn find_mapping<T: Tree>(
    alloc: Global,
    path: &Text,
    tree: &mut T,
) -> Result<Mapping, Stop>
    ensures { Finds result (λ fs. IsMappingAt fs path.now)
        (seen (T.files tree.old) (T.faults tree.old) (T.log tree.old))
        (seen (T.files tree.new) (T.faults tree.new) (T.log tree.new)) }
{
    let map = read_file(alloc, Quantity::Mapping, path, tree)?;
    mapping_in(alloc, map.as_slice())
}

/// The class files below a directory, as a set.
pub(crate) fn find_set<T: Tree>(
    alloc: Global,
    directory: &Text,
    tree: &mut T,
) -> Result<ClassSet, Stop>
    ensures { Finds result (λ fs. IsSetAt fs directory.now)
        (seen (T.files tree.old) (T.faults tree.old) (T.log tree.old))
        (seen (T.files tree.new) (T.faults tree.new) (T.log tree.new)) }
{
    let files = find_files(alloc, directory, tree)?;
    set_of(alloc, directory, files)
}
