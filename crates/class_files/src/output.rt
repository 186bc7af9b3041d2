// Files that are written one after the other.
ghost use Rattle.std.specs.Prelude.{◌≤◌, IsErrOf};
ghost use Rattle.tree_io.specs.Count.{Rose};
ghost use Rattle.tree_io.specs.Runs.{AddsCalls};
ghost use Rattle.class_files.specs.Output.{Writes};

use jv_base::Items;
use std::alloc::Global;
use tree_io::{FileAt, Tree, WriteFault};

/// Writes files in their order.
///
/// # Errors
///
/// `Failed` where the device failed: then the files before one are written, that one may hold any bytes, and all else
/// is as it was. After `OutOfMemory` the files before one are written.
pub fn write_files<T: Tree>(
    alloc: Global,
    files: &Items<FileAt>,
    tree: &mut T,
) -> Result<(), WriteFault>
    ensures later { T.faults tree.old ≤ T.faults tree.new }
    ensures failed { IsErrOf result WriteFault.Failed → Rose (T.faults tree.old) (T.faults tree.new) }
    ensures written { AddsCalls (T.log tree.old) (T.log tree.new) (T.files tree.old) (T.files tree.new)
        (Writes result files.now) }
{
    for file in files.as_slice() {
        tree.write(alloc, &file.path, file.bytes.as_slice())?;
    }
    Ok(())
}
