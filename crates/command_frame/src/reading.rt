// The file that a command reads.
ghost use Rattle.std.specs.Prelude.{◌≡◌, ◌≤◌, IfOk, length};
ghost use Rattle.command_frame.specs.Steps.{Finds, IsFile, seen};

use crate::refusal::absent_file;
use crate::{Quantity, Stop};
use jv_base::{Bytes, Text};
use std::alloc::Global;
use tree_io::{ReadFault, Tree};

/// The bytes of a file, which has no more than its quantity may have.
pub fn read_file<T: Tree>(
    alloc: Global,
    quantity: Quantity,
    path: &Text,
    tree: &mut T,
) -> Result<Bytes, Stop>
    ensures short { IfOk result (λ bytes. length bytes ≤ 67108864) }
    ensures found { Finds result (λ fs. IsFile fs quantity path.now)
        (seen (T.files tree.old) (T.faults tree.old) (T.log tree.old))
        (seen (T.files tree.new) (T.faults tree.new) (T.log tree.new)) }
{
    match tree.read(alloc, path, quantity.limit()) {
        Ok(bytes) => Ok(bytes),
        Err(ReadFault::Absent) => Err(Stop::Refused(absent_file(path.clone()?))),
        Err(ReadFault::TooLong) => Err(Stop::Refused(quantity.passed(alloc)?)),
        Err(ReadFault::Failed) => Err(Stop::Device),
        Err(ReadFault::OutOfMemory) => Err(Stop::OutOfMemory),
    }
}
