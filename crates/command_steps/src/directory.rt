// The class files of a directory.
ghost use Rattle.std.specs.Prelude.{◌≡◌, IfOk};
ghost use Rattle.command_frame.specs.Steps.{Finds, seen};
ghost use Rattle.command_steps.specs.Sets.{AreClassFiles, IsDirectory};

use class_files::{InputFault, read_files};
use command_frame::{Quantity, Stop, absent_file};
use jv_base::{Items, Text};
use std::alloc::Global;
use tree_io::{FileAt, Tree};

/// The class files below a directory, with their paths below it.
pub fn find_files<T: Tree>(
    alloc: Global,
    directory: &Text,
    tree: &mut T,
) -> Result<Items<FileAt>, Stop>
    ensures taken { IfOk result AreClassFiles }
    ensures found { Finds result (λ fs. IsDirectory fs directory.now)
        (seen (T.files tree.old) (T.faults tree.old) (T.log tree.old))
        (seen (T.files tree.new) (T.faults tree.new) (T.log tree.new)) }
{
    match read_files(alloc, directory, tree) {
        Ok(files) => Ok(files),
        Err(InputFault::TooManyFiles) => Err(Stop::Refused(Quantity::Files.passed(alloc)?)),
        Err(InputFault::TooManyClasses) => Err(Stop::Refused(Quantity::Classes.passed(alloc)?)),
        Err(InputFault::TooLong) => Err(Stop::Refused(Quantity::Input.passed(alloc)?)),
        Err(InputFault::Absent(path)) => Err(Stop::Refused(absent_file(path))),
        Err(InputFault::Failed) => Err(Stop::Device),
        Err(InputFault::OutOfMemory) => Err(Stop::OutOfMemory),
    }
}
