// The set of classes of a directory.
ghost use Rattle.std.specs.Prelude.{IfOk};
ghost use Rattle.std.specs.List.{AllByRecursion};
ghost use Rattle.class_laws.specs.SpellingLaws.{IsWritable};
ghost use Rattle.command_frame.specs.Steps.{Makes};
ghost use Rattle.command_steps.specs.Sets.{AreClassFiles, IsSet};

use crate::refusals::{no_class_file, no_set};
use class_files::path_in;
use class_pool::ClassSet;
use command_frame::Stop;
use jv_base::{Items, Or, Text};
use set_read::{SetFault, read_set};
use std::alloc::Global;
use tree_io::FileAt;

/// The set of class files that lie below a directory. Each class can be written.
pub fn set_of(alloc: Global, directory: &Text, files: Items<FileAt>) -> Result<ClassSet, Stop>
    requires { AreClassFiles files }
    ensures made { Makes result (IsSet directory.now files) }
    ensures writable { IfOk result (AllByRecursion IsWritable) }
{
    match read_set(alloc, files) {
        Ok(set) => Ok(set),
        Err(Or::Fault(SetFault::Format(below, fault))) => {
            let path = path_in(alloc, directory, &below)?;
            Err(Stop::Refused(no_class_file(alloc, &path, &fault)?))
        }
        Err(Or::Fault(SetFault::Rule(fault))) => Err(Stop::Refused(no_set(alloc, &fault)?)),
        Err(Or::OutOfMemory) => Err(Stop::OutOfMemory),
    }
}
