// Calls on classes.
ghost use Rattle.std.specs.Prelude.{◌<◌, length, Ok, IfOk};
ghost use Rattle.jv_base.specs.Outcome.{IsDue};
ghost use Rattle.class_model.specs.ClassFile.{File};
ghost use Rattle.class_model.specs.ReadingClass.{class_read};
ghost use Rattle.class_model.specs.WellFormed.{IsWellFormed, CountsFit};
ghost use Rattle.class_model.specs.WriteLimits.{class_written};
ghost use Rattle.class_model.specs.declared.class.Class.{Class};

use class_model::{Class, WriteLimit};
use format_reading::FormatFault;
use jv_base::{Bytes, Or};
use std::alloc::Global;

/// `read_class` of `class_read`.
pub fn read_class(alloc: Global, bytes: &[u8]) -> Result<Class, Or<FormatFault>>
    requires { length bytes.now < 4294967295 }
    ensures found { IfOk result (λ class. File bytes.now class) }
    ensures only { (class : Class) → File bytes.now class → IsDue result (Ok class) }
    ensures exact { IsDue result (class_read bytes.now) }
{
    class_read::read_class(alloc, bytes)
}

/// `write_class` of `class_write`.
pub fn write_class(alloc: Global, class: &Class) -> Result<Bytes, Or<WriteLimit>>
    requires well_formed { IsWellFormed class.now }
    requires words { CountsFit class.now }
    ensures exact { IsDue result (class_written class.now) }
{
    class_write::write_class(alloc, class)
}
