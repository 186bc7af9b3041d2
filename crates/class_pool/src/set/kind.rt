// What may be done with a class.
ghost use Rattle.std.specs.Prelude.{◌≡◌};
ghost use Rattle.class_pool.specs.Hierarchy.{IsClass, kind_in, kind_of};

use crate::ClassId;
use crate::set::lookup::ClassesByName;
use bitflags::Flags;
use class_model::Class;
use jv_base::Access;
use lib_table::{LibKind, lib_kind};

/// An interface, a final class, or neither (JVMS 4.1).
pub(crate) fn kind_in(classes: &ClassesByName, id: ClassId) -> LibKind
    requires { IsClass classes.now id }
    ensures { result ≡ kind_in classes.now id }
{
    match id {
        ClassId::Prog(number) => kind_of(classes.class(number)),
        ClassId::Lib(id) => lib_kind(id),
    }
}

fn kind_of(class: &Class) -> LibKind
    ensures { result ≡ kind_of class.now }
{
    if class.flags.contains(Access::INTERFACE) {
        LibKind::Interface
    } else if class.flags.contains(Access::FINAL) {
        LibKind::Final
    } else {
        LibKind::Open
    }
}
