// What is handed to a set, and why it may be none.
ghost use Rattle.std.specs.Prelude.{◌≡◌};
ghost use Rattle.class_pool.specs.KindNames.{pool_name};

use class_model::Class;
use jv_base::{Name, Text};
use std::fmt::{self, Display, Formatter};

/// A class, and the path of its file below the directory.
#[derive(Drop)]
pub struct NamedClass {
    pub path: Text,
    pub class: Class,
}

/// The files are no set. The tests go in three rounds, each over all classes in the order of the files; the first
/// fault counts, and at one class of a round the kinds come in their order.
#[derive(Drop)]
pub struct PoolFault {
    /// The name of the class at fault.
    pub class: Name,
    pub kind: PoolKind,
}

impl Display for PoolFault {
    fn fmt<W: fmt::Write>(&self, f: &mut Formatter<W>) -> fmt::Result {
        write!(f, "{} at {}", self.kind.name(), self.class.as_str())
    }
}

/// What is wrong with a class.
#[derive(Clone, Copy, Debug, PartialEq, Eq)]
pub enum PoolKind {
    /// First round: the path isn't the name followed by `.class`.
    NameMismatch,
    /// First round: the name begins with `java/`.
    LibraryName,
    /// Second round: a direct supertype is neither in the set nor in the library.
    SuperMissing,
    /// Second round: the superclass is an interface or final, a direct superinterface is no interface, or an
    /// interface's superclass isn't Object (JVMS 4.1).
    SuperKind,
    /// Third round: the class is its own proper supertype (JVMS 5.3.5).
    Cycle,
}

impl PoolKind {
    /// Its name, as it stands in the texts of faults.
    pub fn name(self) -> &'static str
        ensures { result.now ≡ pool_name self }
    {
        match self {
            PoolKind::NameMismatch => "NameMismatch",
            PoolKind::LibraryName => "LibraryName",
            PoolKind::SuperMissing => "SuperMissing",
            PoolKind::SuperKind => "SuperKind",
            PoolKind::Cycle => "Cycle",
        }
    }
}
