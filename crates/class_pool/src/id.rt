// Classes by their numbers.
ghost use Rattle.std.specs.Prelude.{◌≡◌};
ghost use Rattle.std.specs.List.{list_any};
ghost use Rattle.class_pool.specs.Walk.{same_class};

use lib_table::LibId;

/// A class of a set, by its number there, or a class of the library.
#[derive(Clone, Copy, PartialEq, Eq)]
pub enum ClassId {
    Prog(u32),
    Lib(LibId),
}

/// A member of a class, by its number there: of a program class its fields are numbered first and then its methods, of
/// a library class the members as they stand in the table.
#[derive(Clone, Copy)]
pub struct MemberAt {
    pub class: ClassId,
    pub index: u32,
}

/// Whether two classes are one.
pub(crate) fn is_same_class(one: &ClassId, other: &ClassId) -> bool
    ensures { result ≡ same_class one.now other.now }
{
    one == other
}

/// Whether a list has a class.
pub(crate) fn has_class(ids: &[ClassId], class: &ClassId) -> bool
    ensures { result ≡ list_any (same_class class.now) ids.now }
{
    ids.iter().any(|id| is_same_class(class, id))
}
