// What does the same under the names of a mapping.
ghost use Rattle.mapping_laws.specs.Laws.{MappedKeepsSame};

/// A set that is taken, and its classes under the names of a mapping that has a line for each item and at which
/// MapShape, FixedName and Package find no place, in whatever order, do the same from each entry. It does nothing.
pub fn mapped_classes_keep_same()
    ensures { MappedKeepsSame }
{}
