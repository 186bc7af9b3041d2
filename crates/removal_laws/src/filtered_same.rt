//! What a set does without optional attributes: the same.
ghost use Rattle.removal_laws.specs.FilteredSame.Laws.{FilteringKeepsSame};

/// A set of classes and the same set without some of its optional attributes do the same, from all entries. It does
/// nothing.
pub fn filtering_keeps_same()
    ensures { FilteringKeepsSame }
{}
