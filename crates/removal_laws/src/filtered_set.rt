//! What stays of a set where optional attributes are taken away.
ghost use Rattle.removal_laws.specs.FilteredSet.Laws.{FilteringKeepsTaken, FilteringKeepsTyped};

/// A set that is taken is taken without some of its optional attributes, and each method that is typed is typed. It
/// does nothing.
pub fn filtering_keeps_accepted()
    ensures taken { FilteringKeepsTaken }
    ensures typed { FilteringKeepsTyped }
{}
