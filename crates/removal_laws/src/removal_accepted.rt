//! What removal leaves, without the attributes that aren't kept: a set that is taken and typed.
ghost use Rattle.removal_laws.specs.RemovalAccepted.Laws.{FilteredRemovalKeepsTaken, FilteredRemovalKeepsTyped};

/// What is left of a set that is taken, by marks that are closed for the system of requirements, and with those
/// attributes alone that a filter keeps, is taken, whether Exceptions is kept or not, and each method of it is typed
/// where each of the set is. It does nothing.
pub fn filtered_removal_keeps_accepted()
    ensures taken { FilteredRemovalKeepsTaken }
    ensures typed { FilteredRemovalKeepsTyped }
{}
