//! What holds of sets of classes that files are taken as.
ghost use Rattle.removal_laws.specs.AcceptedSets.Laws.{AcceptedAreTaken, LeftDoesTheSame, LeftIsAccepted};

/// A set that files are taken as is built, its classes follow the format, ranks fall in it, and it breaks no rule for
/// links. It does nothing.
pub fn accepted_sets_are_taken()
    ensures { AcceptedAreTaken }
{}

/// What marks that are closed for the system of requirements leave of such a set, with those attributes alone that a
/// filter keeps, is the set that files are taken as whose bytes spell its classes. It does nothing.
pub fn what_is_left_is_accepted()
    ensures { LeftIsAccepted }
{}

/// What is left of such a set, with those attributes alone that a filter keeps, does what the set does, from each entry
/// that is kept. It does nothing.
pub fn what_is_left_does_the_same()
    ensures { LeftDoesTheSame }
{}
