//! What removal changes: nothing that a run tells.
ghost use Rattle.removal_laws.specs.RemovalSame.Laws.{RemovalKeepsSame, RemovalKeepsSteps};

/// A set that is taken, and what is left of it by marks that are closed for the system of requirements, do the same
/// from each entry that is kept, and at equal numbers of steps. It does nothing.
pub fn removal_keeps_same()
    ensures same { RemovalKeepsSame }
    ensures steps { RemovalKeepsSteps }
{}
