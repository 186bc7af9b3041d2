//! What removal keeps of the types of methods.
ghost use Rattle.removal_laws.specs.RemovalTyped.Laws.{RemovalKeepsTyped};

/// Where each method of a set that is taken is typed, so is each one that is left by marks that are closed for the
/// system of requirements. It does nothing.
pub fn removal_keeps_typed()
    ensures { RemovalKeepsTyped }
{}
