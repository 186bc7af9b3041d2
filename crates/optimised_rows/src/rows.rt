//! Rows of a small set, of what the passes make of it, and of what both do.
ghost use Rattle.optimised_rows.specs.Rows.{OptimisedRow, PrintsRow};

/// Carries what becomes of a small set by the passes, and that a run of each of both from the method that is edited
/// comes to its end and prints the same. It does nothing.
pub fn computed_optimised()
    ensures optimised { OptimisedRow }
    ensures prints { PrintsRow }
{}
