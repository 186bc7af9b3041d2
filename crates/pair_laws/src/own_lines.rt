//! What holds of the mapping of what is left, and of what is written.
ghost use Rattle.pair_laws.specs.OwnLines.Laws.{LinesAreToldByMarks, OwnLines};

/// The mapping of what is left tells the new name of each item that is marked, and of no other. It does nothing.
pub fn lines_are_told()
    ensures { LinesAreToldByMarks }
{}

/// No clause but MapShape, of which nothing is said here, finds a place in a set and what is written of it. It does
/// nothing.
pub fn own_lines_hold()
    ensures { OwnLines }
{}
