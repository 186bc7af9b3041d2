//! What derivations and levels have to do with marks.
ghost use Rattle.why_kept.specs.Laws.{AreMarkedByDerivations, BoundDerivations};

/// An item is in the least closed set of a valid system exactly where it has a derivation. It does nothing.
pub fn derivations_mark()
    ensures { AreMarkedByDerivations }
{}

/// Where levels are certified no derivation of an item is less deep than its level, and an item without a level has no
/// derivation. It does nothing.
pub fn levels_bound()
    ensures { BoundDerivations }
{}
