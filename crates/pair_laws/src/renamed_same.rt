//! What removal and new names change: nothing that a run tells.
ghost use Rattle.pair_laws.specs.RenamedSame.Laws.{NewNamesKeepSame, RenamedKeepsSame};

/// A set that is taken, and what closed marks leave of it under names that stay apart, do the same from each entry that
/// is kept. It does nothing.
pub fn new_names_keep_same()
    ensures { NewNamesKeepSame }
{}

/// A set that is taken, and its classes under names that stay apart, in whatever order, do the same from each entry. It
/// does nothing.
pub fn renaming_keeps_same()
    ensures { RenamedKeepsSame }
{}
