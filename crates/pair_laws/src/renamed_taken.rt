//! What new names break: no rule for files or links.
ghost use Rattle.pair_laws.specs.RenamedTaken.Laws.{RenamedBuilds, RenamedIsTaken, RenamedKeepsCount};
ghost use Rattle.pair_laws.specs.RenamedTaken.Laws.{RenamedKeepsLinks};

/// The classes of a set that is taken, under names that keep the form and stay apart and in whatever order, are a set
/// that is taken, where they stand in files in the order of their paths: it is built, and `build` tells no fault; it
/// has as many items; and it breaks no rule that `check_links` tests. It does nothing.
pub fn renamed_sets_are_taken()
    ensures taken { RenamedIsTaken }
    ensures built { RenamedBuilds }
    ensures count { RenamedKeepsCount }
    ensures links { RenamedKeepsLinks }
{}
