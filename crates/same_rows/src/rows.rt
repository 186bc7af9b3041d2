//! Rows of a small set, of what is written of it, and of what both do.
ghost use Rattle.same_rows.specs.Rows.{BeginRow, EntryRow, MarksRow, NamesRow, PairRow, PairedRow, SameRow, ShrunkRow, TakenRow};
ghost use Rattle.same_rows.specs.Rows.{RunRow, TextsRow};

use pair_laws::own_pairs::own_files_are_paired;

/// Carries that a small set has an entry with which a run may begin, what is kept of it and what is written, that this does the same as the set by
/// what is promised of a pair, and that a run of each from the entry comes to its end and prints the same. It does
/// nothing.
pub fn computed_same()
    ensures entry { EntryRow }
    ensures begin { BeginRow }
    ensures taken { TakenRow }
    ensures pair { PairRow }
    ensures marks { MarksRow }
    ensures shrunk { ShrunkRow }
    ensures texts { TextsRow }
    ensures names { NamesRow }
    ensures same { SameRow }
    ensures paired { PairedRow }
    ensures run { RunRow }
{
    own_files_are_paired();
}
