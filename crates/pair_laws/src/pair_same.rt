//! What the clauses of a pair promise to somebody who runs the output.
ghost use Rattle.pair_laws.specs.PairSame.Laws.{EntriesHaveLines, PairsDoTheSame};
ghost use Rattle.pair_laws.specs.PairSame.OneToOne.{NamesAreOneToOne};

/// Where no clause holds of two sets that are taken, they do the same from each entry that has a line. It does nothing.
pub fn pairs_do_the_same()
    ensures { PairsDoTheSame }
{}

/// Each entry of the input has a line, where no clause holds. It does nothing.
pub fn entries_have_lines()
    ensures { EntriesHaveLines }
{}

/// Then what is of the library keeps its name, and no two classes, fields or methods come to one name. It does nothing.
pub fn names_are_one_to_one()
    ensures { NamesAreOneToOne }
{}
