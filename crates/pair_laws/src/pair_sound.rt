//! What an answer of the check promises.
ghost use Rattle.pair_laws.specs.PairSound.Laws.{CheckedPairsDoTheSame, CheckedRunsRetrace};

/// Where `check_pair` takes a pair whose input files are taken as a set, the output does what the input does, and is
/// typed. It does nothing.
pub fn checked_pairs_do_the_same()
    ensures { CheckedPairsDoTheSame }
{}

/// And a trace of a run of the output from an entry, with old names, tells the frames of the input's. It does nothing.
pub fn checked_runs_retrace()
    ensures { CheckedRunsRetrace }
{}
