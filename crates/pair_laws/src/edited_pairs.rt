//! Pairs whose codes were edited.
ghost use Rattle.pair_laws.specs.EditedPairs.Laws.{EditedPairsDoTheSame};

/// The output of a pair does what the input does where its codes are those of the input after steps of right acts, under
/// the new names; and its traces tell the input's frames. It does nothing.
pub fn edited_pairs_do_the_same()
    ensures { EditedPairsDoTheSame }
{}
