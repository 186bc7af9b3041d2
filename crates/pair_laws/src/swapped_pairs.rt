//! Pairs with other codes of the input.
ghost use Rattle.pair_laws.specs.SwappedPairs.Laws.{SwapKeepsPairs};

/// What no clause but CodeDiffers holds of is a pair with other codes of the input, which name nothing more, where the
/// codes of the output are those. It does nothing.
pub fn pairs_stay_with_other_codes()
    ensures { SwapKeepsPairs }
{}
