// What holds of the answers on pairs.
ghost use Rattle.pair_checker.specs.OneAnswer.{IsOneNo, NotBoth};

/// A pair is never both taken and refused, nor refused in two ways. It does nothing.
pub fn pairs_have_one_answer()
    ensures either { NotBoth }
    ensures one { IsOneNo }
{}
