//! Two small sets: one that isn't typed and goes wrong, and one that is taken and typed and so never does.
ghost use Rattle.type_sound.specs.Rows.{FailingNeverWrong, FailingTaken, FailingTyped, GoesWrong, NotTyped};

/// A run that loads a local which nothing was stored to goes wrong, and its set isn't typed; a set with an
/// initialisation that fails is taken and typed, and no number of steps makes its run go wrong. It does nothing.
pub fn two_runs()
    ensures not_typed { NotTyped }
    ensures goes_wrong { GoesWrong }
    ensures taken { FailingTaken }
    ensures typed { FailingTyped }
    ensures never_wrong { FailingNeverWrong }
{}
