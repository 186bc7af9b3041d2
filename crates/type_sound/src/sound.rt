//! What holds of each run that begins in a set of classes that is taken and whose methods are typed.
ghost use Rattle.type_sound.specs.Laws.{NeverGoesWrong, SameWhole, StartFits, StepFits, TakenSound};

/// Such a set is sound: each step keeps what fits, each run begins with what fits, so none goes wrong, and a
/// program that does the same as the set does the whole of it. It does nothing.
pub fn taken_sets_are_sound()
    ensures sound { TakenSound }
    ensures law_step_fits { StepFits }
    ensures law_start_fits { StartFits }
    ensures law_never_wrong { NeverGoesWrong }
    ensures law_same_whole { SameWhole }
{}
