//! What holds of each step and of each run, from facts on the set of classes.
ghost use Rattle.fit_laws.specs.Laws.{InstructionsFit, NeverWrong, StepsFit, WholeAlike};

/// Each instruction does what fits its rule; each step keeps what fits; so no run from a state that fits goes
/// wrong, and two programs do the same without an exception where the first never goes wrong. It does nothing.
pub fn steps_keep_fits()
    ensures instructions { InstructionsFit }
    ensures steps { StepsFit }
    ensures never { NeverWrong }
    ensures whole { WholeAlike }
{}
