//! What old names in a trace promise.
ghost use Rattle.pair_laws.specs.PairTrace.Laws.{FramesHaveCodes, FramesRetrace, RunsRetrace};

/// Where no clause of a pair holds, and both are in step, the frames of the output with old names are those of the
/// input. It does nothing.
pub fn frames_retrace()
    ensures { FramesRetrace }
{}

/// Each frame of a run from an entry of a set that is taken is of a method with a code, unless the run has gone wrong.
/// It does nothing.
pub fn frames_have_codes()
    ensures { FramesHaveCodes }
{}

/// So the frames of the output with old names are those of the input, wherever it is in step with a run of the input
/// from an entry. It does nothing.
pub fn runs_retrace()
    ensures { RunsRetrace }
{}
