//! What holds of all that `run` and `compare` are due to say.
ghost use Rattle.run_laws.specs.Pairs.{CheckedNeverDiffer, PairsNeverDiffer};
ghost use Rattle.run_laws.specs.Runs.{RunsNeverGoWrong};

/// What `run` is due to say of told files, where it isn't refused, tells of a run that goes wrong at no number of steps,
/// whatever the entry, the steps and the words. It does nothing.
pub fn runs_never_go_wrong()
    ensures { RunsNeverGoWrong }
{}

/// Where the class files of an output belong to those of its input, with some witness, `compare` by the same config is
/// never due to say that they differ, whatever the entry, the steps and the words; nor is it where `check` by the same
/// config is due to say `ok`. It does nothing.
pub fn pairs_never_differ()
    ensures told { PairsNeverDiffer }
    ensures checked { CheckedNeverDiffer }
{}
