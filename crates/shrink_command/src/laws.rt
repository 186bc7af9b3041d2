// What holds of what is due, of what is kept, and of a pair that `check` takes.
ghost use Rattle.pair_laws.specs.PairSound.Laws.{CheckedFramesRetrace};
ghost use Rattle.shrink_command.specs.OneDue.{IsOneDue};
ghost use Rattle.shrink_command.specs.OwnPair.{DueIsOwnPair};
ghost use Rattle.shrink_command.specs.SomeDue.{IsSomeDue};
ghost use Rattle.shrink_command.specs.SomeMarks.{AreSomeMarks};

/// Of the same files one thing at most is due for a command: one plan, or one refusal. So what is written and said
/// doesn't depend on how it was found. It does nothing.
pub fn one_due()
    ensures { IsOneDue }
{}

/// Of files that hold bytes something is due for each command: a plan, or a refusal. So, with `one_due`, exactly one
/// thing is. It does nothing.
pub fn some_due()
    ensures { IsSomeDue }
{}

/// What is due to be written for told files is a pair with what is read of them, of which no clause of `check` holds;
/// so from each entry it does what the input does, names read through the mapping, and each of its methods is typed. It
/// does nothing.
pub fn what_is_due_is_a_pair()
    ensures { DueIsOwnPair }
{}

/// Each valid system has a least closed set. So the definition of what is kept of a set always names something. It does
/// nothing.
pub fn some_marks()
    ensures { AreSomeMarks }
{}

/// Where `check_pair` takes a pair whose input files are taken as a set, the frames of the output, told with old names,
/// are those of the input, wherever both are in step. It does nothing.
pub fn frames_retrace()
    ensures { CheckedFramesRetrace }
{}
