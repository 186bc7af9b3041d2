// What holds of what is due.
ghost use Rattle.why_command.specs.OneDue.{IsOneDue};
ghost use Rattle.why_command.specs.Answers.{AnswersTellWhy};

/// Of the same files one thing at most is due for the command: one text, or one refusal. So what is said doesn't depend
/// on how it was found. It does nothing.
pub fn one_answer()
    ensures { IsOneDue }
{}

/// A text that is due is that of the answer of `why` for what the rules of the told config require of the told class
/// files: the steps of a derivation than which none is less deep, or `none` where the item has no derivation. It does
/// nothing.
pub fn answers_tell_why()
    ensures { AnswersTellWhy }
{}
