// What holds of what is due.
ghost use Rattle.run_command.specs.OneDue.{IsOneDue};

/// Of the same files one thing at most is due for the command: one text, or one refusal. So what is said doesn't depend
/// on how it was found. It does nothing.
pub fn one_answer()
    ensures { IsOneDue }
{}
