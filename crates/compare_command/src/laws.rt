// What holds of what is due.
ghost use Rattle.compare_command.specs.OneDue.{IsOneDue};

/// Of the same files one thing at most is due for the command: that the output shows the same, or one refusal. So it
/// says `same` exactly where it does. It does nothing.
pub fn one_answer()
    ensures { IsOneDue }
{}
