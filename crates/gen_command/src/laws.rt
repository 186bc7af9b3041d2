// What holds of what is due.
ghost use Rattle.gen_command.specs.OneDue.{IsOneDue, IsSomeDue};

/// Of the same files one thing at most is due for a set and a directory: the plan, or that a file is there. It does
/// nothing.
pub fn one_due()
    ensures { IsOneDue }
{}

/// Of told files something is due for each set and directory. So, with `one_due`, exactly one thing is. It does
/// nothing.
pub fn some_due()
    ensures { IsSomeDue }
{}
