// What holds of what is due.
ghost use Rattle.check_command.specs.OneDue.{IsOneDue};

use pair_checker::pairs_have_one_answer;

/// Of the same files one thing at most is due for the command: that the pair is one, or one refusal. So it says `ok`
/// exactly where the pair is one. It does nothing.
pub fn one_answer()
    ensures { IsOneDue }
{
    pairs_have_one_answer();
}
