//! What `check` finds where a set was written.
ghost use Rattle.pair_laws.specs.OwnChecked.Laws.{ElsewhereChangesNothing, OwnFilesAreFoundAgain};

use edit_laws::found::found_acts_are_legal;
use optimised_laws::laws::sets_by_rules_are_swapped;

/// Files that are put elsewhere change nothing of the class files below a directory. It does nothing.
pub fn elsewhere_changes_nothing()
    ensures { ElsewhereChangesNothing }
{}

/// What is written of a set, texts and all, is found again by the config: the config stands as before, the mapping and
/// the witness are read as they were written, the input is as before, and below the output directory stand the class
/// files that were written, unless these pass a limit. It does nothing.
pub fn own_files_are_found_again()
    ensures { OwnFilesAreFoundAgain }
{
    found_acts_are_legal();
    sets_by_rules_are_swapped();
}
