//! What holds of a set and of what is written of it.
ghost use Rattle.pair_laws.specs.OwnPairs.Laws.{OwnFilesAreBelow, OwnFilesAreFound, OwnFilesArePaired};
ghost use Rattle.pair_laws.specs.OwnPairs.Laws.{OwnIsAccepted, OwnPairs};

use edit_laws::found::found_acts_are_legal;
use optimised_laws::laws::sets_by_rules_are_swapped;

/// The files that are written of a set that is taken, with the codes that the passes leave, by closed marks, are taken
/// as a set; and with its mapping and the witness `check_pair` takes them for the files of the set. It does nothing.
pub fn own_pairs_are_taken()
    ensures accepted { OwnIsAccepted }
    ensures pair { OwnPairs }
{
    found_acts_are_legal();
    sets_by_rules_are_swapped();
}

/// So what is written does what the set does, from each entry, names read through the mapping, and each of its methods
/// is typed. It does nothing.
pub fn own_files_are_paired()
    ensures { OwnFilesArePaired }
{
    found_acts_are_legal();
    sets_by_rules_are_swapped();
}

/// The files that are written lie below the output directory; and where no file lay there before, they are the class
/// files that are found there. It does nothing.
pub fn own_files_are_found()
    ensures below { OwnFilesAreBelow }
    ensures found { OwnFilesAreFound }
{}
