// What holds of what is kept of a set under its new names.
ghost use Rattle.pair_laws.specs.NamedForm.Laws.{KeptAreAllWritten, KeptAreWritable, OptimisedKeepsWritable};

use edit_laws::found::found_acts_are_legal;
use optimised_laws::laws::sets_by_rules_are_swapped;

/// Where a set was built and breaks no rule for links, what is kept of it by marks that are closed for the system of
/// requirements can be written under the names that it gets (JVMS 4.1 to 4.9), if each class of the set can be written.
/// It does nothing.
pub fn kept_can_be_written()
    ensures { KeptAreWritable }
{}

/// What is kept of such a set is written, each class once: no two come to one name. It does nothing.
pub fn kept_are_all_written()
    ensures { KeptAreAllWritten }
{}

/// Where a set is taken and typed, and each of its classes can be written, what is kept of the set with the codes that the
/// passes leave can be written under the names that it gets, by closed marks; that set has as many items, and the same
/// names stay. It does nothing.
pub fn optimised_can_be_written()
    ensures { OptimisedKeepsWritable }
{
    found_acts_are_legal();
    sets_by_rules_are_swapped();
}
