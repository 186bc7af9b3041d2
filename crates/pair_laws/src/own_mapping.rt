//! What holds of the mapping that is written.
ghost use Rattle.pair_laws.specs.OwnMapping.Laws.{OwnIsMapping, OwnMappingIsRead, OwnWitnessIsRead};
ghost use Rattle.pair_laws.specs.OwnMapping.Laws.{WritableHaveMapping};

use edit_laws::found::found_acts_are_legal;
use optimised_laws::laws::sets_by_rules_are_swapped;

/// The mapping of classes that can be written, under names under which they can be written and no two of which are one,
/// has a text that stands for it. It does nothing.
pub fn mappings_have_texts()
    ensures { WritableHaveMapping }
{}

/// So has the mapping that is written of a set, and its text is read as that mapping; and so has the witness, and its
/// text is read as that witness. It does nothing.
pub fn own_texts_are_read()
    ensures mapping { OwnIsMapping }
    ensures read { OwnMappingIsRead }
    ensures witness { OwnWitnessIsRead }
{
    found_acts_are_legal();
    sets_by_rules_are_swapped();
}
