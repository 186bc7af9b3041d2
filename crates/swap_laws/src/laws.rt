// What stays of a set in which methods get other codes.
ghost use Rattle.swap_laws.specs.Laws.{EditedCodesFollowFormat, EditedSetsAreSwapped, RulesMatchAlike};
ghost use Rattle.swap_laws.specs.Laws.{SwapKeepsClosed, SwapKeepsLinks, SwapKeepsTaken};

/// A set that is taken is taken with codes that follow the format and name nothing but what its own name. It does
/// nothing.
pub fn swapped_sets_are_taken()
    ensures links { SwapKeepsLinks }
    ensures taken { SwapKeepsTaken }
{}

/// Rules keep of a set what they keep of it with other codes, whatever these are. It does nothing.
pub fn rules_match_alike()
    ensures { RulesMatchAlike }
{}

/// What is closed for a set is closed for it with codes that name nothing more. It does nothing.
pub fn swapped_sets_stay_closed()
    ensures { SwapKeepsClosed }
{}

/// Sound codes that follow the format do so after steps of right acts; so a set that is taken and typed is swapped for
/// one with such codes. It does nothing.
pub fn edited_codes_follow_the_format()
    ensures format { EditedCodesFollowFormat }
    ensures swapped { EditedSetsAreSwapped }
{}
