//! What holds of the new names of a set, and of what is left of it under them.
ghost use Rattle.pair_laws.specs.OwnNames.Laws.{LeftAscends, LeftIsRenamed, MappingTellsNames, NewNamesKeepForm};
ghost use Rattle.pair_laws.specs.OwnNames.Laws.{NewNamesStayApart};

/// The mapping of what is kept of a set gives each class and each member the new name that it has, and no name to
/// anything else. It does nothing.
pub fn mapping_tells_names()
    ensures { MappingTellsNames }
{}

/// The new names of what closed marks keep of a set that is taken are names of their kind, tell it apart and leave
/// alone what is of the library. It does nothing.
pub fn new_names_stay_apart()
    ensures form { NewNamesKeepForm }
    ensures apart { NewNamesStayApart }
{}

/// What is left of such a set is what is kept under its new names, each class once, in the order of the paths. It does
/// nothing.
pub fn left_is_renamed()
    ensures all { LeftIsRenamed }
    ensures order { LeftAscends }
{}
