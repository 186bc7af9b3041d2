// What holds of classes under new names.
ghost use Rattle.pair_laws.specs.RenamedForm.GivenForm.{GivenAreWritable, GivenKeepsForm};
ghost use Rattle.pair_laws.specs.RenamedForm.Laws.{RenamedIsWellFormed, RenamedIsWritable, ToldIsApart};

/// A class that is well formed is well formed under new names that are names of their kind and keep its members apart,
/// and its counts fit as before (JVMS 4.1 to 4.9).
pub fn renamed_is_well_formed()
    ensures { RenamedIsWellFormed }
{}

/// A class that can be written can be written under such names: its numbers and texts are those that the code can hold.
pub fn renamed_is_writable()
    ensures { RenamedIsWritable }
{}

/// Names that keep known classes apart, and names of fields and of methods, keep the members of a class apart, if their
/// types name known classes.
pub fn told_is_apart()
    ensures { ToldIsApart }
{}

/// New names that are given in their order are names of their kind (JVMS 4.2).
pub fn given_names_keep_form()
    ensures { GivenKeepsForm }
{}

/// Kept classes that can be written can be written under new names that are given in their order, if types of their
/// members name no class but those that are kept, or whose names stay, or in packages without kept classes.
pub fn given_names_are_writable()
    ensures { GivenAreWritable }
{}
