//! What new names change: nothing that supertypes, resolution, access and selection ask for.
ghost use Rattle.pair_laws.specs.RenamedImage.Laws.{RenamedIsImage};

/// The classes of a set under new names that stay apart are an image of the set, in whatever order. It does nothing.
pub fn renamed_sets_are_images()
    ensures { RenamedIsImage }
{}
