//! What removal leaves: files that `build` takes, and a set that is taken.
ghost use Rattle.removal_laws.specs.RemovalBuilds.Laws.{RemovalBuildsAgain, RemovalKeepsTaken};

/// The files of what is left of a set that is taken, by marks that are closed for the system of requirements, are all
/// that `build` asks for: their paths ascend, they are few enough, and they have no fault, so it tells none. It does
/// nothing.
pub fn removal_builds_again()
    ensures { RemovalBuildsAgain }
{}

/// What is left of a set that is taken, by such marks, is taken too, where the attribute Exceptions is kept: it is
/// built, its classes follow the format, ranks fall in it, and it breaks no rule for links. It does nothing.
pub fn removal_keeps_taken()
    ensures { RemovalKeepsTaken }
{}
