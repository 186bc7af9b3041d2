// What the passes find.
ghost use Rattle.found_laws.specs.Laws.{FoundActsAreOne, FoundActsAreSome};

/// What a pass finds on a sound code is one list of acts. It does nothing.
pub fn found_acts_are_one()
    ensures { FoundActsAreOne }
{}

/// A pass finds acts on each sound code, and const where control may come to each instruction. It
/// does nothing.
pub fn found_acts_are_some()
    ensures { FoundActsAreSome }
{}
