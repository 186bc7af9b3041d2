// What a few runs have come to.
//
// Each clause is computed from the definitions. The classes are written out in specs/Examples.antt.
ghost use Rattle.class_run.specs.Examples.{Returning, Starting, Throwing};

/// Carries what a few runs have come to, by the definitions. It does nothing.
pub fn computed_ends()
    ensures returned { Returning }
    ensures thrown { Throwing }
    ensures started { Starting }
{}
