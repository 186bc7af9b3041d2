// What a few small programs do, and where a run of one may begin.
//
// Each clause is computed from the definitions. The programs are written out in specs/Examples.antt.
ghost use Rattle.set_view.specs.Examples.{Arrays, Calls, Exceptions, FailedInitialisation, HashCodes, Initialisation};
ghost use Rattle.set_view.specs.Examples.{Loop, Selection, Startable};

/// Carries what the machine does with a few small programs, and where a run may begin. It does nothing.
pub fn computed_runs()
    ensures hash_codes { HashCodes }
    ensures loops { Loop }
    ensures calls { Calls }
    ensures exceptions { Exceptions }
    ensures failed_initialisation { FailedInitialisation }
    ensures initialisation { Initialisation }
    ensures selection { Selection }
    ensures arrays { Arrays }
    ensures startable { Startable }
{}
