// How many things may become of the codes of a set.
ghost use Rattle.optimised_laws.specs.OneOptimised.{OneIsOptimised, SomeIsOptimised};

/// One thing becomes of the codes of a set that is taken and typed. It does nothing.
pub fn one_optimised()
    ensures { OneIsOptimised }
{}

/// Something becomes of the codes of a set that is taken and typed. It does nothing.
pub fn some_optimised()
    ensures { SomeIsOptimised }
{}
