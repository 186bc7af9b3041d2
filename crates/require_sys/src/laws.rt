// What closed sets of items have.
ghost use Rattle.require_sys.specs.Closing.{KeepsForClass, KeepsForField, KeepsForMethod, KeepsSelected};
ghost use Rattle.require_sys.specs.Closing.{KeepsSupertypes};

/// What a closed set of the items of a set of classes has: with a class its supertypes and all that it wants, with a
/// field or a method what that wants, and with a class and a method above it the method that runs where that one is
/// called on an object of the class. It does nothing.
pub fn closed_sets_keep()
    ensures supertypes { KeepsSupertypes }
    ensures class { KeepsForClass }
    ensures field { KeepsForField }
    ensures method { KeepsForMethod }
    ensures selected { KeepsSelected }
{}
