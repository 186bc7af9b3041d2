//! Twelve sets of classes, each with a code that breaks one rule of the type checker.
ghost use Rattle.needed_rules.specs.Rows.{AreRefused, GoWrong};

/// The rule that each code breaks is its first fault; and of nine, which the machine can tell, the run goes wrong. It
/// does nothing.
pub fn rules_are_needed()
    ensures refused { AreRefused }
    ensures wrong { GoWrong }
{}
