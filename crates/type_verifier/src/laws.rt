// What holds of codes, sets and their faults.

ghost use Rattle.std.specs.Prelude.{◌≡◌, List};
ghost use Rattle.class_model.specs.declared.class.Class.{Class};
ghost use Rattle.type_verifier.specs.declared.fault.TypeFault.{TypeFault};
ghost use Rattle.type_verifier.specs.Environment.{Environment};
ghost use Rattle.type_verifier.specs.Typed.{IsFirstFault, Typed};
ghost use Rattle.type_verifier.specs.Verified.{AreTyped, IsSetFault};

/// No code is typed and has a first fault, and none has two.
pub fn codes_are_typed_or_at_fault()
    ensures either { (env : Environment) (fault : TypeFault) → Typed env → IsFirstFault env fault → ⊥ }
    ensures one { (env : Environment) (fault other : TypeFault) → IsFirstFault env fault → IsFirstFault env other
        → fault ≡ other }
{}

/// No set is typed and has a first fault, and none has two.
pub fn sets_are_typed_or_at_fault()
    ensures either { (classes : List Class) (fault : TypeFault) → AreTyped classes → IsSetFault classes fault → ⊥ }
    ensures one { (classes : List Class) (fault other : TypeFault) → IsSetFault classes fault → IsSetFault classes other
        → fault ≡ other }
{}
