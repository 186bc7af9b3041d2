// What the definitions of the canonical spelling give for a few codes.
//
// Each clause is computed from the definitions. The codes are written out in specs/rows/Examples.antt.
ghost use Rattle.code_write.specs.rows.Examples.{AreOnMembers, AreOnTypes, AreNewArrays};

/// Carries what the definitions give for a few codes. It does nothing.
pub fn computed_codes()
    ensures on_members { AreOnMembers }
    ensures on_types { AreOnTypes }
    ensures new_arrays { AreNewArrays }
{}
