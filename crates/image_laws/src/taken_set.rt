//! What holds of each set that was built of well-formed classes and breaks no rule for links.
ghost use Rattle.image_laws.specs.TakenSet.Laws.{AreProper, FindTheirClasses, FindTheirMembers};
ghost use Rattle.image_laws.specs.TakenSet.Laws.{HaveMembersThatDiffer, HaveOpenInterfaces};

/// What building, the format and the rules for links give together. It does nothing.
pub fn taken_sets_are_proper()
    ensures proper { AreProper }
    ensures members { HaveMembersThatDiffer }
    ensures names { FindTheirClasses }
    ensures own_members { FindTheirMembers }
    ensures interfaces { HaveOpenInterfaces }
{}
