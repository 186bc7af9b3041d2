// What the acts are of some codes.
ghost use Rattle.const_laws.specs.Rows.{AtBoundRow, BehindLongRow, BeyondRow, CaseRow};
ghost use Rattle.const_laws.specs.Rows.{DefaultRow, ForgedRow, LocalCodeRow, LocalRow, LongRow};
ghost use Rattle.const_laws.specs.Rows.{OnwardCodeRow, OnwardRow, RunsRow, SecondTargetRow};
ghost use Rattle.const_laws.specs.Rows.{TakenCodeRow, TakenRow, TargetRow, TwoRow};

/// The acts of small codes and the codes after them, computed from the definitions; what some
/// instructions do to a local variable, a fact without support, and the bound. It does nothing.
pub fn computed_constants()
    ensures taken { TakenRow }
    ensures taken_code { TakenCodeRow }
    ensures onward { OnwardRow }
    ensures onward_code { OnwardCodeRow }
    ensures local { LocalRow }
    ensures local_code { LocalCodeRow }
    ensures two { TwoRow }
    ensures second_target { SecondTargetRow }
    ensures case { CaseRow }
    ensures default { DefaultRow }
    ensures runs { RunsRow }
    ensures long { LongRow }
    ensures behind_long { BehindLongRow }
    ensures target { TargetRow }
    ensures forged { ForgedRow }
    ensures at_bound { AtBoundRow }
    ensures beyond { BeyondRow }
{}
