// What stays of a set as a program.
ghost use Rattle.shape_laws.specs.Laws.{KeepingMembersKeepsShape, OtherCodesKeepShape};

/// Where a change of classes leaves alone what names are looked up by, or where the codes of the
/// methods alone are others, a set has the same shape as a program. It does nothing.
pub fn shapes_stay()
    ensures members { KeepingMembersKeepsShape }
    ensures codes { OtherCodesKeepShape }
{}
