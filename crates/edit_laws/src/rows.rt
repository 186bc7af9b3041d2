// What acts make of some codes.
ghost use Rattle.class_model.specs.declared.op.MemberRef.{MemberRef};
ghost use Rattle.edit_laws.specs.Rows.{AimRow, AimRun, BranchToStoreRow, CircleRow, CutRow, CutRun};
ghost use Rattle.edit_laws.specs.Rows.{DropRow, DropRun, ItselfRow, NeededRow};

/// What acts make of small codes, computed from the definitions, and two acts that aren't right:
/// a drop of what control needs, and a skip of a goto to itself. It does nothing.
pub fn computed_acts()
    ensures drop { DropRow }
    ensures needed { NeededRow }
    ensures cut { (field : MemberRef) → CutRow field }
    ensures branch_to_store { BranchToStoreRow }
    ensures aim { AimRow }
    ensures circle { CircleRow }
    ensures itself { ItselfRow }
{}

/// Small methods before acts of each pass and after them, run to their end: both return the same.
/// It does nothing.
pub fn computed_runs()
    ensures drop { DropRun }
    ensures cut { CutRun }
    ensures aim { AimRun }
{}
