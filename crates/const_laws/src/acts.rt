// The acts that const gives a code.
ghost use Rattle.std.specs.Prelude.{◌≡◌, ◌<◌, ℕ, [], false, List, Some, slice_get};
ghost use Rattle.class_model.specs.declared.code.Code.{Code};
ghost use Rattle.code_edit.specs.declared.act.Act.{Act};
ghost use Rattle.code_edit.specs.Constants.{AreLegalConst};
ghost use Rattle.code_edit.specs.ConstEdits.{IsConstEdits};
ghost use Rattle.code_edit.specs.Facts.{IsAllReached};
ghost use Rattle.code_edit.specs.Legal.{share_place};
ghost use Rattle.code_edit.specs.Passes.{IsReachEdits};

/// They are legal, and no two of them name one place. It does nothing.
pub fn own_acts_are_legal()
    ensures legal { (code : Code) (acts : List Act) → IsConstEdits code acts
        → AreLegalConst acts code }
    ensures once { (code : Code) (acts : List Act) → IsConstEdits code acts
        → (before k : ℕ) (b a : Act) → before < k → slice_get acts before ≡ Some b
        → slice_get acts k ≡ Some a → share_place b a ≡ false }
{}

/// There is one list of them. It does nothing.
pub fn own_acts_are_one()
    ensures { (code : Code) (acts others : List Act) → IsConstEdits code acts
        → IsConstEdits code others → acts ≡ others }
{}

/// Control may reach each instruction of a code of which reach finds nothing to drop, so const may
/// be asked for its acts. It does nothing.
pub fn left_codes_are_reached()
    ensures { (code : Code) → IsReachEdits code [] → IsAllReached code }
{}
