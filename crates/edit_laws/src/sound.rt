// Sound codes that were edited.
ghost use Rattle.std.specs.Prelude.{◌≡◌, ◌-◌, List, length, true};
ghost use Rattle.class_model.specs.WellFormed.{IsGoodCode};
ghost use Rattle.class_model.specs.declared.code.Code.{Code};
ghost use Rattle.code_edit.specs.declared.act.Act.{Act};
ghost use Rattle.code_edit.specs.declared.act.Pass.{Pass};
ghost use Rattle.code_edit.specs.declared.act.PassEdits.{PassEdits};
ghost use Rattle.code_edit.specs.Applied.{applied, edited};
ghost use Rattle.code_edit.specs.Flow.{goes_elsewhere, of_ins};
ghost use Rattle.code_edit.specs.Legal.{AreRightActs, AreRightSteps};
ghost use Rattle.code_edit.specs.SoundCode.{IsSound};

/// Right acts leave a sound code sound, and so do steps of them: no target and no handler moves
/// behind the last instruction (JVMS 4.9.1). It does nothing.
pub fn right_acts_keep_sound()
    ensures step { (p : Pass) (acts : List Act) (code : Code) → AreRightActs p acts code
        → IsSound code → IsSound (applied p acts code) }
    ensures steps { (steps : List PassEdits) (code : Code) → AreRightSteps steps code
        → IsSound code → IsSound (edited steps code) }
{}

/// A code that follows the format is sound where its last instruction doesn't go on. It does
/// nothing.
pub fn good_codes_are_sound()
    ensures { (code : Code) → IsGoodCode code
        → of_ins goes_elsewhere code (length code.ins - 1) ≡ true → IsSound code }
{}
