// What the passes find.
ghost use Rattle.std.specs.Prelude.{List};
ghost use Rattle.class_model.specs.declared.code.Code.{Code};
ghost use Rattle.code_edit.specs.declared.act.Act.{Act};
ghost use Rattle.code_edit.specs.declared.act.Pass.{Pass};
ghost use Rattle.code_edit.specs.Legal.{AreLegal};
ghost use Rattle.code_edit.specs.Passes.{IsFound};
ghost use Rattle.code_edit.specs.SoundCode.{IsSound};

/// The acts that a pass finds on a sound code are legal. It does nothing.
pub fn found_acts_are_legal()
    ensures { (p : Pass) (acts : List Act) (code : Code) → IsFound p code acts → IsSound code
        → AreLegal p acts code }
{}
