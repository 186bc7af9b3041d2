// What edited codes name.
ghost use Rattle.std.specs.Prelude.{◌≡◌, List};
ghost use Rattle.class_model.specs.declared.code.Code.{Code};
ghost use Rattle.code_edit.specs.declared.act.PassEdits.{PassEdits};
ghost use Rattle.code_edit.specs.Applied.{edited};
ghost use Rattle.edit_laws.specs.NamesNoMore.{NamesNoMore};
ghost use Rattle.edit_premises.specs.Steps.{IsEdited};
ghost use Rattle.jvm_model.specs.Mapped.{Mapped, Mapping};
ghost use Rattle.jvm_model.specs.Program.{View};
ghost use Rattle.jvm_model.specs.Same.{AreKept, Same};
ghost use Rattle.jvm_model.specs.Value.{Key};

/// A code after any steps, be their acts right or not, names nothing but what it named. It does
/// nothing.
pub fn edits_name_nothing_new()
    ensures { (steps : List PassEdits) (code : Code) → NamesNoMore code (edited steps code) }
{}

/// A program does the same as one that is the image, under new names, of what edits leave of it.
/// It does nothing.
pub fn edits_then_names_keep_same()
    ensures { (m : Mapping) (v edit w : View) → edit.shape ≡ v.shape
        → ((k : Key) → IsEdited (v.code k) (edit.code k)) → Mapped m edit w
        → (entries : List Key) → AreKept m.names entries → Same v w m.names entries }
{}
