// Sets of classes whose codes were edited.
ghost use Rattle.std.specs.Prelude.{List};
ghost use Rattle.class_model.specs.declared.class.Class.{Class};
ghost use Rattle.code_edit.specs.declared.act.Pass.{Pass};
ghost use Rattle.edit_premises.specs.Steps.{IsAfter, IsEdited};
ghost use Rattle.jvm_model.specs.Same.{Same, own_names};
ghost use Rattle.jvm_model.specs.Value.{Key};
ghost use Rattle.set_view.specs.ViewOf.{view_of};
ghost use Rattle.shape_laws.specs.Bare.{CodesAre, DifferInCodes};

/// Two sets of classes that differ in codes alone do the same as programs, where each code of the
/// one is that of the other, or is after right acts of a pass on it, or after six steps of right
/// acts. It does nothing.
pub fn edited_sets_keep_same()
    ensures step { (p : Pass) (a b : List Class) → DifferInCodes a b → CodesAre (IsAfter p) a b
        → (entries : List Key) → Same (view_of a) (view_of b) own_names entries }
    ensures steps { (a b : List Class) → DifferInCodes a b → CodesAre IsEdited a b
        → (entries : List Key) → Same (view_of a) (view_of b) own_names entries }
{}
