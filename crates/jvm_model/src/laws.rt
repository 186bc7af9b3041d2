// What holds of programs that do the same.
ghost use Rattle.std.specs.Prelude.{List};
ghost use Rattle.jvm_model.specs.Mapped.{Mapped, Mapping};
ghost use Rattle.jvm_model.specs.Program.{View};
ghost use Rattle.jvm_model.specs.Same.{AreKept, Names, Renamed, Same, SameSteps, chain, own_names};
ghost use Rattle.jvm_model.specs.Value.{Key};

/// A program does what it does; and what does the same as a second program, which does the same as a
/// first one, does the same as the first one. It does nothing.
pub fn same_composes()
    ensures itself { (v : View) (entries : List Key) → Same v v own_names entries }
    ensures composes { (u v w : View) (first second : Names) (entries middle : List Key) → Renamed first entries middle
        → Same u v first entries → Same v w second middle → Same u w (chain first second) entries }
{}

/// The same at equal numbers of steps: it is reflexive, composes, and says more than doing the same. It does nothing.
pub fn same_steps_compose()
    ensures itself { (v : View) (entries : List Key) → SameSteps v v own_names entries }
    ensures composes { (u v w : View) (first second : Names) (entries middle : List Key) → Renamed first entries middle
        → SameSteps u v first entries → SameSteps v w second middle → SameSteps u w (chain first second) entries }
    ensures same { (v w : View) (names : Names) (entries : List Key) → SameSteps v w names entries
        → Same v w names entries }
{}

/// A program whose image another one is does the same, from entries that are kept, and at equal numbers of steps: where
/// classes and members that nothing names are left out, and where all that is kept has new names. It does nothing.
pub fn images_do_the_same()
    ensures same { (m : Mapping) (v w : View) → Mapped m v w → (entries : List Key)
        → AreKept m.names entries → Same v w m.names entries }
    ensures steps { (m : Mapping) (v w : View) → Mapped m v w → (entries : List Key)
        → AreKept m.names entries → SameSteps v w m.names entries }
{}
