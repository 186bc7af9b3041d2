// Changes of codes after which a program does the same.
ghost use Rattle.std.specs.Prelude.{◌≡◌, ℕ, List};
ghost use Rattle.class_model.specs.declared.code.Code.{Code};
ghost use Rattle.jvm_model.specs.Premise.{Premise, Stands};
ghost use Rattle.jvm_model.specs.Program.{View};
ghost use Rattle.jvm_model.specs.Same.{Same, own_names};
ghost use Rattle.jvm_model.specs.State.{Body};
ghost use Rattle.jvm_model.specs.Value.{Key};

/// A change of codes: which code it may put in place of which, and why so; how a body in the old code goes
/// with one in the new, at a number that falls where the old one moves alone; and that this is kept.
pub trait Pass {
    ghost puts: { Code → Code → Type 0 };

    ghost related: { (old new : Code) → puts old new → ℕ → Body → Body → Type 0 };

    /// The name of the change.
    fn name() -> &'static str;

    ghost premise: { (old new : Code) (put : puts old new) → Premise (related old new put) old new };
}

/// A program in which some codes were changed so, and nothing else, does the same. It does nothing.
pub fn changed_codes_keep_same<P: Pass>()
    ensures { (v w : View) → w.shape ≡ v.shape → ((m : Key) → Stands P.puts (v.code m) (w.code m))
        → (entries : List Key) → Same v w own_names entries }
{}
