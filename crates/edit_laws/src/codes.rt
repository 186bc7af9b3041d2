// Programs in which some codes are others.
ghost use Rattle.std.specs.Prelude.{◌≡◌, ℕ, List, Some};
ghost use Rattle.class_model.specs.declared.code.Code.{Code};
ghost use Rattle.edit_laws.specs.Replaced.{replaced};
ghost use Rattle.edit_premises.specs.Changes.{Becomes};
ghost use Rattle.jvm_model.specs.Program.{View};
ghost use Rattle.jvm_model.specs.Same.{Same, own_names};
ghost use Rattle.jvm_model.specs.Value.{Key};

use jvm_model::pass::Pass;

/// A program in which one method has another code, which a change puts there, does the same. It
/// does nothing.
pub fn law_local<P: Pass>()
    ensures { (v : View) (m : Key) (old new : Code) → v.code m ≡ Some old → P.puts old new
        → (entries : List Key) → Same v (replaced v m new) own_names entries }
{}

/// A program whose codes come about by so many changes, one after another, does the same. It does
/// nothing.
pub fn codes_that_become_others_keep_same<P: Pass>()
    ensures { (n : ℕ) (v w : View) → w.shape ≡ v.shape
        → ((m : Key) → Becomes P.puts n (v.code m) (w.code m))
        → (entries : List Key) → Same v w own_names entries }
{}
