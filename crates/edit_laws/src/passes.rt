// Programs in which codes were edited.
ghost use Rattle.std.specs.Prelude.{◌≡◌, List, Some};
ghost use Rattle.class_model.specs.declared.code.Code.{Code};
ghost use Rattle.code_edit.specs.declared.act.Act.{Act};
ghost use Rattle.code_edit.specs.declared.act.Pass.TheVariants as pass;
ghost use Rattle.code_edit.specs.Applied.{applied};
ghost use Rattle.code_edit.specs.Legal.{IsRightAct};
ghost use Rattle.edit_laws.specs.Acted.{IsActedOn};
ghost use Rattle.edit_premises.specs.Changes.{Becomes, Changed, Together};
ghost use Rattle.edit_premises.specs.Steps.{IsAfter, IsEdited};
ghost use Rattle.edit_premises.proofs.Changes.{changed_premise};
ghost use Rattle.edit_premises.proofs.Steps.{step_becomes};
ghost use Rattle.jvm_model.specs.Program.{View};
ghost use Rattle.jvm_model.specs.Same.{Same, own_names};
ghost use Rattle.jvm_model.specs.Value.{Key};
ghost use Rattle.std.specs.List.{AllByRecursion};

use jvm_model::pass::Pass;

/// The changes that the passes are made of.
pub struct Edits;

impl Pass for Edits {
    ghost puts = { Changed };

    ghost related = { Together };

    fn name() -> &'static str {
        "edits"
    }

    ghost premise = { changed_premise };
}

/// A pass of the steps: what its acts make of a code, which act is right among those of its step,
/// and that right acts are two changes of the code, one after another.
pub trait CodePass {
    ghost applied: { List Act → Code → Code };

    ghost right: { List Act → Code → Act → Type 0 };

    /// The name of the pass.
    fn name() -> &'static str;

    ghost changes: { (acts : List Act) (code : Code) → AllByRecursion (right acts code) acts
        → Becomes Changed 2 (Some code) (Some (applied acts code)) };
}

/// What control never reaches goes.
pub struct Reach;

impl CodePass for Reach {
    ghost applied = { applied pass.Reach };

    ghost right = { IsRightAct pass.Reach };

    fn name() -> &'static str {
        "reach"
    }

    ghost changes = { step_becomes pass.Reach };
}

/// What is stored into a local variable that nothing loads goes.
pub struct Slots;

impl CodePass for Slots {
    ghost applied = { applied pass.Slots };

    ghost right = { IsRightAct pass.Slots };

    fn name() -> &'static str {
        "slots"
    }

    ghost changes = { step_becomes pass.Slots };
}

/// A branch to a goto leads where that leads.
pub struct Jumps;

impl CodePass for Jumps {
    ghost applied = { applied pass.Jumps };

    ghost right = { IsRightAct pass.Jumps };

    fn name() -> &'static str {
        "jumps"
    }

    ghost changes = { step_becomes pass.Jumps };
}

/// Branches and switches on constants are decided.
pub struct Const;

impl CodePass for Const {
    ghost applied = { applied pass.Const };

    ghost right = { IsRightAct pass.Const };

    fn name() -> &'static str {
        "const"
    }

    ghost changes = { step_becomes pass.Const };
}

/// A program in which codes are after right acts of a pass, or as they were, does the same. It
/// does nothing.
pub fn right_acts_keep_same<P: CodePass>()
    ensures { (v w : View) → w.shape ≡ v.shape
        → ((m : Key) → IsActedOn P.applied P.right (v.code m) (w.code m))
        → (entries : List Key) → Same v w own_names entries }
{}

/// So it is of reach. It does nothing.
pub fn reach_keeps_same()
    ensures { (v w : View) → w.shape ≡ v.shape
        → ((m : Key) → IsAfter pass.Reach (v.code m) (w.code m))
        → (entries : List Key) → Same v w own_names entries }
{
    right_acts_keep_same::<Reach>();
}

/// So it is of slots. It does nothing.
pub fn slots_keep_same()
    ensures { (v w : View) → w.shape ≡ v.shape
        → ((m : Key) → IsAfter pass.Slots (v.code m) (w.code m))
        → (entries : List Key) → Same v w own_names entries }
{
    right_acts_keep_same::<Slots>();
}

/// So it is of jumps. It does nothing.
pub fn jumps_keep_same()
    ensures { (v w : View) → w.shape ≡ v.shape
        → ((m : Key) → IsAfter pass.Jumps (v.code m) (w.code m))
        → (entries : List Key) → Same v w own_names entries }
{
    right_acts_keep_same::<Jumps>();
}

/// So it is of const. It does nothing.
pub fn const_keeps_same()
    ensures { (v w : View) → w.shape ≡ v.shape
        → ((m : Key) → IsAfter pass.Const (v.code m) (w.code m))
        → (entries : List Key) → Same v w own_names entries }
{
    right_acts_keep_same::<Const>();
}

/// A program in which codes are after six steps of right acts, or as they were, does the same. It
/// does nothing.
pub fn edits_keep_same()
    ensures { (v w : View) → w.shape ≡ v.shape → ((m : Key) → IsEdited (v.code m) (w.code m))
        → (entries : List Key) → Same v w own_names entries }
{}
