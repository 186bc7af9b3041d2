// How the acts of a step are tested, one after another.
ghost use Rattle.std.specs.Prelude.{◌≡◌, List, [], ◌∷◌, ◌++◌, Bool, false, IfOk, OnOk};
ghost use Rattle.code_edit.specs.declared.act.Act.{Act};
ghost use Rattle.edit_legal.specs.Fault.{fault_after};

use code_edit::Act;
use jv_base::M;

/// What a pass asks of the acts of a step.
pub(crate) trait Rules {
    ghost use Rattle.std.specs.Prelude.{◌≡◌, List, ◌∷◌, [], ◌++◌, Bool, OnOk};
    ghost use Rattle.code_edit.specs.declared.act.Act.{Act};

    /// An act is legal behind others.
    ghost allows: { Self → List Act → Act → Bool };

    /// The acts that were noted are these.
    ghost noted: { Self → List Act → Type 0 };

    /// What holds all along.
    ghost holds: { Self → Type 0 };

    /// Whether an act is legal behind those that were noted.
    fn allows(&self, act: &Act) -> bool
        requires { holds self.now }
        ensures { (before : List Act) → noted self.now before
            → result ≡ allows self.now before act.now };

    /// Takes note of an act.
    fn note(&mut self, act: &Act) -> M<()>
        requires { holds self.old }
        ensures holds { OnOk result (holds self.new) }
        ensures same { OnOk result (allows self.new ≡ allows self.old) }
        ensures noted { OnOk result ((before : List Act) → noted self.old before
            → noted self.new (before ++ act.now ∷ [])) };
}

/// The number of the first act that the rules refuse.
pub(crate) fn first_fault<R: Rules>(rules: &mut R, acts: &[Act]) -> M<Option<usize>>
    requires noted { R.noted rules.old [] }
    requires holds { R.holds rules.old }
    ensures { IfOk result (λ fault. fault ≡ fault_after (R.allows rules.old) 0 [] acts.now) }
{
    let mut number = 0;
    for act in acts {
        if !rules.allows(act) {
            return Ok(Some(number));
        }
        rules.note(act)?;
        number += 1;
    }
    Ok(None)
}
