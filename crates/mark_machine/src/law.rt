//! What holds of every run of the mark machine.
ghost use Rattle.std.specs.Prelude.{◌≡◌, ◌↔◌, ℕ, IsTrue, List};
ghost use Rattle.mark_core.specs.Marks.{IsMarked};
ghost use Rattle.mark_core.specs.Valid.{Valid};
ghost use Rattle.mark_core.specs.declared.system.System.{System as Sys};
ghost use Rattle.mark_machine.specs.Invariant.{Inv};
ghost use Rattle.mark_machine.specs.Machine.{Machine, Run};
ghost use Rattle.mark_machine.specs.Runs.{IsQuiet, Reached};
ghost use Rattle.mark_machine.specs.declared.machine.Event.{Event};

/// A law: after any list of events of any number of views `Inv` holds, so marked items lie in the least closed set. Once
/// a view has seen idle they are that set, and some view has seen idle ever after. The function does nothing.
pub fn runs_keep_invariant()
    ensures kept { (sys : Sys) (events : List (ℕ × Event)) (t : Machine) → Valid sys → Reached sys events t → Inv sys t }
    ensures within { (sys : Sys) (events : List (ℕ × Event)) (t : Machine) → Valid sys → Reached sys events t → (x : ℕ) → IsTrue (t.marked x) → IsMarked sys x }
    ensures quiet { (sys : Sys) (events : List (ℕ × Event)) (t : Machine) → Valid sys → Reached sys events t → IsQuiet t → (x : ℕ) → IsTrue (t.marked x) ↔ IsMarked sys x }
    ensures stays { (sys : Sys) (events : List (ℕ × Event)) (s t : Machine) → Run sys s events t → IsQuiet s → IsQuiet t }
{}
