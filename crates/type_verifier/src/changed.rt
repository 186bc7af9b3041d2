// What of the locals of a frame an instruction may change (JVMS 4.10.1.7, 4.10.1.9).
ghost use Rattle.std.specs.Prelude.{◌≡◌, ◌==◌, if◌then◌else◌};
ghost use Rattle.type_verifier.specs.bodies.Since.{changed_by, since_after, since_there};

use class_model::Op;

/// The words of the locals from one on up to another one.
#[derive(Clone, Copy)]
pub(crate) struct Changed {
    pub(crate) from: usize,
    pub(crate) to: usize,
}

impl Changed {
    /// Whether these are no words.
    pub(crate) fn is_nothing(self) -> bool
        ensures { result ≡ (self.from == self.to) }
    {
        self.from == self.to
    }
}

/// The words that an instruction may change; where it may be any, or the flag, nothing is told.
fn changed_by(op: &Op) -> Option<Changed>
    ensures { result ≡ changed_by op.now }
{
    match op {
        Op::Store(_, slot) => Some(Changed {
            from: usize::from(slot.saturating_sub(1)),
            to: usize::from(*slot) + 2,
        }),
        Op::New(_) | Op::InvokeSpecial(_) => None,
        _ => Some(Changed { from: 0, to: 0 }),
    }
}

/// What changed behind an instruction, if its frame flows on.
pub(crate) fn since_after(flows: bool, op: &Op) -> Option<Changed>
    ensures { result ≡ since_after flows op.now }
{
    if flows { changed_by(op) } else { None }
}

/// What changed before an instruction, if the frame is what flows in.
pub(crate) fn since_there(same: bool, since: Option<Changed>) -> Option<Changed>
    ensures { result ≡ since_there same since }
{
    if same { since } else { None }
}
