// Leaving the method (JVMS 6.5.return, 6.5.ireturn, 6.5.athrow and the like).
ghost use Rattle.class_model.specs.declared.op.Op.TheVariants as op;
ghost use Rattle.jvm_model.specs.Instructions.{Throws, sort_of};
ghost use Rattle.jvm_model.specs.Local.{by_sort};
ghost use Rattle.run_steps.specs.Frames.{body_of};
ghost use Rattle.run_steps.specs.Outcomes.{Does};
ghost use Rattle.std.specs.Prelude.{◌≡◌};

use crate::{Body, Outcome};
use class_model::Kind;

/// The method returns, with a value of a computational type or without (JVMS 6.5.return, 6.5.ireturn, 6.5.lreturn,
/// 6.5.areturn).
pub(crate) fn end(body: &mut Body, kind: Option<Kind>) -> Outcome<'static>
    ensures { Does result body.old body.new (by_sort (body_of body.old) (sort_of (op.Return kind))) }
{
    let Some(kind) = kind else {
        return Outcome::Ends(None);
    };
    match body.stack.pop_kind(kind) {
        Some(value) => Outcome::Ends(Some(value)),
        None => Outcome::Stuck,
    }
}

/// A reference is thrown (JVMS 6.5.athrow).
#[tactic(auto, using(crate::proofs::Taken::kind_taken))]
pub(crate) fn toss(body: &mut Body) -> Outcome<'static>
    ensures { Does result body.old body.new (by_sort (body_of body.old) Throws) }
{
    match body.stack.pop_kind(Kind::Ref) {
        Some(thrown) => Outcome::Tosses(thrown),
        None => Outcome::Stuck,
    }
}
