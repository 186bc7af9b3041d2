// Asking whether an object is of a type (JVMS 6.5.checkcast, 6.5.instanceof).
ghost use Rattle.class_model.specs.declared.op.Op.TheVariants as op;
ghost use Rattle.jvm_model.specs.Instructions.{sort_of};
ghost use Rattle.jvm_model.specs.Local.{by_sort};
ghost use Rattle.run_steps.specs.Frames.{body_of};
ghost use Rattle.run_steps.specs.Outcomes.{Does};
ghost use Rattle.std.specs.Prelude.{◌≡◌};

use crate::{Body, Outcome, Request};
use class_model::Kind;
use jv_base::FieldType;

/// It asks for the object as one of a type (JVMS 6.5.checkcast).
pub(crate) fn cast<'a>(body: &mut Body, ty: &'a FieldType) -> Outcome<'a>
    ensures { Does result body.old body.new (by_sort (body_of body.old) (sort_of (op.CheckCast ty.now))) }
{
    match body.stack.pop_kind(Kind::Ref) {
        Some(object) => Outcome::Wants(Request::Cast(ty, object)),
        None => Outcome::Stuck,
    }
}

/// It asks whether the object is of a type (JVMS 6.5.instanceof).
pub(crate) fn test<'a>(body: &mut Body, ty: &'a FieldType) -> Outcome<'a>
    ensures { Does result body.old body.new (by_sort (body_of body.old) (sort_of (op.InstanceOf ty.now))) }
{
    match body.stack.pop_kind(Kind::Ref) {
        Some(object) => Outcome::Wants(Request::Test(ty, object)),
        None => Outcome::Stuck,
    }
}
