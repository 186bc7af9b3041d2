// Fields (JVMS 6.5.putstatic, 6.5.getfield, 6.5.putfield).
ghost use Rattle.class_model.specs.declared.op.Op.TheVariants as op;
ghost use Rattle.jvm_model.specs.Instructions.{as_field, sort_of};
ghost use Rattle.jvm_model.specs.Local.{by_sort};
ghost use Rattle.jvm_model.specs.Stack.{top};
ghost use Rattle.run_steps.specs.Frames.{body_of};
ghost use Rattle.run_steps.specs.Outcomes.{Does, DoesAs};
ghost use Rattle.run_values.specs.Takes.{Takes};
ghost use Rattle.std.specs.Prelude.{◌≡◌, IfOk};

use crate::kinds::field_kind;
use crate::{Body, Outcome, Request};
use class_model::{Kind, MemberRef};
use jv_base::M;
use run_values::{Stack, Value};
use std::alloc::Global;

/// Takes a value of a field's type, if it is there.
fn take_value(alloc: Global, stack: &mut Stack, field: &MemberRef) -> M<Option<Value>>
    ensures { IfOk result (λ taken. Takes (top (as_field field.now)) taken stack.old stack.new) }
{
    match field_kind(alloc, &field.ty)? {
        Some(kind) => Ok(stack.pop_kind(kind)),
        None => Ok(None),
    }
}

/// It asks to set a static field (JVMS 6.5.putstatic).
#[tactic(auto, using(crate::proofs::Taken::field_taken))]
pub(crate) fn put_static<'a>(alloc: Global, body: &mut Body, field: &'a MemberRef) -> M<Outcome<'a>>
    ensures { DoesAs result body.old body.new (sort_of (op.PutStatic field.now)) }
{
    match take_value(alloc, &mut body.stack, field)? {
        Some(value) => Ok(Outcome::Wants(Request::PutStatic(field, value))),
        None => Ok(Outcome::Stuck),
    }
}

/// It asks for a field of an object (JVMS 6.5.getfield).
pub(crate) fn get_field<'a>(body: &mut Body, field: &'a MemberRef) -> Outcome<'a>
    ensures { Does result body.old body.new (by_sort (body_of body.old) (sort_of (op.GetField field.now))) }
{
    match body.stack.pop_kind(Kind::Ref) {
        Some(object) => Outcome::Wants(Request::GetField(field, object)),
        None => Outcome::Stuck,
    }
}

/// It asks to set a field of an object (JVMS 6.5.putfield).
pub(crate) fn put_field<'a>(alloc: Global, body: &mut Body, field: &'a MemberRef) -> M<Outcome<'a>>
    ensures { DoesAs result body.old body.new (sort_of (op.PutField field.now)) }
{
    let Some(value) = take_value(alloc, &mut body.stack, field)? else {
        return Ok(Outcome::Stuck);
    };
    let Some(object) = body.stack.pop_kind(Kind::Ref) else {
        return Ok(Outcome::Stuck);
    };
    Ok(Outcome::Wants(Request::PutField(field, object, value)))
}
