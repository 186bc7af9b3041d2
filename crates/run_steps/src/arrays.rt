// Arrays (JVMS 6.5.newarray, 6.5.anewarray, 6.5.multianewarray, 6.5.arraylength, 6.5.xaload, 6.5.xastore).
ghost use Rattle.class_model.specs.declared.op.Op.TheVariants as op;
ghost use Rattle.jvm_model.specs.Instructions.{sort_of};
ghost use Rattle.jvm_model.specs.Local.{by_sort};
ghost use Rattle.run_steps.specs.Frames.{body_of};
ghost use Rattle.run_steps.specs.Outcomes.{Does, DoesAs};
ghost use Rattle.std.specs.Prelude.{◌≡◌};

use crate::{Body, Outcome, Request};
use class_model::{Elem, Kind};
use jv_base::{Base, FieldType, M};
use run_values::types::kind_of_elem;
use std::alloc::Global;

/// It asks for a new array of a type without dimensions (JVMS 6.5.newarray).
pub(crate) fn new_base_array<'a>(body: &mut Body, base: &'a Base) -> Outcome<'a>
    ensures { Does result body.old body.new (by_sort (body_of body.old) (sort_of (op.NewArray base.now))) }
{
    match body.stack.pop_int() {
        Some(count) => Outcome::Wants(Request::NewBaseArray(base, count)),
        None => Outcome::Stuck,
    }
}

/// It asks for a new array (JVMS 6.5.anewarray).
pub(crate) fn new_array<'a>(body: &mut Body, component: &'a FieldType) -> Outcome<'a>
    ensures { Does result body.old body.new (by_sort (body_of body.old) (sort_of (op.ANewArray component.now))) }
{
    match body.stack.pop_int() {
        Some(count) => Outcome::Wants(Request::NewArray(component, count)),
        None => Outcome::Stuck,
    }
}

/// It asks for new arrays of several dimensions (JVMS 6.5.multianewarray).
pub(crate) fn new_arrays<'a>(
    alloc: Global,
    body: &mut Body,
    ty: &'a FieldType,
    count: u8,
) -> M<Outcome<'a>>
    ensures { DoesAs result body.old body.new (sort_of (op.MultiNewArray ty.now count)) }
{
    match body.stack.pop_counts(alloc, count)? {
        Some(sizes) => Ok(Outcome::Wants(Request::NewArrays(ty, sizes))),
        None => Ok(Outcome::Stuck),
    }
}

/// It asks for the length of an array (JVMS 6.5.arraylength).
pub(crate) fn array_length(body: &mut Body) -> Outcome<'static>
    ensures { Does result body.old body.new (by_sort (body_of body.old) (sort_of op.ArrayLength)) }
{
    match body.stack.pop_kind(Kind::Ref) {
        Some(array) => Outcome::Wants(Request::ArrayLength(array)),
        None => Outcome::Stuck,
    }
}

/// It asks for a component of an array (JVMS 6.5.iaload and the like).
pub(crate) fn get_at(body: &mut Body, elem: Elem) -> Outcome<'static>
    ensures { Does result body.old body.new (by_sort (body_of body.old) (sort_of (op.ALoad elem))) }
{
    let Some(index) = body.stack.pop_int() else {
        return Outcome::Stuck;
    };
    match body.stack.pop_kind(Kind::Ref) {
        Some(array) => Outcome::Wants(Request::GetAt(elem, array, index)),
        None => Outcome::Stuck,
    }
}

/// It asks to set a component of an array (JVMS 6.5.iastore and the like).
pub(crate) fn put_at(body: &mut Body, elem: Elem) -> Outcome<'static>
    ensures { Does result body.old body.new (by_sort (body_of body.old) (sort_of (op.AStore elem))) }
{
    let Some(value) = body.stack.pop_kind(kind_of_elem(elem)) else {
        return Outcome::Stuck;
    };
    let Some(index) = body.stack.pop_int() else {
        return Outcome::Stuck;
    };
    match body.stack.pop_kind(Kind::Ref) {
        Some(array) => Outcome::Wants(Request::PutAt(elem, array, index, value)),
        None => Outcome::Stuck,
    }
}
