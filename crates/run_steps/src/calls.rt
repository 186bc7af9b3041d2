// Calls (JVMS 6.5.invokestatic, 6.5.invokespecial, 6.5.invokevirtual, 6.5.invokeinterface).
ghost use Rattle.class_model.specs.declared.op.Op.TheVariants as op;
ghost use Rattle.jvm_model.specs.Instructions.{sort_of};
ghost use Rattle.jvm_model.specs.Types.{argument_kinds};
ghost use Rattle.run_steps.specs.Arguments.{TakesOperands, operand_kinds};
ghost use Rattle.run_steps.specs.Outcomes.{DoesAs};
ghost use Rattle.std.specs.Prelude.{◌≡◌, IfOk};

use crate::{Body, Descriptors, Outcome, Request};
use class_model::MemberRef;
use jv_base::{Items, M, Text};
use run_values::{Stack, Value};
use std::alloc::Global;

/// Takes the operands that a descriptor tells, if they are there.
fn take_operands<D: Descriptors>(
    alloc: Global,
    known: &D,
    stack: &mut Stack,
    has_receiver: bool,
    descriptor: &Text,
) -> M<Option<Items<Value>>>
    ensures { IfOk result (λ taken. TakesOperands taken (operand_kinds has_receiver
        (argument_kinds descriptor.now)) stack.old stack.new) }
{
    let Some(kinds) = known.operand_kinds(alloc, has_receiver, descriptor)? else {
        return Ok(None);
    };
    stack.pop_many(alloc, kinds.as_slice())
}

/// It asks for a static method (JVMS 6.5.invokestatic).
pub(crate) fn call_static<'a, D: Descriptors>(
    alloc: Global,
    known: &D,
    body: &mut Body,
    method: &'a MemberRef,
) -> M<Outcome<'a>>
    ensures { DoesAs result body.old body.new (sort_of (op.InvokeStatic method.now)) }
{
    match take_operands(alloc, known, &mut body.stack, false, &method.ty)? {
        Some(arguments) => Ok(Outcome::Wants(Request::CallStatic(method, arguments))),
        None => Ok(Outcome::Stuck),
    }
}

/// It asks for a constructor, a private method or one of a superclass (JVMS 6.5.invokespecial).
pub(crate) fn call_special<'a, D: Descriptors>(
    alloc: Global,
    known: &D,
    body: &mut Body,
    method: &'a MemberRef,
) -> M<Outcome<'a>>
    ensures { DoesAs result body.old body.new (sort_of (op.InvokeSpecial method.now)) }
{
    match take_operands(alloc, known, &mut body.stack, true, &method.ty)? {
        Some(operands) => Ok(Outcome::Wants(Request::CallSpecial(method, operands))),
        None => Ok(Outcome::Stuck),
    }
}

/// It asks for a method that is selected by the receiver's class (JVMS 6.5.invokevirtual).
pub(crate) fn call_virtual<'a, D: Descriptors>(
    alloc: Global,
    known: &D,
    body: &mut Body,
    method: &'a MemberRef,
) -> M<Outcome<'a>>
    ensures { DoesAs result body.old body.new (sort_of (op.InvokeVirtual method.now)) }
{
    match take_operands(alloc, known, &mut body.stack, true, &method.ty)? {
        Some(operands) => Ok(Outcome::Wants(Request::CallVirtual(method, operands))),
        None => Ok(Outcome::Stuck),
    }
}

/// The same of an interface's method (JVMS 6.5.invokeinterface).
pub(crate) fn call_interface<'a, D: Descriptors>(
    alloc: Global,
    known: &D,
    body: &mut Body,
    method: &'a MemberRef,
) -> M<Outcome<'a>>
    ensures { DoesAs result body.old body.new (sort_of (op.InvokeInterface method.now)) }
{
    match take_operands(alloc, known, &mut body.stack, true, &method.ty)? {
        Some(operands) => Ok(Outcome::Wants(Request::CallInterface(method, operands))),
        None => Ok(Outcome::Stuck),
    }
}
