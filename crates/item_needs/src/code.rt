// What a code names and means (JVMS 4.7.3, 6.5).
#![tactic(auto, using(item_numbers::proofs::Gathering::in_turn, item_numbers::proofs::Gathering::nothing))]

ghost use Rattle.std.specs.Prelude.{◌≡◌, ◌<◌, ◌∷◌, ◌++◌, Ok, OnOk, length};
ghost use Rattle.std.specs.List.{flat_map};
ghost use Rattle.class_pool.specs.Found.{IsMember};
ghost use Rattle.class_pool.specs.declared.id.ClassId.TheVariants.{Prog};
ghost use Rattle.link_check.specs.Links.{resolved_method};
ghost use Rattle.link_check.specs.Profile.{class_of};
ghost use Rattle.require_sys.specs.Requires.Item.{OfMember};
ghost use Rattle.require_sys.specs.Requires.{field_ref_wants, handler_wants, method_ref_wants, op_wants};
ghost use Rattle.require_sys.specs.Requires.{special_wants};
ghost use Rattle.item_needs.specs.bodies.Known.{ref_wants};
ghost use Rattle.item_numbers.specs.bodies.Wanting.{HasSame, wanting};

use crate::known::RefKind;
use crate::named::{want_base, want_field_text, want_method_text, want_name, want_type};
use crate::wants::Wants;
use class_model::{Handler, Ins, MemberRef, Op};
use class_pool::MemberAt;
use jv_base::M;
use link_check::{resolve_field, resolve_method, select_special};
use std::alloc::Global;

/// What the instructions of a method of the class with a number want.
pub(crate) fn want_instructions(
    alloc: Global,
    wants: &mut Wants<'_>,
    number: u32,
    ins: &[Ins],
) -> M<()>
    requires { number < length wants.old.classes }
    ensures { OnOk result (HasSame wants.new
        (wanting wants.old (flat_map (λ i. op_wants wants.old.classes number i.op) ins.now))) }
{
    for instruction in ins {
        want_op(alloc, wants, number, &instruction.op)?;
    }
    Ok(())
}

fn want_op(alloc: Global, wants: &mut Wants<'_>, number: u32, op: &Op) -> M<()>
    requires { number < length wants.old.classes }
    ensures { OnOk result (HasSame wants.new (wanting wants.old (op_wants wants.old.classes number op.now))) }
{
    match op {
        Op::GetStatic(r) | Op::PutStatic(r) | Op::GetField(r) | Op::PutField(r) => {
            want_ref(alloc, wants, number, RefKind::Field, r)
        }
        Op::InvokeVirtual(r) | Op::InvokeStatic(r) | Op::InvokeInterface(r) => {
            want_ref(alloc, wants, number, RefKind::Method, r)
        }
        Op::InvokeSpecial(r) => want_ref(alloc, wants, number, RefKind::Special, r),
        Op::New(name) => want_name(wants, name),
        Op::ANewArray(ty) | Op::CheckCast(ty) | Op::InstanceOf(ty) | Op::MultiNewArray(ty, _) => {
            want_type(wants, ty)
        }
        _ => Ok(()),
    }
}

/// What a reference wants by the kind of its instruction. It is looked for once, where it can be remembered.
fn want_ref(
    alloc: Global,
    wants: &mut Wants<'_>,
    number: u32,
    kind: RefKind,
    r: &MemberRef,
) -> M<()>
    requires { number < length wants.old.classes }
    ensures { OnOk result (HasSame wants.new (wanting wants.old (ref_wants wants.old.classes number kind r.now))) }
{
    if wants.want_known(number, kind, r)? {
        return Ok(());
    }
    want_ref_and_keep(alloc, wants, number, kind, r)
}

/// The same, which is remembered. It is a call of its own, since most references are remembered already.
#[inline(never)]
fn want_ref_and_keep(
    alloc: Global,
    wants: &mut Wants<'_>,
    number: u32,
    kind: RefKind,
    r: &MemberRef,
) -> M<()>
    requires { number < length wants.old.classes }
    ensures { OnOk result (wants.new ≡ wanting wants.old (ref_wants wants.old.classes number kind r.now)) }
{
    let start = wants.count();
    want_ref_anew(alloc, wants, number, kind, r)?;
    wants.keep(start, number, kind, r)
}

fn want_ref_anew(
    alloc: Global,
    wants: &mut Wants<'_>,
    number: u32,
    kind: RefKind,
    r: &MemberRef,
) -> M<()>
    requires { number < length wants.old.classes }
    ensures { OnOk result (wants.new ≡ wanting wants.old (ref_wants wants.old.classes number kind r.now)) }
{
    match kind {
        RefKind::Field => want_field_ref(alloc, wants, number, r),
        RefKind::Method => want_method_ref(alloc, wants, number, r),
        RefKind::Special => want_special_ref(alloc, wants, number, r),
    }
}

/// What a reference to a field wants: the class that it names, those in its descriptor, and the field.
fn want_field_ref(alloc: Global, wants: &mut Wants<'_>, number: u32, r: &MemberRef) -> M<()>
    requires { number < length wants.old.classes }
    ensures { OnOk result (wants.new ≡ wanting wants.old (field_ref_wants wants.old.classes number r.now)) }
{
    want_base(wants, &r.class.base)?;
    want_field_text(alloc, wants, &r.ty)?;
    match resolve_field(wants.set(), number, r) {
        Ok(m) => wants.want_member(m),
        Err(_) => Ok(()),
    }
}

/// The same of a reference to a method.
fn want_method_ref(alloc: Global, wants: &mut Wants<'_>, number: u32, r: &MemberRef) -> M<()>
    requires { number < length wants.old.classes }
    ensures { OnOk result (wants.new ≡ wanting wants.old (method_ref_wants wants.old.classes number r.now)) }
{
    want_base(wants, &r.class.base)?;
    want_method_text(alloc, wants, &r.ty)?;
    match resolve_method(wants.set(), number, r) {
        Ok(m) => wants.want_member(m),
        Err(_) => Ok(()),
    }
}

/// The same of the reference of an instruction invokespecial, with the method that this runs.
fn want_special_ref(alloc: Global, wants: &mut Wants<'_>, number: u32, r: &MemberRef) -> M<()>
    requires { number < length wants.old.classes }
    ensures { OnOk result (wants.new ≡ wanting wants.old (method_ref_wants wants.old.classes number r.now
        ++ special_wants wants.old.classes number (class_of wants.old.classes r.now)
        (resolved_method wants.old.classes (Prog number) r.now))) }
{
    want_base(wants, &r.class.base)?;
    want_method_text(alloc, wants, &r.ty)?;
    match &resolve_method(wants.set(), number, r) {
        Ok(m) => want_special(wants, number, r, m),
        Err(_) => Ok(()),
    }
}

/// The method that a reference means, and the one that invokespecial runs.
fn want_special(wants: &mut Wants<'_>, number: u32, r: &MemberRef, m: &MemberAt) -> M<()>
    requires there { number < length wants.old.classes }
    requires member { IsMember wants.old.classes m.now }
    requires resolved { resolved_method wants.old.classes (Prog number) r.now ≡ Ok m.now }
    ensures { OnOk result (wants.new ≡ wanting wants.old (OfMember m.now
        ∷ special_wants wants.old.classes number (class_of wants.old.classes r.now) (Ok m.now))) }
{
    wants.want_member(*m)?;
    match select_special(wants.set(), number, r, *m) {
        Some(selected) => wants.want_member(selected),
        None => Ok(()),
    }
}

pub(crate) fn want_handlers(wants: &mut Wants<'_>, handlers: &[Handler]) -> M<()>
    ensures { OnOk result (wants.new ≡ wanting wants.old (flat_map (handler_wants wants.old.classes) handlers.now)) }
{
    for handler in handlers {
        want_handler(wants, handler)?;
    }
    Ok(())
}

fn want_handler(wants: &mut Wants<'_>, handler: &Handler) -> M<()>
    ensures { OnOk result (wants.new ≡ wanting wants.old (handler_wants wants.old.classes handler.now)) }
{
    match &handler.caught {
        Some(name) => want_name(wants, name),
        None => Ok(()),
    }
}
