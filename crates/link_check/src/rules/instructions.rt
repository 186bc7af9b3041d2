// What the code of a method names (JVMS 4.7.3, 4.7.4, 6.5).
#![tactic(auto, using(crate::proofs::Least::is_none))]

ghost use Rattle.std.specs.Prelude.{◌≡◌, ℕ, ◌+◌, ◌<◌, List, ◌++◌, IfOk, length, take};
ghost use Rattle.std.specs.List.{flat_map};
ghost use Rattle.class_model.specs.FrameLists.{frame_numbered};
ghost use Rattle.link_check.specs.declared.fault.ProfileKind.{ProfileKind};
ghost use Rattle.link_check.specs.Profile.{code_kinds, frame_kinds, handler_kinds, least, op_kinds, verification_kinds};
ghost use Rattle.link_check.specs.bodies.Tested.{AreTested};

use crate::ProfileKind;
use crate::rules::calls::new_kind;
use crate::rules::field_uses::{PUT_FIELD, PUT_STATIC, field_kind};
use crate::rules::kind_order::lesser;
use crate::rules::named_classes::{name_kind, type_kind};
use crate::rules::tested::{RefUse, TestedRef, ref_kind};
use class_model::{Code, Frames, Handler, Ins, Op, VType};
use class_pool::ClassSet;
use jv_base::{M, Name};
use std::alloc::Global;

/// What is wrong with the code of a method of this name.
pub(crate) fn code_kind(
    alloc: Global,
    set: &ClassSet,
    tested: &mut Vec<Option<TestedRef>>,
    number: u32,
    method: &Name,
    code: &Code,
) -> M<Option<ProfileKind>>
    requires there { number < length set.now }
    requires tested { AreTested set.now tested.old.items }
    ensures tested { AreTested set.now tested.new.items }
    ensures kind { IfOk result (λ kind. kind ≡ least (code_kinds set.now number method.now code.now)) }
{
    let of_instructions = instructions_kind(
        alloc,
        set,
        tested,
        number,
        method,
        code.ins.as_slice(),
    )?;
    let of_handlers = handlers_kind(set, number, code.handlers.as_slice());
    let of_frames = frames_kind(alloc, set, number, &code.frames)?;
    Ok(lesser(lesser(of_instructions, of_handlers), of_frames))
}

fn instructions_kind(
    alloc: Global,
    set: &ClassSet,
    tested: &mut Vec<Option<TestedRef>>,
    number: u32,
    method: &Name,
    instructions: &[Ins],
) -> M<Option<ProfileKind>>
    requires there { number < length set.now }
    requires tested { AreTested set.now tested.old.items }
    ensures tested { AreTested set.now tested.new.items }
    ensures kind { IfOk result (λ kind. kind ≡ least
        (flat_map (λ i. op_kinds set.now number method.now i.op) instructions.now)) }
{
    let mut kind = None;
    for instruction in instructions {
        let of_one = op_kind(alloc, set, tested, number, method, &instruction.op)?;
        kind = lesser(kind, of_one);
    }
    Ok(kind)
}

fn op_kind(
    alloc: Global,
    set: &ClassSet,
    tested: &mut Vec<Option<TestedRef>>,
    number: u32,
    method: &Name,
    op: &Op,
) -> M<Option<ProfileKind>>
    requires there { number < length set.now }
    requires tested { AreTested set.now tested.old.items }
    ensures tested { AreTested set.now tested.new.items }
    ensures kind { IfOk result (λ kind. kind ≡ least (op_kinds set.now number method.now op.now)) }
{
    match op {
        Op::GetStatic(r) => ref_kind(alloc, set, tested, number, method, RefUse::GetStatic, r),
        Op::GetField(r) => ref_kind(alloc, set, tested, number, method, RefUse::GetField, r),
        Op::PutStatic(r) => field_kind(alloc, set, number, method, &PUT_STATIC, r),
        Op::PutField(r) => field_kind(alloc, set, number, method, &PUT_FIELD, r),
        Op::InvokeVirtual(r) => ref_kind(alloc, set, tested, number, method, RefUse::Call, r),
        Op::InvokeSpecial(r) => ref_kind(
            alloc,
            set,
            tested,
            number,
            method,
            RefUse::CallSpecial,
            r,
        ),
        Op::InvokeStatic(r) => ref_kind(alloc, set, tested, number, method, RefUse::CallStatic, r),
        Op::InvokeInterface(r) => ref_kind(alloc, set, tested, number, method, RefUse::Call, r),
        Op::New(name) => Ok(new_kind(set, number, name)),
        Op::ANewArray(ty) | Op::CheckCast(ty) | Op::InstanceOf(ty) | Op::MultiNewArray(ty, _) => {
            Ok(type_kind(set, number, ty))
        }
        _ => Ok(None),
    }
}

fn handlers_kind(set: &ClassSet, number: u32, handlers: &[Handler]) -> Option<ProfileKind>
    requires there { number < length set.now }
    ensures { result ≡ least (flat_map (handler_kinds set.now number) handlers.now) }
{
    let mut kind = None;
    for handler in handlers {
        kind = lesser(kind, handler_kind(set, number, handler));
    }
    kind
}

fn handler_kind(set: &ClassSet, number: u32, handler: &Handler) -> Option<ProfileKind>
    requires there { number < length set.now }
    ensures { result ≡ least (handler_kinds set.now number handler.now) }
{
    match &handler.caught {
        Some(name) => name_kind(set, number, name),
        None => None,
    }
}

fn frames_kind(
    alloc: Global,
    set: &ClassSet,
    number: u32,
    frames: &Frames,
) -> M<Option<ProfileKind>>
    requires there { number < length set.now }
    ensures { IfOk result (λ kind. kind ≡ least (flat_map (frame_kinds set.now number) frames.now)) }
{
    let mut kind = None;
    for at in 0..frames.len() {
        let of_one = frame_kind(alloc, set, number, frames, at)?;
        kind = lesser(kind, of_one);
    }
    Ok(kind)
}

// How many locals the frame of a number shares with the one before.
fn shared_locals(frames: &Frames, at: usize) -> usize
    requires { at < length frames.now }
    ensures first { at ≡ 0 → result ≡ 0 }
    ensures same { (before : ℕ) → at ≡ before + 1 → take result (frame_numbered frames.now at).frame.locals
        ≡ take result (frame_numbered frames.now before).frame.locals }
{
    match at {
        0 => 0,
        at => frames.shared(at, at - 1),
    }
}

// What is wrong with the frame of a number, but for what it shares with the one before.
fn frame_kind(
    alloc: Global,
    set: &ClassSet,
    number: u32,
    frames: &Frames,
    at: usize,
) -> M<Option<ProfileKind>>
    requires there { number < length set.now }
    requires frame { at < length frames.now }
    ensures { IfOk result (λ kind. (kinds : List ProfileKind) × (kind ≡ least kinds)
        × (least (flat_map (frame_kinds set.now number) (take at frames.now) ++ kinds)
        ≡ least (flat_map (frame_kinds set.now number) (take (at + 1) frames.now)))) }
{
    let locals = frames.locals(alloc, at, shared_locals(frames, at))?;
    let stack = frames.stack(alloc, at)?;
    let of_locals = verification_types_kind(set, number, locals.as_slice());
    let of_stack = verification_types_kind(set, number, stack.as_slice());
    Ok(lesser(of_locals, of_stack))
}

fn verification_types_kind(set: &ClassSet, number: u32, types: &[VType]) -> Option<ProfileKind>
    requires there { number < length set.now }
    ensures { result ≡ least (flat_map (verification_kinds set.now number) types.now) }
{
    let mut kind = None;
    for ty in types {
        kind = lesser(kind, verification_kind(set, number, ty));
    }
    kind
}

fn verification_kind(set: &ClassSet, number: u32, ty: &VType) -> Option<ProfileKind>
    requires there { number < length set.now }
    ensures { result ≡ least (verification_kinds set.now number ty.now) }
{
    match ty {
        VType::Object(ty) => type_kind(set, number, ty),
        _ => None,
    }
}
