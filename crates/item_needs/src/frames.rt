// The classes that frames name (JVMS 4.7.4).
#![tactic(auto, using(item_numbers::proofs::Gathering::in_turn, item_numbers::proofs::Gathering::nothing))]

ghost use Rattle.std.specs.Prelude.{◌≡◌, ℕ, ◌+◌, ◌<◌, ◌++◌, OnOk, drop, length, take};
ghost use Rattle.std.specs.List.{flat_map};
ghost use Rattle.class_model.specs.FrameLists.{frame_numbered};
ghost use Rattle.require_sys.specs.Requires.{frame_wants, verification_wants};
ghost use Rattle.item_needs.specs.bodies.Frames.{IsShared};
ghost use Rattle.item_numbers.specs.bodies.Wanting.{HasSame, wanting};

use crate::named::want_type;
use crate::wants::Wants;
use class_model::{Frames, VType};
use jv_base::M;
use std::alloc::Global;

/// The classes of all frames of a code.
pub(crate) fn want_frames(alloc: Global, wants: &mut Wants<'_>, frames: &Frames) -> M<()>
    ensures { OnOk result (HasSame wants.new
        (wanting wants.old (flat_map (frame_wants wants.old.classes) frames.now))) }
{
    for at in 0..frames.len() {
        want_frame(alloc, wants, frames, at)?;
    }
    Ok(())
}

/// Those of one frame, but for what it shares with the one before.
fn want_frame(alloc: Global, wants: &mut Wants<'_>, frames: &Frames, at: usize) -> M<()>
    requires { at < length frames.now }
    ensures { OnOk result ((n : ℕ) × IsShared frames.now at n × (wants.new
        ≡ wanting wants.old (flat_map (verification_wants wants.old.classes)
        (drop n (frame_numbered frames.now at).frame.locals ++ (frame_numbered frames.now at).frame.stack)))) }
{
    let shared = shared_locals(frames, at);
    let locals = frames.locals(alloc, at, shared)?;
    want_verification_types(wants, locals.as_slice())?;
    let stack = frames.stack(alloc, at)?;
    want_verification_types(wants, stack.as_slice())
}

/// How many locals the frame of a number shares with the one before.
fn shared_locals(frames: &Frames, at: usize) -> usize
    requires { at < length frames.now }
    ensures { IsShared frames.now at result }
{
    match at {
        0 => 0,
        at => frames.shared(at, at - 1),
    }
}

fn want_verification_types(wants: &mut Wants<'_>, types: &[VType]) -> M<()>
    ensures { OnOk result (wants.new
        ≡ wanting wants.old (flat_map (verification_wants wants.old.classes) types.now)) }
{
    for ty in types {
        want_verification_type(wants, ty)?;
    }
    Ok(())
}

fn want_verification_type(wants: &mut Wants<'_>, ty: &VType) -> M<()>
    ensures { OnOk result (wants.new ≡ wanting wants.old (verification_wants wants.old.classes ty.now)) }
{
    match ty {
        VType::Object(ty) => want_type(wants, ty),
        _ => Ok(()),
    }
}
