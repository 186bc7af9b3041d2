// Stack map frames, which go on sharing their types (JVMS 4.7.4).
ghost use Rattle.std.specs.Prelude.{◌≡◌, ◌<◌, ◌≤◌, ◌+◌, [], ◌∷◌, ◌++◌, IfOk, IsTrue, OnOk, length, map, take, true};
ghost use Rattle.class_model.specs.FrameLists.{frame_numbered};
ghost use Rattle.class_rename.specs.Names.{names_in};
ghost use Rattle.class_rename.specs.Renamed.{renamed_frame, renamed_vtype};
ghost use Rattle.class_rename.specs.bodies.Cut.{AreCut, IsCut, locals_before};

use crate::NewNames;
use crate::each::{Rename, rename_each};
use class_model::{FrameAt, FrameBuilder, Frames};
use jv_base::M;
use std::alloc::Global;

/// Puts new names into frames. A frame takes time and memory for what it doesn't share with the one before.
pub(crate) fn rename_frames(alloc: Global, names: &NewNames, frames: &mut Frames) -> M<()>
    ensures { OnOk result (frames.new ≡ map (renamed_frame (names_in names.now)) frames.old) }
{
    let old = std::mem::replace(frames, Frames::new(alloc));
    *frames = renamed_frames(alloc, names, &old)?;
    Ok(())
}

fn renamed_frames(alloc: Global, names: &NewNames, frames: &Frames) -> M<Frames>
    ensures { IfOk result (λ new. new ≡ map (renamed_frame (names_in names.now)) frames.now) }
{
    if are_cut(alloc, frames)? {
        in_turn(alloc, names, frames)
    } else {
        one_by_one(alloc, names, frames)
    }
}

/// Whether the locals of all frames end in no Top, as those of frames that were read.
fn are_cut(alloc: Global, frames: &Frames) -> M<bool>
    ensures { IfOk result (λ cut. cut ≡ true → AreCut (length frames.now) frames.now) }
{
    for number in 0..frames.len() {
        if !is_cut(alloc, frames, number)? {
            return Ok(false);
        }
    }
    Ok(true)
}

fn is_cut(alloc: Global, frames: &Frames, number: usize) -> M<bool>
    requires { number < length frames.now }
    ensures { IfOk result (λ cut. cut ≡ true → IsCut (frame_numbered frames.now number)) }
{
    let len = frames.locals_len(number);
    if len == 0 {
        return Ok(true);
    }
    let last = frames.locals(alloc, number, len - 1)?;
    Ok(!last[0].is_top())
}

/// The frames with new names, where the locals of each go on from those of the frame before.
fn in_turn(alloc: Global, names: &NewNames, frames: &Frames) -> M<Frames>
    requires { AreCut (length frames.now) frames.now }
    ensures { IfOk result (λ new. new ≡ map (renamed_frame (names_in names.now)) frames.now) }
{
    let mut built = FrameBuilder::new(alloc);
    for number in 0..frames.len() {
        put_locals(alloc, names, frames, number, &mut built)?;
        put_frame(alloc, names, frames, number, &mut built)?;
    }
    Ok(built.into_frames())
}

/// Goes on from the locals of the frame before.
fn put_locals(
    alloc: Global,
    names: &NewNames,
    frames: &Frames,
    number: usize,
    built: &mut FrameBuilder,
) -> M<()>
    requires number { number < length frames.now }
    requires locals { built.old.locals ≡ map (renamed_vtype (names_in names.now)) (locals_before frames.now number) }
    ensures { OnOk result (built.new ≡ record {
      frames = built.old.frames;
      locals = map (renamed_vtype (names_in names.now)) (frame_numbered frames.now number).frame.locals;
    }) }
{
    let shared = shared_before(frames, number);
    built.chop(built.len() - shared);
    let mut more = frames.locals(alloc, number, shared)?;
    rename_each(alloc, names, &mut more)?;
    built.append(more)
}

/// How many locals a frame shares with the one before.
fn shared_before(frames: &Frames, number: usize) -> usize
    requires number { number < length frames.now }
    ensures few { result ≤ length (locals_before frames.now number) }
    ensures same { take result (locals_before frames.now number) ≡ take result
        (frame_numbered frames.now number).frame.locals }
{
    match number {
        0 => 0,
        number => frames.shared(number - 1, number),
    }
}

/// Puts a frame of the locals that there are.
fn put_frame(
    alloc: Global,
    names: &NewNames,
    frames: &Frames,
    number: usize,
    built: &mut FrameBuilder,
) -> M<()>
    requires number { number < length frames.now }
    requires cut { IsCut (frame_numbered frames.now number) }
    requires locals { built.old.locals
        ≡ map (renamed_vtype (names_in names.now)) (frame_numbered frames.now number).frame.locals }
    ensures { OnOk result (built.new ≡ record {
      frames = built.old.frames ++ renamed_frame (names_in names.now) (frame_numbered frames.now number) ∷ [];
      locals = built.old.locals;
    }) }
{
    let mut stack = frames.stack(alloc, number)?;
    rename_each(alloc, names, &mut stack)?;
    built.push(frames.index(number), stack)
}

/// The frames with new names, whatever their locals.
fn one_by_one(alloc: Global, names: &NewNames, frames: &Frames) -> M<Frames>
    ensures { IfOk result (λ new. new ≡ map (renamed_frame (names_in names.now)) frames.now) }
{
    let mut new = Frames::new(alloc);
    for number in 0..frames.len() {
        let frame = frame_at(alloc, names, frames, number)?;
        new.push(frame)?;
    }
    Ok(new)
}

fn frame_at(alloc: Global, names: &NewNames, frames: &Frames, number: usize) -> M<FrameAt>
    requires { number < length frames.now }
    ensures { IfOk result (λ frame. frame ≡ renamed_frame (names_in names.now) (frame_numbered frames.now number)) }
{
    let mut frame = frames.frame(alloc, number)?;
    rename_each(alloc, names, &mut frame.locals)?;
    rename_each(alloc, names, &mut frame.stack)?;
    Ok(FrameAt {
        index: frames.index(number),
        frame,
    })
}
