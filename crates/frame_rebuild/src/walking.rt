// Frames after a step, which go on sharing their locals.
ghost use Rattle.std.specs.Prelude.{◌≡◌, ◌≤◌, ◌<◌, ◌-◌, [], ◌∷◌, ◌++◌, IfOk, OnOk, if◌then◌else◌, length, take};
ghost use Rattle.class_model.specs.FrameLists.{frame_numbered};
ghost use Rattle.frame_rebuild.specs.Carried.{carried, moved_frame, moved_locals};
ghost use Rattle.frame_rebuild.specs.bodies.Ends.{ends_from, last_end, locals_before, no_end};
ghost use Rattle.frame_rebuild.specs.bodies.Fitting.{AllFit, IsMoved, end_of, is_gone, is_led, stays};

use crate::locals::{End, last_end, moved_locals};
use crate::marking::marks_of;
use crate::moves::{Moves, moved_stack, place_of};
use class_model::{FrameBuilder, Frames};
use edit_tables::marks::has;
use jv_base::M;
use std::alloc::Global;

/// How many locals a frame shares with the one before.
fn shared_before(frames: &Frames, number: usize) -> usize
    requires { number < length frames.now }
    ensures few { result ≤ length (locals_before frames.now number) }
    ensures fits { result ≤ length (frame_numbered frames.now number).frame.locals }
    ensures same { take result (locals_before frames.now number) ≡ take result
        (frame_numbered frames.now number).frame.locals }
{
    match number {
        0 => 0,
        number => frames.shared(number - 1, number),
    }
}

/// Takes back what became of the locals behind the first ones, so many, with their ends. It gives the end of the last
/// one that is left.
fn take_back(built: &mut FrameBuilder, ends: &mut Vec<End>, count: usize) -> End
    requires { (last_end (take count ends.old.items)).items ≤ length built.old.locals }
    ensures end { result ≡ last_end (take count ends.old.items) }
    ensures ends { ends.new.items ≡ take count ends.old.items }
    ensures built { built.new ≡ record {
      frames = built.old.frames;
      locals = take (length built.old.locals - (length built.old.locals - result.items)) built.old.locals;
    } }
{
    ends.truncate(count);
    let end = last_end(ends.as_slice());
    built.chop(built.len() - end.items);
    end
}

/// Goes on from the locals of the frame before to those of a frame.
fn put_locals(
    alloc: Global,
    moves: &Moves,
    frames: &Frames,
    number: usize,
    built: &mut FrameBuilder,
    ends: &mut Vec<End>,
) -> M<()>
    requires moves { IsMoved moves.now }
    requires fits { AllFit moves.now frames.now }
    requires number { number < length frames.now }
    requires locals { built.old.locals
        ≡ moved_locals (stays moves.now) (is_gone moves.now) 0 (locals_before frames.now number) }
    requires ends { ends.old.items ≡ ends_from (is_gone moves.now) no_end (locals_before frames.now number) }
    ensures built { OnOk result (built.new ≡ record {
      frames = built.old.frames;
      locals = moved_locals (stays moves.now) (is_gone moves.now) 0
          (frame_numbered frames.now number).frame.locals;
    }) }
    ensures ends { OnOk result (ends.new.items
        ≡ ends_from (is_gone moves.now) no_end (frame_numbered frames.now number).frame.locals) }
{
    let shared = shared_before(frames, number);
    let end = take_back(built, ends, shared);
    let rest = frames.locals(alloc, number, shared)?;
    let more = moved_locals(alloc, moves, rest, end, ends)?;
    built.append(more)
}

/// Puts a frame of the locals that there are, if it stays.
fn put_frame(
    alloc: Global,
    moves: &Moves,
    frames: &Frames,
    number: usize,
    is_carried: bool,
    built: &mut FrameBuilder,
) -> M<()>
    requires moves { IsMoved moves.now }
    requires fits { AllFit moves.now frames.now }
    requires number { number < length frames.now }
    requires locals { built.old.locals ≡ moved_locals (stays moves.now) (is_gone moves.now) 0
        (frame_numbered frames.now number).frame.locals }
    ensures { OnOk result (built.new ≡ record {
      frames = built.old.frames ++ (if is_carried
          then moved_frame (stays moves.now) (is_gone moves.now) (frame_numbered frames.now number) ∷ []
          else []);
      locals = built.old.locals;
    }) }
{
    if is_carried {
        let stack = moved_stack(alloc, moves, frames.stack(alloc, number)?)?;
        built.push(place_of(moves, frames.index(number)), stack)?;
    }
    Ok(())
}

/// The frames that stay, at their new places. A frame takes time for what it doesn't share with the one before.
#[tactic(auto, unfolding(crate::specs::Carried::carried))]
pub(crate) fn carried(alloc: Global, moves: &Moves, frames: &Frames) -> M<Frames>
    requires moves { IsMoved moves.now }
    requires few { length moves.now.lives.items < 4294967295 }
    requires fits { AllFit moves.now frames.now }
    ensures { IfOk result (λ new. new
        ≡ carried (stays moves.now) (is_led moves.now) (is_gone moves.now) (end_of moves.now) frames.now) }
{
    let marks = marks_of(alloc, moves, frames)?;
    let mut built = FrameBuilder::new(alloc);
    let mut ends = Vec::new(alloc);
    for number in 0..frames.len() {
        put_locals(alloc, moves, frames, number, &mut built, &mut ends)?;
        put_frame(
            alloc,
            moves,
            frames,
            number,
            has(&marks, number),
            &mut built,
        )?;
    }
    Ok(built.into_frames())
}
