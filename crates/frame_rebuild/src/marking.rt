// Which frames stay.
ghost use Rattle.std.specs.Prelude.{◌≡◌, ◌<◌, ◌&&◌, ◌==◌, IfOk, if◌then◌else◌, length, not};
ghost use Rattle.class_model.specs.FrameLists.{frame_numbered};
ghost use Rattle.frame_rebuild.specs.Carried.{counts};
ghost use Rattle.frame_rebuild.specs.bodies.Fitting.{AllFit, IsMoved, end_of, is_led, stays};
ghost use Rattle.frame_rebuild.specs.bodies.Marks.{marks_of};

use crate::moves::{Moves, end_of, place_of};
use class_model::Frames;
use edit_tables::marks::has;
use jv_base::M;
use std::alloc::Global;

/// Whether a frame counts: its index stays, or is a target.
fn counts(moves: &Moves, frames: &Frames, number: usize) -> bool
    requires { number < length frames.now }
    ensures { result ≡ counts (stays moves.now) (is_led moves.now) (frame_numbered frames.now number) }
{
    let at = frames.index(number) as usize;
    has(&moves.lives, at) || has(&moves.targets, at)
}

/// Of each frame, whether it stays. It goes over the frames once, from the last one on.
pub(crate) fn marks_of(alloc: Global, moves: &Moves, frames: &Frames) -> M<Vec<bool>>
    requires moves { IsMoved moves.now }
    requires few { length moves.now.lives.items < 4294967295 }
    requires fits { AllFit moves.now frames.now }
    ensures { IfOk result (λ marks. marks.items
        ≡ marks_of (stays moves.now) (is_led moves.now) (end_of moves.now) frames.now) }
{
    let mut marks = Vec::with_capacity(alloc, frames.len())?;
    let mut next = end_of(moves);
    let mut left = frames.len();
    while left > 0 {
        left -= 1;
        let place = place_of(moves, frames.index(left));
        let is_counted = counts(moves, frames, left);
        let mark = is_carried(is_counted, place, next);
        marks.push(mark)?;
        next = chosen(is_counted, place, next);
    }
    marks.reverse();
    Ok(marks)
}

/// Whether a frame that comes to stand at this place stays, the next one that counts standing at another or the same.
fn is_carried(is_counted: bool, place: u32, next: u32) -> bool
    ensures { result ≡ (is_counted && not (place == next)) }
{
    is_counted && place != next
}

fn chosen(first: bool, one: u32, other: u32) -> u32
    ensures { result ≡ (if first then one else other) }
{
    if first { one } else { other }
}
