// The form in which a frame is written (JVMS 4.7.4).
ghost use Rattle.std.specs.Prelude.{◌≡◌, ◌<◌, ◌≤◌, length, take, IfOk};
ghost use Rattle.class_model.specs.FrameLists.{frame_numbered};
ghost use Rattle.class_model.specs.CanonicalFrames.{form_of, same_types};
ghost use Rattle.frame_write.specs.Forms.{form_of_row, locals_before};
ghost use Rattle.frame_write.specs.bodies.Changes.{change_due};

use crate::comparing::same_types;
use class_model::{Frame, Frames, VType};
use jv_base::{Items, M};
use std::alloc::Global;

/// What a frame is written as, with what is written of it.
#[derive(Drop)]
pub enum FrameForm {
    Same,
    /// With one type on the stack.
    SameWithItem(VType),
    /// So many locals go.
    Chop(usize),
    /// These locals are new.
    Append(Items<VType>),
    Full(Frame),
}

// How the locals follow from those of the frame before.
#[derive(Clone, Copy)]
enum Change {
    Same,
    // So many go, from one to three.
    Fewer(usize),
    // So many are new, from one to three.
    More(usize),
    Other,
}

// How many locals the frame before has. That of the first frame is given.
fn len_before(first: &[VType], frames: &Frames, number: usize) -> usize
    requires { number < length frames.now }
    ensures { result ≡ length (locals_before first.now frames.now number) }
{
    match number {
        0 => first.len(),
        number => frames.locals_len(number - 1),
    }
}

// Whether the first locals of a frame and of the one before it, so many, are the same.
fn agree(alloc: Global, first: &[VType], frames: &Frames, number: usize, len: usize) -> M<bool>
    requires number { number < length frames.now }
    requires before { len ≤ length (locals_before first.now frames.now number) }
    requires locals { len ≤ length (frame_numbered frames.now number).frame.locals }
    ensures { IfOk result (λ same. same ≡ same_types (take len (locals_before first.now frames.now number))
        (take len (frame_numbered frames.now number).frame.locals)) }
{
    if number == 0 {
        let locals = frames.locals(alloc, 0, 0)?;
        return Ok(same_types(&first[..len], &locals.as_slice()[..len]));
    }
    let shared = frames.shared(number - 1, number);
    if len <= shared {
        return Ok(true);
    }
    let before = frames.locals(alloc, number - 1, shared)?;
    let locals = frames.locals(alloc, number, shared)?;
    Ok(same_types(
        &before.as_slice()[..len - shared],
        &locals.as_slice()[..len - shared],
    ))
}

fn change_of(alloc: Global, first: &[VType], frames: &Frames, number: usize) -> M<Change>
    requires { number < length frames.now }
    ensures { IfOk result (λ change. change ≡ change_due (locals_before first.now frames.now number)
        (frame_numbered frames.now number).frame.locals) }
{
    let before = len_before(first, frames, number);
    let len = frames.locals_len(number);
    let gone = before.saturating_sub(len);
    let new = len.saturating_sub(before);
    if gone > 3 || new > 3 {
        return Ok(Change::Other);
    }
    if !agree(alloc, first, frames, number, before.min(len))? {
        return Ok(Change::Other);
    }
    if gone > 0 {
        Ok(Change::Fewer(gone))
    } else if new > 0 {
        Ok(Change::More(new))
    } else {
        Ok(Change::Same)
    }
}

/// The first form that fits the frame of a number, behind the one before. `first` are the locals behind which the first
/// frame stands.
pub fn frame_form(alloc: Global, first: &[VType], frames: &Frames, number: usize) -> M<FrameForm>
    requires { number < length frames.now }
    ensures { IfOk result (λ form. form_of_row form ≡ form_of (locals_before first.now frames.now number)
        (frame_numbered frames.now number).frame.locals (frame_numbered frames.now number).frame.stack) }
{
    let change = change_of(alloc, first, frames, number)?;
    match (frames.stack_len(number), change) {
        (0, Change::Same) => Ok(FrameForm::Same),
        (0, Change::Fewer(gone)) => Ok(FrameForm::Chop(gone)),
        (0, Change::More(new)) => {
            let len = frames.locals_len(number);
            Ok(FrameForm::Append(frames.locals(alloc, number, len - new)?))
        }
        (1, Change::Same) => Ok(FrameForm::SameWithItem(frames.top_of_stack(number)?)),
        _ => Ok(FrameForm::Full(frames.frame(alloc, number)?)),
    }
}
