// The canonical rows of a StackMapTable (JVMS 4.7.4).
ghost use Rattle.std.specs.Prelude.{◌≡◌, ℕ, ◌+◌, ◌-◌, ◌^◌, ◌<◌, ◌≤◌, ◌&&◌, [], ◌∷◌, ◌++◌, length, map, take};
ghost use Rattle.std.specs.Prelude.{slice_index, None, All, IfOk, OnOk};
ghost use Rattle.std.specs.Int.{w16, to_be_bytes};
ghost use Rattle.std.specs.List.{flat_map};
ghost use Rattle.class_model.specs.Frames.{verification_type_info, counted_types, stack_map_frame, stack_map_table};
ghost use Rattle.class_model.specs.CanonicalFrames as canonical;
ghost use Rattle.class_model.specs.declared.frame.FrameAt.{FrameAt};
ghost use Rattle.code_write.specs.Constants.{constants_in};
ghost use Rattle.frame_write.specs.Writing.{IsOffset, HasShortLists};
ghost use Rattle.frame_write.specs.Forms.{form_of_row, IsShortForm};

use crate::constants::class_index;
use crate::form::{FrameForm, frame_form};
use class_model::{Frame, Frames, Pool, VType};
use code_write::constants_in;
use constant_table::{ConstantTable, put, put_u2};
use jv_base::{Bytes, Items, M};
use std::alloc::Global;

// ---- types

// The offset of an instruction, and 0 for none.
fn start_of(starts: &[u32], number: u32) -> u16
    requires { All IsOffset starts.now }
    ensures { result ≡ slice_index starts.now number }
{
    match starts.get(number as usize) {
        Some(start) => *start as u16,
        None => 0,
    }
}

fn put_type(
    alloc: Global,
    constants: &ConstantTable,
    starts: &[u32],
    ty: &VType,
    out: &mut Vec<u8>,
) -> M<()>
    requires constants { length constants.now + 1 < 2 ^ 16 }
    requires starts { All IsOffset starts.now }
    ensures { OnOk result (out.new.items ≡ out.old.items ++ verification_type_info
        (canonical.type_info constants.now starts.now ty.now)) }
{
    match ty {
        VType::Top => put(out, &[0]),
        VType::Int => put(out, &[1]),
        VType::Long => put(out, &[4]),
        VType::Null => put(out, &[5]),
        VType::UninitThis => put(out, &[6]),
        VType::Object(class) => {
            put(out, &[7])?;
            put_u2(out, class_index(alloc, constants, class)?)
        }
        VType::Uninit(number) => {
            put(out, &[8])?;
            put_u2(out, start_of(starts, *number))
        }
    }
}

fn put_types(
    alloc: Global,
    constants: &ConstantTable,
    starts: &[u32],
    types: &[VType],
    out: &mut Vec<u8>,
) -> M<()>
    requires constants { length constants.now + 1 < 2 ^ 16 }
    requires starts { All IsOffset starts.now }
    ensures { OnOk result (out.new.items ≡ out.old.items ++ flat_map verification_type_info (map
        (canonical.type_info constants.now starts.now) types.now)) }
{
    for ty in types {
        put_type(alloc, constants, starts, ty, out)?;
    }
    Ok(())
}

fn put_counted_types(
    alloc: Global,
    constants: &ConstantTable,
    starts: &[u32],
    types: &[VType],
    out: &mut Vec<u8>,
) -> M<()>
    requires constants { length constants.now + 1 < 2 ^ 16 }
    requires starts { All IsOffset starts.now }
    requires count { length types.now < 2 ^ 16 }
    ensures { OnOk result (out.new.items ≡ out.old.items ++ counted_types (map (canonical.type_info constants.now
        starts.now) types.now)) }
{
    put_u2(out, types.len() as u16)?;
    put_types(alloc, constants, starts, types, out)
}

// ---- forms

fn put_same(delta: u16, out: &mut Vec<u8>) -> M<()>
    ensures { OnOk result (out.new.items ≡ out.old.items
        ++ stack_map_frame (canonical.row [] [] delta canonical.same)) }
{
    if delta < 64 {
        return put(out, &[delta as u8]);
    }
    put(out, &[251])?;
    put_u2(out, delta)
}

fn put_same_with_item(
    alloc: Global,
    constants: &ConstantTable,
    starts: &[u32],
    delta: u16,
    item: &VType,
    out: &mut Vec<u8>,
) -> M<()>
    requires constants { length constants.now + 1 < 2 ^ 16 }
    requires starts { All IsOffset starts.now }
    ensures { OnOk result (out.new.items ≡ out.old.items ++ stack_map_frame (canonical.row constants.now starts.now
        delta
        (canonical.same_with_item item.now))) }
{
    if delta <= 63 {
        put(out, &[64 + delta as u8])?;
    } else {
        put(out, &[247])?;
        put_u2(out, delta)?;
    }
    put_type(alloc, constants, starts, item, out)
}

fn put_chop(delta: u16, gone: usize, out: &mut Vec<u8>) -> M<()>
    requires { gone ≤ 3 }
    ensures { OnOk result (out.new.items ≡ out.old.items ++ stack_map_frame (canonical.row [] [] delta
        (canonical.chop gone))) }
{
    put(out, &[251 - gone as u8])?;
    put_u2(out, delta)
}

fn put_append(
    alloc: Global,
    constants: &ConstantTable,
    starts: &[u32],
    delta: u16,
    types: &[VType],
    out: &mut Vec<u8>,
) -> M<()>
    requires constants { length constants.now + 1 < 2 ^ 16 }
    requires starts { All IsOffset starts.now }
    requires count { length types.now ≤ 3 }
    ensures { OnOk result (out.new.items ≡ out.old.items ++ stack_map_frame (canonical.row constants.now starts.now
        delta
        (canonical.append types.now))) }
{
    put(out, &[251 + types.len() as u8])?;
    put_u2(out, delta)?;
    put_types(alloc, constants, starts, types, out)
}

fn put_full(
    alloc: Global,
    constants: &ConstantTable,
    starts: &[u32],
    delta: u16,
    frame: &Frame,
    out: &mut Vec<u8>,
) -> M<()>
    requires constants { length constants.now + 1 < 2 ^ 16 }
    requires starts { All IsOffset starts.now }
    requires frame { HasShortLists frame.now }
    ensures { OnOk result (out.new.items ≡ out.old.items ++ stack_map_frame (canonical.row constants.now starts.now
        delta
        (canonical.full frame.now.locals frame.now.stack))) }
{
    put(out, &[255])?;
    put_u2(out, delta)?;
    put_counted_types(alloc, constants, starts, frame.locals.as_slice(), out)?;
    put_counted_types(alloc, constants, starts, frame.stack.as_slice(), out)
}

// The row of a form.
fn put_row(
    alloc: Global,
    constants: &ConstantTable,
    starts: &[u32],
    delta: u16,
    form: &FrameForm,
    out: &mut Vec<u8>,
) -> M<()>
    requires constants { length constants.now + 1 < 2 ^ 16 }
    requires starts { All IsOffset starts.now }
    requires form { IsShortForm (form_of_row form.now) }
    ensures { OnOk result (out.new.items ≡ out.old.items ++ stack_map_frame (canonical.row constants.now starts.now
        delta
        (form_of_row form.now))) }
{
    match form {
        FrameForm::Same => put_same(delta, out),
        FrameForm::SameWithItem(item) => {
            put_same_with_item(alloc, constants, starts, delta, item, out)
        }
        FrameForm::Chop(gone) => put_chop(delta, *gone, out),
        FrameForm::Append(new) => put_append(alloc, constants, starts, delta, new.as_slice(), out),
        FrameForm::Full(frame) => put_full(alloc, constants, starts, delta, frame, out),
    }
}

// ---- rows

fn delta_to(previous: Option<u16>, offset: u16) -> u16
    ensures { result ≡ canonical.delta_to [] [] previous offset }
{
    match previous {
        None => offset,
        Some(previous) => offset.saturating_sub(previous).saturating_sub(1),
    }
}

fn put_rows(
    alloc: Global,
    constants: &ConstantTable,
    starts: &[u32],
    first: &[VType],
    frames: &Frames,
    out: &mut Vec<u8>,
) -> M<()>
    requires constants { length constants.now + 1 < 2 ^ 16 }
    requires starts { All IsOffset starts.now }
    requires frames { All (λ (f : FrameAt). HasShortLists f.frame) frames.now }
    ensures { OnOk result (out.new.items ≡ out.old.items ++ flat_map stack_map_frame
        (canonical.rows constants.now starts.now first.now None frames.now)) }
{
    let mut previous = None;
    for number in 0..frames.len() {
        let offset = start_of(starts, frames.index(number));
        let delta = delta_to(previous, offset);
        let form = frame_form(alloc, first, frames, number)?;
        put_row(alloc, constants, starts, delta, &form, out)?;
        previous = Some(offset);
    }
    Ok(())
}

/// The canonical contents of the StackMapTable with these frames (JVMS 4.7.4): each row in the first form that fits.
/// The instructions of their code begin at `starts`, and `first` is the frame before the first instruction.
pub fn write_frames_with(
    alloc: Global,
    frames: &Frames,
    first: &Frame,
    starts: &Items<u32>,
    constants: &ConstantTable,
) -> M<Bytes>
    requires constants { length constants.now + 1 < 2 ^ 16 }
    requires starts { All IsOffset starts.now }
    requires count { length frames.now < 2 ^ 16 }
    requires frames { All (λ (f : FrameAt). HasShortLists f.frame) frames.now }
    ensures canonical { IfOk result (λ bytes. bytes ≡ stack_map_table
        (canonical.rows constants.now starts.now first.now.locals None frames.now)) }
{
    let mut out = Vec::new(alloc);
    put_u2(&mut out, frames.len() as u16)?;
    put_rows(
        alloc,
        constants,
        starts.as_slice(),
        first.locals.as_slice(),
        frames,
        &mut out,
    )?;
    Ok(Items::from_vec(out))
}

/// The same, where the constants are those of a pool.
pub fn write_frames(
    alloc: Global,
    frames: &Frames,
    first: &Frame,
    starts: &Items<u32>,
    pool: &Pool,
) -> M<Bytes>
    requires constants { length (constants_in pool.now.entries) + 1 < 2 ^ 16 }
    requires starts { All IsOffset starts.now }
    requires count { length frames.now < 2 ^ 16 }
    requires frames { All (λ (f : FrameAt). HasShortLists f.frame) frames.now }
    ensures canonical { IfOk result (λ bytes. bytes ≡ stack_map_table
        (canonical.rows (constants_in pool.now.entries) starts.now first.now.locals None frames.now)) }
{
    let constants = constants_in(alloc, pool)?;
    write_frames_with(alloc, frames, first, starts, &constants)
}
