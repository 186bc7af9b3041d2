// The locals of frames after a step, one after another.
ghost use Rattle.std.specs.Prelude.{◌≡◌, ◌≤◌, ◌+◌, ◌++◌, [], ◌∷◌, IfOk, OnOk, if◌then◌else◌};
ghost use Rattle.class_model.specs.Frames.{words_of_type, words_of_types};
ghost use Rattle.frame_rebuild.specs.Carried.{moved_local, moved_locals, tops};
ghost use Rattle.frame_rebuild.specs.bodies.Ends.{end_behind, ends_from, last_end};
ghost use Rattle.frame_rebuild.specs.bodies.Fitting.{IsMoved, is_gone, stays};

use crate::moves::{Moves, moved_type};
use class_model::VType;
use edit_tables::marks::has;
use jv_base::{Items, M};
use std::alloc::Global;

/// Where a local ends: how many of the moved locals come before its end, and the slot behind it.
#[derive(Clone, Copy)]
pub(crate) struct End {
    pub(crate) items: usize,
    pub(crate) slot: usize,
}

/// The last of these ends, or the one before the first local.
pub(crate) fn last_end(ends: &[End]) -> End
    ensures { result ≡ last_end ends.now }
{
    match ends.get(ends.len().saturating_sub(1)) {
        Some(end) => *end,
        None => End { items: 0, slot: 0 },
    }
}

/// The end of a local behind another end.
fn end_behind(moves: &Moves, end: End, ty: &VType) -> End
    requires items { end.items ≤ end.slot }
    requires few { end.slot + words_of_type ty.now ≤ 65535 }
    ensures { result ≡ end_behind (is_gone moves.now) end ty.now }
{
    let words = usize::from(ty.words());
    let items = if has(&moves.cut, end.slot) { words } else { 1 };
    End {
        items: end.items + items,
        slot: end.slot + words,
    }
}

/// Appends what stands in place of a local of which nothing is known.
fn push_tops(locals: &mut Items<VType>, ty: &VType) -> M<()>
    ensures { OnOk result (locals.new ≡ locals.old ++ tops ty.now) }
{
    if matches!(ty, VType::Long) {
        locals.push(VType::Top)?;
    }
    locals.push(VType::Top)?;
    Ok(())
}

/// Appends what becomes of a local that begins at a slot.
fn push_local(moves: &Moves, locals: &mut Items<VType>, slot: usize, ty: VType) -> M<()>
    requires moves { IsMoved moves.now }
    ensures { OnOk result (locals.new
        ≡ locals.old ++ moved_local (stays moves.now) (is_gone moves.now) slot ty) }
{
    if has(&moves.cut, slot) {
        push_tops(locals, &ty)?;
    } else {
        locals.push(moved_type(moves, ty))?;
    }
    Ok(())
}

/// What becomes of locals behind an end; their ends are appended to those that there are.
#[tactic(auto, unfolding(crate::specs::Carried::moved_locals, crate::specs::bodies::Ends::ends_from))]
pub(crate) fn moved_locals(
    alloc: Global,
    moves: &Moves,
    types: Items<VType>,
    from: End,
    ends: &mut Vec<End>,
) -> M<Items<VType>>
    requires moves { IsMoved moves.now }
    requires items { from.items ≤ from.slot }
    requires few { from.slot + words_of_types types ≤ 65535 }
    ensures ends { OnOk result (ends.new.items
        ≡ ends.old.items ++ ends_from (is_gone moves.now) from types) }
    ensures moved { IfOk result (λ moved. moved
        ≡ moved_locals (stays moves.now) (is_gone moves.now) from.slot types) }
{
    let mut moved = Items::new(alloc);
    let mut end = from;
    for ty in types.into_vec() {
        let next = end_behind(moves, end, &ty);
        push_local(moves, &mut moved, end.slot, ty)?;
        ends.push(next)?;
        end = next;
    }
    Ok(moved)
}
