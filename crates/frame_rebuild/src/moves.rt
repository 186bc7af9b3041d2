// What stays of a code, and where it comes to stand.
ghost use Rattle.std.specs.Prelude.{◌≡◌, ◌<◌, ◌≤◌, IfOk, length, map};
ghost use Rattle.code_edit.specs.Rewriting.{place};
ghost use Rattle.class_model.specs.declared.frame.VType.TheVariants.{Uninit};
ghost use Rattle.frame_rebuild.specs.Carried.{moved_type};
ghost use Rattle.frame_rebuild.specs.bodies.Fitting.{IsMoved, end_of, stays};

use class_model::VType;
use edit_tables::marks::has;
use edit_tables::places::place_in;
use jv_base::{Items, M};
use std::alloc::Global;

/// What stays of a code, and where it comes to stand.
#[derive(Drop)]
pub(crate) struct Moves {
    /// Whether an instruction stays.
    pub(crate) lives: Vec<bool>,
    /// How many instructions stay before an index, and before the end.
    pub(crate) places: Vec<u32>,
    /// Whether an index is a target.
    pub(crate) targets: Vec<bool>,
    /// Whether what was stored to a slot is gone.
    pub(crate) cut: Vec<bool>,
}

/// Where an index comes to stand.
pub(crate) fn place_of(moves: &Moves, at: u32) -> u32
    requires moves { IsMoved moves.now }
    requires within { at ≤ length moves.now.lives.items }
    ensures { result ≡ place (stays moves.now) at }
{
    place_in(&moves.places, at)
}

/// How many instructions stay.
pub(crate) fn end_of(moves: &Moves) -> u32
    requires moves { IsMoved moves.now }
    requires few { length moves.now.lives.items < 4294967295 }
    ensures { result ≡ end_of moves.now }
{
    place_of(moves, moves.lives.len() as u32)
}

/// An object that isn't initialised, made by the new of this number.
fn moved_uninit(moves: &Moves, number: u32) -> VType
    requires moves { IsMoved moves.now }
    ensures { result ≡ moved_type (stays moves.now) (Uninit number) }
{
    if has(&moves.lives, number as usize) {
        VType::Uninit(place_of(moves, number))
    } else {
        VType::Top
    }
}

/// A type at its new place.
pub(crate) fn moved_type(moves: &Moves, ty: VType) -> VType
    requires moves { IsMoved moves.now }
    ensures { result ≡ moved_type (stays moves.now) ty }
{
    match ty {
        VType::Uninit(number) => moved_uninit(moves, number),
        VType::Top => VType::Top,
        VType::Int => VType::Int,
        VType::Long => VType::Long,
        VType::Null => VType::Null,
        VType::UninitThis => VType::UninitThis,
        VType::Object(class) => VType::Object(class),
    }
}

/// The types of a stack at the frame's new place.
pub(crate) fn moved_stack(alloc: Global, moves: &Moves, types: Items<VType>) -> M<Items<VType>>
    requires moves { IsMoved moves.now }
    ensures { IfOk result (λ moved. moved ≡ map (moved_type (stays moves.now)) types) }
{
    let mut moved = Items::with_capacity(alloc, types.len())?;
    for ty in types.into_vec() {
        moved.push(moved_type(moves, ty))?;
    }
    Ok(moved)
}
