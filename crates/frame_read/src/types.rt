// The types that a row writes, and the room that types take (JVMS 4.7.4).
ghost use Rattle.std.specs.Prelude.{◌≡◌, [], map, nat_eq, nat_le, position, IfOk, option_and_then};
ghost use Rattle.std.specs.List.{list_any};
ghost use Rattle.class_model.specs.Frames.{tagged_type, is_float_info, words_of_types};
ghost use Rattle.class_model.specs.ReadingFrames.{only_new, type_of, types_of};
ghost use Rattle.frame_read.specs.bodies.Rows.{info_of};

use crate::row::TypeInfo;
use crate::starts::Starts;
use class_model::{Op, VType};
use jv_base::{Items, M};
use known_pool::KnownPool;
use std::alloc::Global;

// ---- what is written

fn tagged_type(tag: u8) -> Option<VType>
    ensures { result ≡ tagged_type tag }
{
    match tag {
        0 | 2 | 3 => Some(VType::Top),
        1 => Some(VType::Int),
        4 => Some(VType::Long),
        5 => Some(VType::Null),
        6 => Some(VType::UninitThis),
        _ => None,
    }
}

// What the instruction of a number made, if it is a new.
fn only_new(starts: &Starts, ops: &[Op], number: u32) -> Option<VType>
    ensures { result ≡ only_new [] starts.now ops.now number }
{
    match ops.get(number as usize) {
        Some(Op::New(_)) => Some(VType::Uninit(number)),
        _ => None,
    }
}

fn uninitialized(starts: &Starts, ops: &[Op], offset: u16) -> Option<VType>
    ensures { result ≡ option_and_then (only_new [] starts.now ops.now) (position (nat_eq offset) starts.now) }
{
    match starts.number(u64::from(offset)) {
        Some(number) => only_new(starts, ops, number),
        None => None,
    }
}

fn type_of(
    alloc: Global,
    pool: &KnownPool,
    starts: &Starts,
    ops: &[Op],
    info: TypeInfo,
) -> M<Option<VType>>
    ensures { IfOk result (λ ty. ty ≡ type_of pool.now starts.now ops.now (info_of info)) }
{
    match info {
        TypeInfo::Tag(tag) => Ok(tagged_type(tag)),
        TypeInfo::Object(cpool_index) => match pool.type_at(cpool_index)? {
            Some(class) => Ok(Some(VType::Object(class))),
            None => Ok(None),
        },
        TypeInfo::Uninitialized(offset) => Ok(uninitialized(starts, ops, offset)),
    }
}

/// The types in their order, if each is one.
pub fn types_of(
    alloc: Global,
    pool: &KnownPool,
    starts: &Starts,
    ops: &[Op],
    infos: &[TypeInfo],
) -> M<Option<Items<VType>>>
    ensures { IfOk result (λ types. types ≡ types_of pool.now starts.now ops.now (map info_of infos.now)) }
{
    let mut types = Items::with_capacity(alloc, infos.len())?;
    for info in infos {
        let Some(ty) = type_of(alloc, pool, starts, ops, *info)? else {
            return Ok(None);
        };
        types.push(ty)?;
    }
    Ok(Some(types))
}

/// Whether the type is a float or a double.
pub fn is_float(info: TypeInfo) -> bool
    ensures { result ≡ is_float_info (info_of info) }
{
    match info {
        TypeInfo::Tag(tag) => tag == 2 || tag == 3,
        _ => false,
    }
}

/// Whether one of the types is a float or a double.
pub fn has_float(infos: &[TypeInfo]) -> bool
    ensures { result ≡ list_any is_float_info (map info_of infos.now) }
{
    for info in infos {
        if is_float(*info) {
            return true;
        }
    }
    false
}

// ---- room

/// Whether the types take at most so many words.
pub fn fit(types: &[VType], words: u16) -> bool
    ensures { result ≡ nat_le (words_of_types types.now) words }
{
    let mut left = words;
    for ty in types {
        let taken = ty.words();
        if left < taken {
            return false;
        }
        left -= taken;
    }
    true
}

// ---- copies

/// The same types.
pub fn copies(alloc: Global, types: &[VType]) -> M<Items<VType>>
    ensures { IfOk result (λ copies. copies ≡ types.now) }
{
    let mut copies = Items::with_capacity(alloc, types.len())?;
    for ty in types {
        copies.push(ty.clone()?)?;
    }
    Ok(copies)
}
