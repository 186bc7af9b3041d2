// The places at which references and texts are remembered: each has one, by its bytes.
use crate::same::{half_of, word_of};
use class_model::MemberRef;
use jv_base::{Base, Text};

/// How many places there are.
pub const PLACES: usize = 1024;

/// The place of a text, which is another one for most texts.
pub fn text_place(text: &Text) -> usize {
    place_by(last_word(text.as_bytes()) ^ text.len() as u64)
}

/// The place of a reference, which is another one for most references that differ in the end of the name, in the start
/// of the descriptor or in the end of the class name.
#[inline(always)]
pub fn ref_place(r: &MemberRef) -> usize {
    let member = last_word(r.name.as_bytes()) ^ first_word(r.ty.as_bytes()).rotate_left(21);
    match &r.class.base {
        Base::Class(name) => place_by(member ^ last_word(name.as_bytes()).rotate_left(42)),
        _ => place_by(member),
    }
}

fn place_by(mark: u64) -> usize {
    (mark.wrapping_mul(0x9E37_79B9_7F4A_7C15) >> 54) as usize
}

/// Its last eight bytes, where it has so many.
#[inline(always)]
fn last_word(bytes: &[u8]) -> u64 {
    match bytes.last_chunk::<8>() {
        Some(last) => word_of(last),
        None => short_word(bytes),
    }
}

/// Its first eight bytes, where it has so many.
#[inline(always)]
fn first_word(bytes: &[u8]) -> u64 {
    match bytes.first_chunk::<8>() {
        Some(first) => word_of(first),
        None => short_word(bytes),
    }
}

/// All bytes of a text that has less than eight.
fn short_word(bytes: &[u8]) -> u64 {
    match (bytes.first_chunk::<4>(), bytes.last_chunk::<4>()) {
        (Some(first), Some(last)) => { u64::from(half_of(first)) << 32 | u64::from(half_of(last)) }
        _ => small_word(bytes),
    }
}

/// All bytes of a text that has less than four.
fn small_word(bytes: &[u8]) -> u64 {
    let mut word = 0u64;
    for byte in bytes {
        word = word << 8 | u64::from(*byte);
    }
    word
}
