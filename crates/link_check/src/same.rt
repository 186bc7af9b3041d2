// Whether references and texts are one, in few steps where the texts are short.
ghost use Rattle.std.specs.Prelude.{◌≡◌, ◌-◌, IsTrue, drop, length, take};
ghost use Rattle.std.specs.Int.{to_le_bytes, w32, w64};

use class_model::MemberRef;
use jv_base::{Base, FieldType, Text};

/// Whether two references are one.
#[inline(always)]
pub fn is_same_ref(one: &MemberRef, other: &MemberRef) -> bool
    ensures { IsTrue result → one.now ≡ other.now }
{
    one.of_interface == other.of_interface
        && is_same_text(&one.name, &other.name)
        && is_same_text(&one.ty, &other.ty)
        && is_same_type(&one.class, &other.class)
}

fn is_same_type(one: &FieldType, other: &FieldType) -> bool
    ensures { IsTrue result → one.now ≡ other.now }
{
    one.dims == other.dims && is_same_base(&one.base, &other.base)
}

fn is_same_base(one: &Base, other: &Base) -> bool
    ensures { IsTrue result → one.now ≡ other.now }
{
    match (one, other) {
        (Base::Class(name), Base::Class(other)) => is_same_text(name, other),
        _ => one == other,
    }
}

/// Whether two texts are one.
#[inline(always)]
pub fn is_same_text(one: &Text, other: &Text) -> bool
    ensures { IsTrue result → one.now ≡ other.now }
{
    are_same_bytes(one.as_bytes(), other.as_bytes())
}

#[inline(always)]
fn are_same_bytes(one: &[u8], other: &[u8]) -> bool
    ensures { IsTrue result → one.now ≡ other.now }
{
    if one.len() != other.len() {
        return false;
    }
    match one.len() {
        0..=3 => is_each_same(one, other),
        4..=7 => has_same_first_half(one, other) && has_same_last_half(one, other),
        8..=16 => has_same_first_word(one, other) && has_same_last_word(one, other),
        _ => one == other,
    }
}

fn is_each_same(one: &[u8], other: &[u8]) -> bool
    requires { length one.now ≡ length other.now }
    ensures { IsTrue result → one.now ≡ other.now }
{
    for at in 0..one.len() {
        if one[at] != other[at] {
            return false;
        }
    }
    true
}

#[inline(always)]
fn has_same_first_word(one: &[u8], other: &[u8]) -> bool
    ensures { IsTrue result → take 8 one.now ≡ take 8 other.now }
{
    match (one.first_chunk::<8>(), other.first_chunk::<8>()) {
        (Some(one), Some(other)) => word_of(one) == word_of(other),
        _ => false,
    }
}

#[inline(always)]
fn has_same_last_word(one: &[u8], other: &[u8]) -> bool
    ensures { IsTrue result → drop (length one.now - 8) one.now ≡ drop (length other.now - 8) other.now }
{
    match (one.last_chunk::<8>(), other.last_chunk::<8>()) {
        (Some(one), Some(other)) => word_of(one) == word_of(other),
        _ => false,
    }
}

fn has_same_first_half(one: &[u8], other: &[u8]) -> bool
    ensures { IsTrue result → take 4 one.now ≡ take 4 other.now }
{
    match (one.first_chunk::<4>(), other.first_chunk::<4>()) {
        (Some(one), Some(other)) => half_of(one) == half_of(other),
        _ => false,
    }
}

fn has_same_last_half(one: &[u8], other: &[u8]) -> bool
    ensures { IsTrue result → drop (length one.now - 4) one.now ≡ drop (length other.now - 4) other.now }
{
    match (one.last_chunk::<4>(), other.last_chunk::<4>()) {
        (Some(one), Some(other)) => half_of(one) == half_of(other),
        _ => false,
    }
}

/// Eight bytes as one number, which is one load.
#[inline(always)]
pub(crate) fn word_of(bytes: &[u8; 8]) -> u64
    ensures { to_le_bytes w64 result ≡ bytes.now }
{
    u64::from_le_bytes(*bytes)
}

/// Four bytes as one number.
pub(crate) fn half_of(bytes: &[u8; 4]) -> u32
    ensures { to_le_bytes w32 result ≡ bytes.now }
{
    u32::from_le_bytes(*bytes)
}
