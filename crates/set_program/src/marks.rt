// Numbers by which most names are told apart.
use class_model::MemberRef;
use jv_base::{Base, Name, Text};
use run_heap::Key;

/// The golden ratio's part behind the point, by which products spread.
const SPREAD: u64 = 0x9E37_79B9_7F4A_7C15;

/// That of a text.
pub(crate) fn text_mark(text: &Text) -> u64 {
    (text.tail() ^ text.len() as u64).wrapping_mul(SPREAD)
}

/// One number for two.
fn joined(one: u64, other: u64) -> u64 {
    (one.rotate_left(21) ^ other).wrapping_mul(SPREAD)
}

/// That of a field or a method.
pub(crate) fn key_mark(key: &Key) -> u64 {
    let named = joined(text_mark(key.class()), text_mark(key.name()));
    joined(named, text_mark(key.descriptor()))
}

/// That of a reference.
pub(crate) fn reference_mark(r: &MemberRef) -> u64 {
    let class = match &r.class.base {
        Base::Class(name) => text_mark(name),
        _ => 0,
    };
    joined(joined(class, text_mark(&r.name)), text_mark(&r.ty))
}

/// That of a reference beside a class.
pub(crate) fn call_mark(class: &Name, r: &MemberRef) -> u64 {
    joined(text_mark(class), reference_mark(r))
}
