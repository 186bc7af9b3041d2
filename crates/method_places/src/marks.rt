// Marks of names and descriptors: those of equal ones are equal.
ghost use Rattle.std.specs.Prelude.{◌≡◌, ◌++◌, codes, replicate};
ghost use Rattle.std.specs.List.{flat_map};
ghost use Rattle.jv_base.specs.Types.{base_text, field_text, method_text, result_text};
ghost use Rattle.method_places.specs.bodies.Marks.{mark_of, with_byte, with_text};

use class_model::Method;
use jv_base::{Base, FieldType, MethodType};

/// The mark of the name and the descriptor of a method.
pub(crate) fn method_mark(method: &Method) -> u64
    ensures { result ≡ mark_of (method.now.name, method_text method.now.ty) }
{
    with_method_type(with_text(0, method.name.as_bytes()), &method.ty)
}

/// The same as of the text of the descriptor, which isn't made.
#[tactic(auto, unfolding(jv_base::specs::Types::method_text))]
fn with_method_type(mark: u64, ty: &MethodType) -> u64
    ensures { result ≡ with_text mark (method_text ty.now) }
{
    let opened = with_byte(mark, b'(');
    let closed = with_byte(with_types(opened, ty.args.as_slice()), b')');
    with_result(closed, &ty.ret)
}

#[tactic(auto, unfolding(jv_base::specs::Types::result_text))]
fn with_result(mark: u64, ret: &Option<FieldType>) -> u64
    ensures { result ≡ with_text mark (result_text ret.now) }
{
    match ret {
        Some(ty) => with_type(mark, ty),
        None => with_byte(mark, b'V'),
    }
}

fn with_types(mark: u64, types: &[FieldType]) -> u64
    ensures { result ≡ with_text mark (flat_map field_text types.now) }
{
    let mut longer = mark;
    for ty in types {
        longer = with_type(longer, ty);
    }
    longer
}

#[tactic(auto, unfolding(jv_base::specs::Types::field_text))]
fn with_type(mark: u64, ty: &FieldType) -> u64
    ensures { result ≡ with_text mark (field_text ty.now) }
{
    with_base(with_brackets(mark, ty.dims), &ty.base)
}

fn with_brackets(mark: u64, count: u8) -> u64
    ensures { result ≡ with_text mark (replicate count 91) }
{
    let mut longer = mark;
    for _ in 0..count {
        longer = with_byte(longer, b'[');
    }
    longer
}

#[tactic(auto, unfolding(jv_base::specs::Types::base_text))]
fn with_base(mark: u64, base: &Base) -> u64
    ensures { result ≡ with_text mark (base_text base.now) }
{
    match base {
        Base::Boolean => with_byte(mark, b'Z'),
        Base::Byte => with_byte(mark, b'B'),
        Base::Char => with_byte(mark, b'C'),
        Base::Short => with_byte(mark, b'S'),
        Base::Int => with_byte(mark, b'I'),
        Base::Long => with_byte(mark, b'J'),
        Base::Float => with_byte(mark, b'F'),
        Base::Double => with_byte(mark, b'D'),
        Base::Class(name) => with_class(mark, name.as_bytes()),
    }
}

fn with_class(mark: u64, name: &[u8]) -> u64
    ensures { result ≡ with_text mark (codes "L" ++ (name.now ++ codes ";")) }
{
    with_byte(with_text(with_byte(mark, b'L'), name), b';')
}

fn with_text(mark: u64, text: &[u8]) -> u64
    ensures { result ≡ with_text mark text.now }
{
    let mut longer = mark;
    for byte in text {
        longer = with_byte(longer, *byte);
    }
    longer
}

fn with_byte(mark: u64, byte: u8) -> u64
    ensures { result ≡ with_byte mark byte }
{
    mark.wrapping_add(u64::from(byte))
        .wrapping_mul(1_099_511_628_211)
}
