// Whether a text is the descriptor of a type.
ghost use Rattle.std.specs.Prelude.{◌≡◌, ◌++◌, codes, option_copied, replicate};
ghost use Rattle.std.specs.List.{flat_map};
ghost use Rattle.jv_base.specs.Names.{is_text};
ghost use Rattle.jv_base.specs.Types.{base_text, field_text, method_text, result_text};
ghost use Rattle.lib_table.specs.bodies.Stripping.{behind};

use jv_base::{Base, FieldType, MethodType};

/// Whether a text is the descriptor of a method type (JVMS 4.3.3), told without memory.
#[tactic(auto, using(crate::proofs::Behind::behind_whole))]
pub(crate) fn is_descriptor(text: &str, ty: &MethodType) -> bool
    ensures { result ≡ is_text text.now (method_text ty.now) }
{
    match behind_method(text.as_bytes(), ty) {
        Some(rest) => rest.is_empty(),
        None => false,
    }
}

#[tactic(auto, using(crate::proofs::Behind::behind_append), unfolding(jv_base::specs::Types::method_text, jv_base::specs::Types::result_text))]
fn behind_method<'a>(text: &'a [u8], ty: &MethodType) -> Option<&'a [u8]>
    ensures { option_copied result ≡ behind (method_text ty.now) text.now }
{
    let rest = behind_front(text, b"(")?;
    let rest = behind_fields(rest, ty.args.as_slice())?;
    let rest = behind_front(rest, b")")?;
    match &ty.ret {
        Some(ty) => behind_field(rest, ty),
        None => behind_front(rest, b"V"),
    }
}

fn behind_fields<'a>(text: &'a [u8], types: &[FieldType]) -> Option<&'a [u8]>
    ensures { option_copied result ≡ behind (flat_map field_text types.now) text.now }
{
    let mut rest = text;
    for ty in types {
        rest = behind_field(rest, ty)?;
    }
    Some(rest)
}

#[tactic(auto, using(crate::proofs::Behind::behind_append), unfolding(jv_base::specs::Types::field_text))]
fn behind_field<'a>(text: &'a [u8], ty: &FieldType) -> Option<&'a [u8]>
    ensures { option_copied result ≡ behind (field_text ty.now) text.now }
{
    behind_base(behind_brackets(text, ty.dims)?, &ty.base)
}

fn behind_brackets(text: &[u8], dims: u8) -> Option<&[u8]>
    ensures { option_copied result ≡ behind (replicate dims 91) text.now }
{
    let mut rest = text;
    for _ in 0..dims {
        rest = behind_front(rest, b"[")?;
    }
    Some(rest)
}

#[tactic(auto, unfolding(jv_base::specs::Types::base_text))]
fn behind_base<'a>(text: &'a [u8], base: &Base) -> Option<&'a [u8]>
    ensures { option_copied result ≡ behind (base_text base.now) text.now }
{
    let letter: &[u8] = match base {
        Base::Boolean => b"Z",
        Base::Byte => b"B",
        Base::Char => b"C",
        Base::Short => b"S",
        Base::Int => b"I",
        Base::Long => b"J",
        Base::Float => b"F",
        Base::Double => b"D",
        Base::Class(name) => return behind_class(text, name.as_bytes()),
    };
    behind_front(text, letter)
}

#[tactic(auto, using(crate::proofs::Behind::behind_append))]
fn behind_class<'a>(text: &'a [u8], name: &[u8]) -> Option<&'a [u8]>
    ensures { option_copied result ≡ behind (codes "L" ++ (name.now ++ codes ";")) text.now }
{
    let rest = behind_front(text, b"L")?;
    let rest = behind_front(rest, name)?;
    behind_front(rest, b";")
}

#[tactic(auto, using(crate::proofs::Behind::behind_is))]
fn behind_front<'a>(text: &'a [u8], front: &[u8]) -> Option<&'a [u8]>
    ensures { option_copied result ≡ behind front.now text.now }
{
    text.strip_prefix(front)
}
