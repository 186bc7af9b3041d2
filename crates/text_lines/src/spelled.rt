// Names, types, members and numbers, spelled at the end of a text.
ghost use Rattle.std.specs.Prelude.{◌≡◌, ◌++◌, codes, OnOk};
ghost use Rattle.std.specs.Fmt.{decimal};
ghost use Rattle.std.specs.List.{flat_map, join_by, repeat};
ghost use Rattle.jv_base.specs.External.{dotted, external_text, swapped, word_text};
ghost use Rattle.text_lines.specs.Members.{arguments_text, method_text, result_text};

use itoa::Buffer;
use jv_base::{Base, FieldType, M, MethodType, Name};

/// The name of a class with dots (JLS 13.1).
pub fn push_class(out: &mut Vec<u8>, name: &Name) -> M<()>
    ensures { OnOk result (out.new.items ≡ out.old.items ++ dotted name.now) }
{
    for byte in name.as_bytes() {
        out.push(if *byte == b'/' { b'.' } else { *byte })?;
    }
    Ok(())
}

/// A type as Java source spells it.
#[tactic(auto, unfolding(jv_base::specs::External::external_text))]
pub fn push_type(out: &mut Vec<u8>, ty: &FieldType) -> M<()>
    ensures { OnOk result (out.new.items ≡ out.old.items ++ external_text ty.now) }
{
    push_base(out, &ty.base)?;
    push_dimensions(out, ty.dims)
}

#[tactic(auto, unfolding(jv_base::specs::External::word_text))]
fn push_base(out: &mut Vec<u8>, base: &Base) -> M<()>
    ensures { OnOk result (out.new.items ≡ out.old.items ++ word_text base.now) }
{
    let word: &[u8] = match base {
        Base::Boolean => b"boolean",
        Base::Byte => b"byte",
        Base::Char => b"char",
        Base::Short => b"short",
        Base::Int => b"int",
        Base::Long => b"long",
        Base::Float => b"float",
        Base::Double => b"double",
        Base::Class(name) => return push_class(out, name),
    };
    out.extend_from_slice(word)?;
    Ok(())
}

fn push_dimensions(out: &mut Vec<u8>, count: u8) -> M<()>
    ensures { OnOk result (out.new.items ≡ out.old.items ++ repeat count (codes "[]")) }
{
    for _ in 0..count {
        out.extend_from_slice(b"[]")?;
    }
    Ok(())
}

/// A method, as `int twice(int)`.
pub fn push_method(out: &mut Vec<u8>, ty: &MethodType, name: &Name) -> M<()>
    ensures { OnOk result (out.new.items ≡ out.old.items ++ method_text ty.now name.now) }
{
    push_result(out, &ty.ret)?;
    out.extend_from_slice(b" ")?;
    out.extend_from_slice(name.as_bytes())?;
    out.extend_from_slice(b"(")?;
    push_arguments(out, ty.args.as_slice())?;
    out.extend_from_slice(b")")?;
    Ok(())
}

fn push_result(out: &mut Vec<u8>, ret: &Option<FieldType>) -> M<()>
    ensures { OnOk result (out.new.items ≡ out.old.items ++ result_text ret.now) }
{
    match ret {
        Some(ty) => push_type(out, ty),
        None => {
            out.extend_from_slice(b"void")?;
            Ok(())
        }
    }
}

fn push_arguments(out: &mut Vec<u8>, types: &[FieldType]) -> M<()>
    ensures { OnOk result (out.new.items ≡ out.old.items ++ arguments_text types.now) }
{
    let [first, rest @ ..] = types else {
        return Ok(());
    };
    push_type(out, first)?;
    for ty in rest {
        out.extend_from_slice(b",")?;
        push_type(out, ty)?;
    }
    Ok(())
}

/// A number in decimal digits.
pub fn push_number(out: &mut Vec<u8>, number: u64) -> M<()>
    ensures { OnOk result (out.new.items ≡ out.old.items ++ decimal number) }
{
    let mut digits = Buffer::new();
    out.extend_from_slice(digits.format(number).as_bytes())?;
    Ok(())
}
