use jv_base::{
    BadDescriptor, Base, FieldType, Items, MethodType, Or, Text, external, field_text,
    is_class_name, is_member_name, is_method_name, method_text, mutf8_of_units, read_external,
    read_field_type, read_method_type, text_of_units, units_of_mutf8, units_of_text,
};
use std::test::Fail;

#[test]
fn lists_and_texts_keep_what_is_put_in(rt: HostRuntime) -> Result<(), Fail> {
    let alloc = rt.alloc();
    let mut items = Items::new(alloc);
    items.push(4u32)?;
    items.push(5)?;
    assert_eq!(rt; items.len(), 2);
    assert_eq!(rt; items[1], 5);
    let copy = items.clone()?;
    assert!(rt; copy == items);
    let text = Text::from_str(alloc, "in/a")?;
    assert_eq!(rt; text.as_str(), "in/a");
    assert!(rt; text.clone()? == text);
    Ok(())
}

fn text(rt: &HostRuntime, text: &str) -> Result<Text, Fail> {
    Ok(Text::from_str(rt.alloc(), text)?)
}

/// A text, then another so many times, and an end.
fn repeated(
    rt: &HostRuntime,
    start: &str,
    piece: &str,
    count: u32,
    end: &str,
) -> Result<Text, Fail> {
    let mut made = String::from_str(rt.alloc(), start)?;
    for _ in 0..count {
        made.push_str(piece)?;
    }
    made.push_str(end)?;
    Ok(Text::from_string(rt.alloc(), made)?)
}

/// The place of the fault, if there is one.
fn place<T: Drop>(read: Result<T, Or<BadDescriptor>>) -> Option<u32> {
    match read {
        Err(Or::Fault(bad)) => Some(bad.place),
        _ => None,
    }
}

fn field_place(rt: &HostRuntime, text: &Text) -> Option<u32> {
    if text.len() > 100_000 {
        return None;
    }
    place(read_field_type(rt.alloc(), text))
}

fn method_place(rt: &HostRuntime, text: &Text) -> Option<u32> {
    if text.len() > 100_000 {
        return None;
    }
    place(read_method_type(rt.alloc(), text))
}

fn external_place(rt: &HostRuntime, text: &Text) -> Option<u32> {
    if text.len() > 100_000 {
        return None;
    }
    place(read_external(rt.alloc(), text))
}

fn utf8_offset(rt: &HostRuntime, bytes: &[u8]) -> Option<u32> {
    if bytes.len() > 100 {
        return None;
    }
    match units_of_mutf8(rt.alloc(), bytes) {
        Err(Or::Fault(bad)) => Some(bad.offset),
        _ => None,
    }
}

const SPELLED: [u8; 14] = [
    0x41, 0xC0, 0x80, 0xC3, 0xA9, 0xE2, 0x82, 0xAC, 0xED, 0xA0, 0xBD, 0xED, 0xB8, 0x80,
];

const UNITS: [u16; 6] = [0x41, 0, 0xE9, 0x20AC, 0xD83D, 0xDE00];

#[test]
fn modified_utf8_is_written(rt: HostRuntime) -> Result<(), Fail> {
    let alloc = rt.alloc();
    let units = Items::from_vec(UNITS.to_vec(alloc)?);
    let bytes = mutf8_of_units(alloc, &units)?;
    assert!(rt; bytes.as_slice() == SPELLED.as_slice());
    Ok(())
}

#[test]
fn modified_utf8_is_read(rt: HostRuntime) -> Result<(), Fail> {
    let units = units_of_mutf8(rt.alloc(), &SPELLED)?;
    assert!(rt; units.as_slice() == UNITS.as_slice());
    Ok(())
}

#[test]
fn modified_utf8_has_one_spelling(rt: HostRuntime) {
    assert!(rt; utf8_offset(&rt, &[0x41, 0x00]) == Some(1));
    assert!(rt; utf8_offset(&rt, &[0xC1, 0x81]) == Some(0));
    assert!(rt; utf8_offset(&rt, &[0xC0, 0x81]) == Some(1));
    assert!(rt; utf8_offset(&rt, &[0xE0, 0x9F, 0xBF]) == Some(1));
    assert!(rt; utf8_offset(&rt, &[0x41, 0xE2, 0x82]) == Some(3));
    assert!(rt; utf8_offset(&rt, &[0xF0, 0x9F]) == Some(0));
}

fn text_is(rt: &HostRuntime, units: &[u16], wanted: Option<Text>) -> bool {
    match text_of_units(rt.alloc(), units) {
        Ok(made) => made == wanted,
        Err(_) => false,
    }
}

#[test]
fn a_text_has_units(rt: HostRuntime) -> Result<(), Fail> {
    let smile = text(&rt, "é😀")?;
    let units = units_of_text(rt.alloc(), &smile)?;
    assert!(rt; units.as_slice() == [0xE9, 0xD83D, 0xDE00].as_slice());
    assert!(rt; text_is(&rt, units.as_slice(), Some(smile)));
    assert!(rt; text_is(&rt, &[0xD83D, 0x41], None));
    Ok(())
}

#[test]
fn names_of_members(rt: HostRuntime) {
    for name in ["a", "$1", "a-b_c", "é", "int"] {
        assert!(rt; is_member_name(name) && is_method_name(name), "{name}");
    }
    for name in ["", "a.b", "a b", "a/b", "a;", "[a", "<a>"] {
        assert!(rt; !is_member_name(name) && !is_method_name(name), "{name}");
    }
    for name in ["<init>", "<clinit>"] {
        assert!(rt; is_method_name(name) && !is_member_name(name), "{name}");
    }
}

#[test]
fn names_of_classes(rt: HostRuntime) {
    for name in ["java/lang/Object", "p/int", "é/$"] {
        assert!(rt; is_class_name(name), "{name}");
    }
    for name in ["", "/", "a/", "/a", "a//b", "a.b", "int", "void", "<init>"] {
        assert!(rt; !is_class_name(name), "{name}");
    }
}

fn strings(rt: &HostRuntime, dims: u8) -> Result<FieldType, Fail> {
    Ok(FieldType {
        dims,
        base: Base::Class(text(rt, "java/lang/String")?),
    })
}

#[test]
fn a_field_descriptor(rt: HostRuntime) -> Result<(), Fail> {
    let wanted = strings(&rt, 2)?;
    let written = field_text(rt.alloc(), &wanted)?;
    assert!(rt; written.as_str() == "[[Ljava/lang/String;" && written.len() < 100);
    assert!(rt; read_field_type(rt.alloc(), &written)? == wanted);
    Ok(())
}

#[test]
fn no_field_descriptor(rt: HostRuntime) -> Result<(), Fail> {
    for (wrong, place) in [
        ("", 0),
        ("V", 0),
        ("[V", 1),
        ("[", 1),
        ("L;", 1),
        ("La//b;", 3),
        ("La/;", 3),
        ("La", 2),
        ("Lint;", 4),
        ("II", 1),
        ("Lé.b;", 3),
    ] {
        let wrong = text(&rt, wrong)?;
        assert!(rt; field_place(&rt, &wrong) == Some(place));
    }
    Ok(())
}

#[test]
fn most_dimensions(rt: HostRuntime) -> Result<(), Fail> {
    for (count, place) in [(255, None), (256, Some(255))] {
        let brackets = repeated(&rt, "", "[", count, "J")?;
        assert!(rt; field_place(&rt, &brackets) == place);
    }
    Ok(())
}

#[test]
fn a_method_descriptor(rt: HostRuntime) -> Result<(), Fail> {
    let alloc = rt.alloc();
    let mut args = Items::new(alloc);
    args.push(strings(&rt, 1)?)?;
    let wanted = MethodType { args, ret: None };
    let written = method_text(alloc, &wanted)?;
    assert!(rt; written.as_str() == "([Ljava/lang/String;)V" && written.len() < 100);
    assert!(rt; read_method_type(alloc, &written)? == wanted);
    Ok(())
}

#[test]
fn no_method_descriptor(rt: HostRuntime) -> Result<(), Fail> {
    for (wrong, place) in [
        ("", 0),
        ("I", 0),
        ("()", 2),
        ("(V)V", 1),
        ("()[V", 3),
        ("()VV", 3),
        ("(I", 2),
        ("(L;)V", 2),
    ] {
        let wrong = text(&rt, wrong)?;
        assert!(rt; method_place(&rt, &wrong) == Some(place));
    }
    Ok(())
}

#[test]
fn most_argument_words(rt: HostRuntime) -> Result<(), Fail> {
    for (count, end, place) in [
        (253, "D)V", None),
        (254, "J)V", Some(255)),
        (254, "[J)V", None),
        (255, ")V", None),
        (255, "I)V", Some(256)),
    ] {
        let ints = repeated(&rt, "(", "I", count, end)?;
        assert!(rt; method_place(&rt, &ints) == place);
    }
    Ok(())
}

#[test]
fn a_type_of_java_source(rt: HostRuntime) -> Result<(), Fail> {
    let wanted = strings(&rt, 1)?;
    let written = external(rt.alloc(), &wanted)?;
    assert!(rt; written.as_str() == "java.lang.String[]" && written.len() < 100);
    assert!(rt; read_external(rt.alloc(), &written)? == wanted);
    Ok(())
}

#[test]
fn no_type_of_java_source(rt: HostRuntime) -> Result<(), Fail> {
    for (wrong, place) in [
        ("", 0),
        ("void", 4),
        ("void[]", 4),
        ("int[", 4),
        ("int[][", 6),
        ("a..b", 2),
        ("a.", 2),
        (".a", 0),
        ("a/b", 1),
        ("int []", 3),
    ] {
        let wrong = text(&rt, wrong)?;
        assert!(rt; external_place(&rt, &wrong) == Some(place));
    }
    for right in ["int", "boolean[]", "int.x", "voids"] {
        let right = text(&rt, right)?;
        assert!(rt; external_place(&rt, &right).is_none());
    }
    Ok(())
}

#[test]
fn most_pairs_of_brackets(rt: HostRuntime) -> Result<(), Fail> {
    for (count, place) in [(255, None), (256, Some(513))] {
        let pairs = repeated(&rt, "int", "[]", count, "")?;
        assert!(rt; external_place(&rt, &pairs) == place);
    }
    Ok(())
}
