// The constant pool of a class file (JVMS 4.1, 4.4).
ghost use Rattle.std.specs.Prelude.{◌≡◌, ◌+◌, ◌^◌, ◌<◌, [], ◌∷◌, ◌++◌, length, map, Ok, OnOk};
ghost use Rattle.std.specs.Int.{w16, to_be_bytes};
ghost use Rattle.std.specs.List.{flat_map};
ghost use Rattle.class_model.specs.ConstantPool.{cp_info, two_indices};
ghost use Rattle.class_model.specs.declared.constant.PoolConstant.{PoolConstant};
ghost use Rattle.class_model.specs.CanonicalPool as canonical;
ghost use Rattle.class_model.specs.WriteLimits.{first_of, text_fits};
ghost use Rattle.constant_table.specs.bodies.Keys.{AreKeysOf, IsKeyIn, constant_of, constants_of, text_of};

use crate::bytes::{put, put_u2, put_u4};
use crate::finding::index_of_key;
use crate::key::Key;
use crate::keys::Keys;
use crate::texts::Texts;
use jv_base::{M, Units, mutf8_of_units};
use std::alloc::Global;

/// The constants, their count first, which is one more than the last index.
pub fn put_all(alloc: Global, texts: &Texts, keys: &Keys, out: &mut Vec<u8>) -> M<()>
    requires keys { AreKeysOf texts.now keys.now }
    requires count { length keys.now + 1 < 2 ^ 16 }
    requires texts { first_of text_fits (constants_of texts.now keys.now) ≡ Ok tt }
    ensures { OnOk result (out.new.items ≡ out.old.items ++ (to_be_bytes w16 (length keys.now + 1)
        ++ flat_map cp_info (flat_map (λ key. canonical.info_of (constants_of texts.now keys.now)
        (constant_of texts.now key)) keys.now))) }
{
    put_u2(out, keys.len() as u16 + 1)?;
    for key in keys.as_slice() {
        put_item(alloc, texts, keys, *key, out)?;
    }
    Ok(())
}

/// cp_info (JVMS 4.4); the second index of a CONSTANT_Long has none.
fn put_item(alloc: Global, texts: &Texts, keys: &Keys, key: Key, out: &mut Vec<u8>) -> M<()>
    requires keys { AreKeysOf texts.now keys.now }
    requires count { length keys.now + 1 < 2 ^ 16 }
    requires key { IsKeyIn (length texts.now) key }
    requires text { text_fits (constant_of texts.now key) ≡ Ok tt }
    ensures { OnOk result (out.new.items ≡ out.old.items
        ++ flat_map cp_info (canonical.info_of (constants_of texts.now keys.now) (constant_of texts.now key))) }
{
    match key {
        Key::Utf8(text) => put_text(alloc, texts, text, out),
        Key::Integer(number) => put_integer(number, out),
        Key::Long(number) => put_long(number, out),
        Key::SecondOfLong(_) => Ok(()),
        Key::Class(name) => put_index(7, told_index(texts, keys, Key::Utf8(name)), out),
        Key::Str(text) => put_index(8, told_index(texts, keys, Key::Utf8(text)), out),
        Key::NameAndType(name, descriptor) => {
            let name = told_index(texts, keys, Key::Utf8(name));
            let descriptor = told_index(texts, keys, Key::Utf8(descriptor));
            put_indices(12, name, descriptor, out)
        }
        Key::Fieldref(class, name, descriptor) => {
            put_reference(
                texts,
                keys,
                9,
                class,
                Key::NameAndType(name, descriptor),
                out,
            )
        }
        Key::Methodref(class, name, descriptor) => {
            put_reference(
                texts,
                keys,
                10,
                class,
                Key::NameAndType(name, descriptor),
                out,
            )
        }
        Key::InterfaceMethodref(class, name, descriptor) => {
            put_reference(
                texts,
                keys,
                11,
                class,
                Key::NameAndType(name, descriptor),
                out,
            )
        }
    }
}

// The index of the constant that a key tells.
fn told_index(texts: &Texts, keys: &Keys, key: Key) -> u16
    requires keys { AreKeysOf texts.now keys.now }
    requires count { length keys.now + 1 < 2 ^ 16 }
    requires key { IsKeyIn (length texts.now) key }
    ensures { result ≡ canonical.index_of (constants_of texts.now keys.now) (constant_of texts.now key) }
{
    index_of_key(texts, keys, key) as u16
}

// The text of a number.
fn put_text(alloc: Global, texts: &Texts, number: usize, out: &mut Vec<u8>) -> M<()>
    requires number { number < length texts.now }
    requires text { text_fits (PoolConstant.Utf8 (text_of texts.now number)) ≡ Ok tt }
    ensures { OnOk result (out.new.items ≡ out.old.items
        ++ flat_map cp_info (canonical.info_of [] (PoolConstant.Utf8 (text_of texts.now number)))) }
{
    match texts.get(number) {
        Some(units) => put_utf8(alloc, units, out),
        None => Ok(()),
    }
}

/// CONSTANT_Utf8_info (JVMS 4.4.7).
fn put_utf8(alloc: Global, units: &Units, out: &mut Vec<u8>) -> M<()>
    requires { text_fits (PoolConstant.Utf8 units.now) ≡ Ok tt }
    ensures { OnOk result (out.new.items ≡ out.old.items
        ++ flat_map cp_info (canonical.info_of [] (PoolConstant.Utf8 units.now))) }
{
    let bytes = mutf8_of_units(alloc, units)?;
    put(out, &[1])?;
    put_u2(out, bytes.len() as u16)?;
    put(out, bytes.as_slice())
}

/// CONSTANT_Integer_info (JVMS 4.4.4).
fn put_integer(number: i32, out: &mut Vec<u8>) -> M<()>
    ensures { OnOk result (out.new.items ≡ out.old.items
        ++ flat_map cp_info (canonical.info_of [] (PoolConstant.Integer number))) }
{
    put(out, &[3])?;
    put_u4(out, number.cast_unsigned())
}

/// CONSTANT_Long_info (JVMS 4.4.5).
fn put_long(number: i64, out: &mut Vec<u8>) -> M<()>
    ensures { OnOk result (out.new.items ≡ out.old.items
        ++ flat_map cp_info (canonical.info_of [] (PoolConstant.Long number))) }
{
    let bits = number.cast_unsigned();
    put(out, &[5])?;
    put_u4(out, (bits / 0x1_0000_0000) as u32)?;
    put_u4(out, (bits % 0x1_0000_0000) as u32)
}

/// CONSTANT_Class_info and CONSTANT_String_info (JVMS 4.4.1, 4.4.3).
fn put_index(tag: u8, index: u16, out: &mut Vec<u8>) -> M<()>
    ensures { OnOk result (out.new.items ≡ out.old.items ++ tag ∷ to_be_bytes w16 index) }
{
    put(out, &[tag])?;
    put_u2(out, index)
}

/// CONSTANT_NameAndType_info, and a reference to a member (JVMS 4.4.2, 4.4.6).
fn put_indices(tag: u8, first: u16, second: u16, out: &mut Vec<u8>) -> M<()>
    ensures { OnOk result (out.new.items ≡ out.old.items ++ tag ∷ two_indices first second) }
{
    put(out, &[tag])?;
    put_u2(out, first)?;
    put_u2(out, second)
}

/// CONSTANT_Fieldref_info, CONSTANT_Methodref_info and CONSTANT_InterfaceMethodref_info (JVMS 4.4.2).
fn put_reference(
    texts: &Texts,
    keys: &Keys,
    tag: u8,
    class: usize,
    name_and_type: Key,
    out: &mut Vec<u8>,
) -> M<()>
    requires keys { AreKeysOf texts.now keys.now }
    requires count { length keys.now + 1 < 2 ^ 16 }
    requires class { class < length texts.now }
    requires name_and_type { IsKeyIn (length texts.now) name_and_type }
    ensures { OnOk result (out.new.items ≡ out.old.items ++ tag ∷ two_indices
        (canonical.index_of (constants_of texts.now keys.now) (PoolConstant.Class (text_of texts.now class)))
        (canonical.index_of (constants_of texts.now keys.now) (constant_of texts.now name_and_type))) }
{
    let class = told_index(texts, keys, Key::Class(class));
    put_indices(tag, class, told_index(texts, keys, name_and_type), out)
}
