// Constants that are put into a table, each with its parts in front of it (JVMS 4.4).
ghost use Rattle.std.specs.Prelude.{◌≡◌, ℕ, [], ◌∷◌, ◌++◌, length, map, IfOk, OnOk, is_ok, if◌then◌else◌};
ghost use Rattle.std.specs.List.{AllByRecursion};
ghost use Rattle.indexmap.specs.IndexSet.{insert_key, insert_all};
ghost use Rattle.jv_base.specs.Utf16.{units_of};
ghost use Rattle.class_model.specs.declared.constant.PoolConstant.{PoolConstant};
ghost use Rattle.class_model.specs.CanonicalPool as canonical;
ghost use Rattle.constant_table.specs.bodies.Keys.{AreKeysOf, IsKeyIn, constant_of, constants_of};
ghost use Rattle.constant_table.specs.bodies.Texts.{HasText, Grows};
ghost use Rattle.constant_table.specs.bodies.Members.{TellsTexts, Tells, part_keys};

use crate::finding::{MemberNumbers, method_key};
use crate::key::Key;
use crate::keys::Keys;
use crate::texts::Texts;
use class_model::{MemberRef, PoolConstant};
use jv_base::{Base, FieldType, M, Name, Text, Units, field_text};
use std::alloc::Global;

// ---- keys

fn put_key(texts: &Texts, keys: &mut Keys, key: Key) -> M<()>
    requires keys { AreKeysOf texts.now keys.old }
    requires key { IsKeyIn (length texts.now) key }
    ensures kept { AreKeysOf texts.now keys.new }
    ensures put { OnOk result (constants_of texts.now keys.new
        ≡ insert_key canonical.same (constants_of texts.now keys.old) (constant_of texts.now key)) }
{
    keys.add(key)
}

// The constants that these keys tell, each unless it is there.
fn put_keys(texts: &Texts, keys: &mut Keys, wanted: &[Key]) -> M<()>
    requires keys { AreKeysOf texts.now keys.old }
    requires wanted { AllByRecursion (IsKeyIn (length texts.now)) wanted.now }
    ensures kept { AreKeysOf texts.now keys.new }
    ensures put { OnOk result (constants_of texts.now keys.new
        ≡ insert_all canonical.same (constants_of texts.now keys.old) (map (constant_of texts.now) wanted.now)) }
{
    for key in wanted {
        put_key(texts, keys, *key)?;
    }
    Ok(())
}

// ---- texts and classes

pub fn put_text(alloc: Global, texts: &mut Texts, keys: &mut Keys, text: &Text) -> M<()>
    requires { AreKeysOf texts.old keys.old }
    ensures kept { AreKeysOf texts.new keys.new }
    ensures put { OnOk result (constants_of texts.new keys.new
        ≡ insert_all canonical.same (constants_of texts.old keys.old) (canonical.text_constants text.now)) }
{
    let number = texts.keep_text(alloc, text)?;
    put_keys(texts, keys, &[Key::Utf8(number)])
}

pub fn put_units(alloc: Global, texts: &mut Texts, keys: &mut Keys, units: &Units) -> M<()>
    requires { AreKeysOf texts.old keys.old }
    ensures kept { AreKeysOf texts.new keys.new }
    ensures put { OnOk result (constants_of texts.new keys.new
        ≡ insert_key canonical.same (constants_of texts.old keys.old) (PoolConstant.Utf8 units.now)) }
{
    let number = texts.keep_units(alloc, units)?;
    put_keys(texts, keys, &[Key::Utf8(number)])
}

pub fn put_class(alloc: Global, texts: &mut Texts, keys: &mut Keys, name: &Name) -> M<()>
    requires { AreKeysOf texts.old keys.old }
    ensures kept { AreKeysOf texts.new keys.new }
    ensures put { OnOk result (constants_of texts.new keys.new
        ≡ insert_all canonical.same (constants_of texts.old keys.old) (canonical.class_constants name.now)) }
{
    let number = texts.keep_text(alloc, name)?;
    put_keys(texts, keys, &[Key::Utf8(number), Key::Class(number)])
}

// The number of the name of a class, of the descriptor of an array type (JVMS 4.4.1).
fn keep_type(alloc: Global, texts: &mut Texts, ty: &FieldType) -> M<usize>
    ensures grows { Grows texts.old texts.new }
    ensures text { IfOk result (λ n. HasText texts.new n (units_of (canonical.type_name ty.now))) }
{
    match &ty.base {
        Base::Class(name) if ty.dims == 0 => texts.keep_text(alloc, name),
        _ => texts.keep_text(alloc, &field_text(alloc, ty)?),
    }
}

pub fn put_type(alloc: Global, texts: &mut Texts, keys: &mut Keys, ty: &FieldType) -> M<()>
    requires { AreKeysOf texts.old keys.old }
    ensures kept { AreKeysOf texts.new keys.new }
    ensures put { OnOk result (constants_of texts.new keys.new
        ≡ insert_all canonical.same (constants_of texts.old keys.old)
        (canonical.class_constants (canonical.type_name ty.now))) }
{
    let number = keep_type(alloc, texts, ty)?;
    put_keys(texts, keys, &[Key::Utf8(number), Key::Class(number)])
}

// ---- values

pub fn put_string(alloc: Global, texts: &mut Texts, keys: &mut Keys, units: &Units) -> M<()>
    requires { AreKeysOf texts.old keys.old }
    ensures kept { AreKeysOf texts.new keys.new }
    ensures put { OnOk result (constants_of texts.new keys.new
        ≡ insert_all canonical.same (constants_of texts.old keys.old) (canonical.string_constants units.now)) }
{
    let number = texts.keep_units(alloc, units)?;
    put_keys(texts, keys, &[Key::Utf8(number), Key::Str(number)])
}

pub fn put_int(texts: &Texts, keys: &mut Keys, number: i32) -> M<()>
    requires { AreKeysOf texts.now keys.old }
    ensures kept { AreKeysOf texts.now keys.new }
    ensures put { OnOk result (constants_of texts.now keys.new
        ≡ insert_all canonical.same (constants_of texts.now keys.old) (PoolConstant.Integer number ∷ [])) }
{
    put_keys(texts, keys, &[Key::Integer(number)])
}

pub fn put_long(texts: &Texts, keys: &mut Keys, number: i64) -> M<()>
    requires { AreKeysOf texts.now keys.old }
    ensures kept { AreKeysOf texts.now keys.new }
    ensures put { OnOk result (constants_of texts.now keys.new
        ≡ insert_all canonical.same (constants_of texts.now keys.old) (canonical.long_constants number)) }
{
    put_keys(texts, keys, &[Key::Long(number), Key::SecondOfLong(number)])
}

// ---- references

fn keep_member(alloc: Global, texts: &mut Texts, member: &MemberRef) -> M<MemberNumbers>
    ensures grows { Grows texts.old texts.new }
    ensures texts { IfOk result (λ m. TellsTexts texts.new m (units_of (canonical.type_name member.now.class))
        (units_of member.now.name) (units_of member.now.ty)) }
{
    let class = keep_type(alloc, texts, &member.class)?;
    let name = texts.keep_text(alloc, &member.name)?;
    let descriptor = texts.keep_text(alloc, &member.ty)?;
    Ok(MemberNumbers {
        class,
        name,
        descriptor,
    })
}

// The constant that a key tells, behind the class and the name and type of a member.
fn put_member(texts: &Texts, keys: &mut Keys, m: MemberNumbers, key: Key) -> M<()>
    requires keys { AreKeysOf texts.now keys.old }
    requires member { AllByRecursion (IsKeyIn (length texts.now)) (part_keys m) }
    requires key { IsKeyIn (length texts.now) key }
    ensures kept { AreKeysOf texts.now keys.new }
    ensures put { OnOk result (constants_of texts.now keys.new
        ≡ insert_all canonical.same (constants_of texts.now keys.old)
        (map (constant_of texts.now) (part_keys m ++ key ∷ []))) }
{
    let wanted = [
        Key::Utf8(m.class),
        Key::Class(m.class),
        Key::Utf8(m.name),
        Key::Utf8(m.descriptor),
        Key::NameAndType(m.name, m.descriptor),
        key,
    ];
    put_keys(texts, keys, &wanted)
}

pub fn put_field(alloc: Global, texts: &mut Texts, keys: &mut Keys, field: &MemberRef) -> M<()>
    requires { AreKeysOf texts.old keys.old }
    ensures kept { AreKeysOf texts.new keys.new }
    ensures put { OnOk result (constants_of texts.new keys.new
        ≡ insert_all canonical.same (constants_of texts.old keys.old)
        (canonical.with_parts field.now (canonical.fieldref field.now))) }
{
    let m = keep_member(alloc, texts, field)?;
    put_member(texts, keys, m, Key::Fieldref(m.class, m.name, m.descriptor))
}

pub fn put_method(alloc: Global, texts: &mut Texts, keys: &mut Keys, method: &MemberRef) -> M<()>
    requires { AreKeysOf texts.old keys.old }
    ensures kept { AreKeysOf texts.new keys.new }
    ensures put { OnOk result (constants_of texts.new keys.new
        ≡ insert_all canonical.same (constants_of texts.old keys.old)
        (canonical.with_parts method.now (canonical.methodref method.now))) }
{
    let m = keep_member(alloc, texts, method)?;
    put_member(texts, keys, m, method_key(m, method.of_interface))
}

// ---- a constant, whether or not it is there

fn keep_pair(alloc: Global, texts: &mut Texts, one: &Units, other: &Units) -> M<(usize, usize)>
    ensures grows { Grows texts.old texts.new }
    ensures texts { IfOk result (λ n. HasText texts.new n.0 one.now × HasText texts.new n.1 other.now) }
{
    let first = texts.keep_units(alloc, one)?;
    let second = texts.keep_units(alloc, other)?;
    Ok((first, second))
}

fn keep_texts(
    alloc: Global,
    texts: &mut Texts,
    class: &Units,
    name: &Units,
    descriptor: &Units,
) -> M<MemberNumbers>
    ensures grows { Grows texts.old texts.new }
    ensures texts { IfOk result (λ m. TellsTexts texts.new m class.now name.now descriptor.now) }
{
    let class = texts.keep_units(alloc, class)?;
    let (name, descriptor) = keep_pair(alloc, texts, name, descriptor)?;
    Ok(MemberNumbers {
        class,
        name,
        descriptor,
    })
}

// The key that tells a constant.
fn keep_constant(alloc: Global, texts: &mut Texts, constant: &PoolConstant) -> M<Key>
    ensures grows { Grows texts.old texts.new }
    ensures key { IfOk result (λ key. Tells texts.new key constant.now) }
{
    match constant {
        PoolConstant::Utf8(text) => Ok(Key::Utf8(texts.keep_units(alloc, text)?)),
        PoolConstant::Integer(number) => Ok(Key::Integer(*number)),
        PoolConstant::Long(number) => Ok(Key::Long(*number)),
        PoolConstant::SecondOfLong(number) => Ok(Key::SecondOfLong(*number)),
        PoolConstant::Class(name) => Ok(Key::Class(texts.keep_units(alloc, name)?)),
        PoolConstant::Str(text) => Ok(Key::Str(texts.keep_units(alloc, text)?)),
        PoolConstant::NameAndType { name, descriptor } => {
            let (name, descriptor) = keep_pair(alloc, texts, name, descriptor)?;
            Ok(Key::NameAndType(name, descriptor))
        }
        PoolConstant::Fieldref {
            class,
            name,
            descriptor,
        } => {
            let m = keep_texts(alloc, texts, class, name, descriptor)?;
            Ok(Key::Fieldref(m.class, m.name, m.descriptor))
        }
        PoolConstant::Methodref {
            class,
            name,
            descriptor,
        } => {
            let m = keep_texts(alloc, texts, class, name, descriptor)?;
            Ok(Key::Methodref(m.class, m.name, m.descriptor))
        }
        PoolConstant::InterfaceMethodref {
            class,
            name,
            descriptor,
        } => {
            let m = keep_texts(alloc, texts, class, name, descriptor)?;
            Ok(Key::InterfaceMethodref(m.class, m.name, m.descriptor))
        }
    }
}

// The constant that a key tells, behind the others.
fn push_key(texts: &Texts, keys: &mut Keys, key: Key) -> M<()>
    requires keys { AreKeysOf texts.now keys.old }
    requires key { IsKeyIn (length texts.now) key }
    ensures kept { AreKeysOf texts.now keys.new }
    ensures put { constants_of texts.now keys.new
        ≡ (if is_ok result then constants_of texts.now keys.old ++ constant_of texts.now key
        ∷ [] else constants_of texts.now keys.old) }
{
    keys.push(key)
}

pub fn put_constant(
    alloc: Global,
    texts: &mut Texts,
    keys: &mut Keys,
    constant: &PoolConstant,
) -> M<()>
    requires { AreKeysOf texts.old keys.old }
    ensures kept { AreKeysOf texts.new keys.new }
    ensures put { constants_of texts.new keys.new
        ≡ (if is_ok result then constants_of texts.old keys.old ++ constant.now
        ∷ [] else constants_of texts.old keys.old) }
{
    match keep_constant(alloc, texts, constant) {
        Ok(key) => push_key(texts, keys, key),
        Err(error) => Err(error),
    }
}
