// What is told of a member (JVMS 4.5, 4.6).
ghost use Rattle.std.specs.Prelude.{◌≡◌, ◌<◌, ◌+◌, ◌++◌, IfOk, IfSome, None, Option, length, map, option_copied};
ghost use Rattle.std.specs.Prelude.{slice_get};
ghost use Rattle.std.specs.Option.{option_and_then, option_map};
ghost use Rattle.class_model.specs.declared.class.Constant.{Constant};
ghost use Rattle.class_model.specs.declared.code.Code.{Code};
ghost use Rattle.class_pool.specs.Found.{IsMember, named_at};
ghost use Rattle.set_view.specs.ViewOf.{code_at, constant_at, key_at, member_of, value_of};

use crate::names::class_name;
use class_model::{Class, Code, Constant};
use class_pool::{ClassId, ClassSet, MemberAt};
use jv_base::{M, Name, Text};
use run_heap::Key;
use run_values::Value;
use std::alloc::Global;

/// The class, the name and the descriptor of a member that has these.
pub(crate) fn key_at(
    alloc: Global,
    set: &ClassSet,
    m: &MemberAt,
    name: &Name,
    descriptor: &Text,
) -> M<Key>
    requires there { IsMember set.now m.now }
    requires named { named_at set.now m.now ≡ (name.now, descriptor.now) }
    ensures { IfOk result (λ key. key ≡ key_at set.now m.now) }
{
    let class = class_name(alloc, set, m.class)?;
    let name = name.clone()?;
    let descriptor = descriptor.clone()?;
    Ok(Key::new(class, name, descriptor))
}

/// The member with a name.
pub fn member_of(set: &ClassSet, key: &Key) -> Option<MemberAt>
    ensures is { result ≡ member_of set.now key.now }
    ensures there { IfSome result (IsMember set.now) }
{
    match set.find(key.class()) {
        Some(class) => set.declared_in(class, key.name(), key.descriptor()),
        None => None,
    }
}

/// The value of the attribute ConstantValue of a field, if it has one.
pub fn constant(set: &ClassSet, key: &Key) -> M<Option<Value>>
    ensures { IfOk result (λ value. value ≡ option_map value_of
        (option_and_then (constant_at set.now) (member_of set.now key.now))) }
{
    match member_of(set, key) {
        Some(m) => constant_at(set, &m),
        None => Ok(None),
    }
}

fn constant_at(set: &ClassSet, m: &MemberAt) -> M<Option<Value>>
    requires { IsMember set.now m.now }
    ensures { IfOk result (λ value. value ≡ option_map value_of (constant_at set.now m.now)) }
{
    match m.class {
        ClassId::Prog(number) => constant_in(set.class(number), m.index),
        ClassId::Lib(_) => Ok(None),
    }
}

fn constant_in(class: &Class, index: u32) -> M<Option<Value>>
    requires { index < length class.now.fields + length class.now.methods }
    ensures { IfOk result (λ value. value ≡ option_map value_of (option_and_then (λ (x : Option Constant). x)
        (slice_get (map (λ f. f.constant) class.now.fields ++ map (λ m. None) class.now.methods) index))) }
{
    let index = index as usize;
    if index < class.fields.len() {
        value_of(&class.fields[index].constant)
    } else {
        Ok(None)
    }
}

fn value_of(constant: &Option<Constant>) -> M<Option<Value>>
    ensures { IfOk result (λ value. value ≡ option_map value_of constant.now) }
{
    match constant {
        Some(Constant::Int(number)) => Ok(Some(Value::int(*number))),
        Some(Constant::Long(number)) => Ok(Some(Value::long(*number))),
        Some(Constant::Text(units)) => Ok(Some(Value::literal(units.clone()?))),
        None => Ok(None),
    }
}

/// The code of a method, if it has one.
pub fn code<'a>(set: &'a ClassSet, key: &Key) -> Option<&'a Code>
    ensures { option_copied result ≡ option_and_then (code_at set.now) (member_of set.now key.now) }
{
    match member_of(set, key) {
        Some(m) => code_at(set, &m),
        None => None,
    }
}

pub fn code_at<'a>(set: &'a ClassSet, m: &MemberAt) -> Option<&'a Code>
    requires { IsMember set.now m.now }
    ensures { option_copied result ≡ code_at set.now m.now }
{
    match m.class {
        ClassId::Prog(number) => code_in(set.class(number), m.index),
        ClassId::Lib(_) => None,
    }
}

fn code_in(class: &Class, index: u32) -> Option<&Code>
    requires { index < length class.now.fields + length class.now.methods }
    ensures { option_copied result ≡ option_and_then (λ (x : Option Code). x)
        (slice_get (map (λ f. None) class.now.fields ++ map (λ m. m.code) class.now.methods) index) }
{
    let index = index as usize;
    let fields = class.fields.len();
    if index < fields {
        None
    } else {
        class.methods[index - fields].code.as_ref()
    }
}
