// The methods that rows name.
ghost use Rattle.std.specs.Prelude.{◌<◌, IfOk, IfSome, length};

use class_model::{Class, Method};
use class_pool::{ClassId, ClassSet};
use jv_base::{Base, FieldType, Items, M, Name, Or, OutOfMemory, Text, method_text, read_external};
use run_heap::Key;
use set_program::is_startable;
use std::alloc::Global;

/// A static method, and the types of its parameters.
#[derive(Drop)]
pub struct Entry {
    pub key: Key,
    pub types: Items<FieldType>,
}

/// The method of a text `class.name(types)`; of several the first one of its class. None where the text is of another
/// form, or a run can't begin with such a method.
pub fn entry_of(alloc: Global, set: &ClassSet, text: &[u8]) -> M<Option<Entry>> {
    let Some((head, types)) = parts_of(text) else {
        return Ok(None);
    };
    let Some(types) = types_of(alloc, types)? else {
        return Ok(None);
    };
    let Some(at) = head.iter().rposition(|byte| *byte == b'.') else {
        return Ok(None);
    };
    match key_in(alloc, set, &head[..at], &head[at + 1..], &types)? {
        Some(key) => Ok(Some(Entry { key, types })),
        None => Ok(None),
    }
}

// What stands before and between the parentheses.
fn parts_of(text: &[u8]) -> Option<(&[u8], &[u8])> {
    let inner = text.strip_suffix(b")")?;
    let at = inner.iter().position(|byte| *byte == b'(')?;
    Some((&inner[..at], &inner[at + 1..]))
}

fn types_of(alloc: Global, text: &[u8]) -> M<Option<Items<FieldType>>> {
    let mut types = Items::new(alloc);
    if text.is_empty() {
        return Ok(Some(types));
    }
    for part in text.split(|byte| *byte == b',') {
        match type_of(alloc, part)? {
            Some(ty) => types.push(ty)?,
            None => return Ok(None),
        }
    }
    Ok(Some(types))
}

// The type that is spelled as Java source does.
fn type_of(alloc: Global, text: &[u8]) -> M<Option<FieldType>> {
    let Ok(text) = std::str::from_utf8(text) else {
        return Ok(None);
    };
    if text.len() >= u32::MAX as usize {
        return Ok(None);
    }
    match read_external(alloc, &Text::from_str(alloc, text)?) {
        Ok(ty) => Ok(Some(ty)),
        Err(Or::Fault(_)) => Ok(None),
        Err(Or::OutOfMemory) => Err(OutOfMemory),
    }
}

fn key_in(
    alloc: Global,
    set: &ClassSet,
    class: &[u8],
    name: &[u8],
    types: &Items<FieldType>,
) -> M<Option<Key>> {
    let Ok(name) = std::str::from_utf8(name) else {
        return Ok(None);
    };
    match class_of(alloc, set, class)? {
        Some(number) => key_of(alloc, set, number, name, types),
        None => Ok(None),
    }
}

// The number of the class of a name with dots.
fn class_of(alloc: Global, set: &ClassSet, text: &[u8]) -> M<Option<u32>>
    ensures { IfOk result (λ number. IfSome number (λ n. n < length set.now)) }
{
    match type_of(alloc, text)? {
        Some(
            FieldType {
                dims: 0,
                base: Base::Class(name),
            },
        ) => Ok(number_of(set, &name)),
        _ => Ok(None),
    }
}

fn number_of(set: &ClassSet, name: &Name) -> Option<u32>
    ensures { IfSome result (λ n. n < length set.now) }
{
    match set.find(name) {
        Some(ClassId::Prog(number)) => Some(number),
        _ => None,
    }
}

fn key_of(
    alloc: Global,
    set: &ClassSet,
    number: u32,
    name: &str,
    types: &Items<FieldType>,
) -> M<Option<Key>>
    requires { number < length set.now }
{
    let class = set.class(number);
    for method in class.methods.as_slice() {
        if method.name.as_str() == name && method.ty.args == *types {
            let key = method_key(alloc, class, method)?;
            if is_startable(alloc, set, &key)? {
                return Ok(Some(key));
            }
        }
    }
    Ok(None)
}

fn method_key(alloc: Global, class: &Class, method: &Method) -> M<Key> {
    let descriptor = method_text(alloc, &method.ty)?;
    let name = method.name.clone()?;
    Ok(Key::new(class.name.clone()?, name, descriptor))
}
