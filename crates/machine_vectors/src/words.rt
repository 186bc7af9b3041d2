// The words that an entry is given.
use class_run::Arg;
use jv_base::{Base, FieldType, Items, M, Text, Units, units_of_text};
use std::alloc::Global;

/// The arguments that words stand for, by the types of the parameters; each word ends with LF. None where they are
/// others than the parameters take.
pub fn args_of(alloc: Global, types: &Items<FieldType>, text: &[u8]) -> M<Option<Vec<Arg>>> {
    let mut args = Vec::new(alloc);
    let mut rest = text;
    for ty in types.as_slice() {
        match next_arg(alloc, ty, &mut rest)? {
            Some(arg) => args.push(arg)?,
            None => return Ok(None),
        }
    }
    if rest.is_empty() {
        Ok(Some(args))
    } else {
        Ok(None)
    }
}

// The argument of a parameter, which is taken off the words.
fn next_arg(alloc: Global, ty: &FieldType, rest: &mut &[u8]) -> M<Option<Arg>> {
    match (ty.dims, &ty.base) {
        (1, Base::Class(_)) => texts_arg(alloc, rest),
        (0, base) => match next_word(rest) {
            Some(word) => word_arg(alloc, base, word),
            None => Ok(None),
        },
        _ => Ok(None),
    }
}

fn next_word<'a>(rest: &mut &'a [u8]) -> Option<&'a str> {
    let text: &'a [u8] = *rest;
    let at = text.iter().position(|byte| *byte == b'\n')?;
    *rest = &text[at + 1..];
    std::str::from_utf8(&text[..at]).ok()
}

fn word_arg(alloc: Global, base: &Base, word: &str) -> M<Option<Arg>> {
    match base {
        Base::Class(_) => Ok(Some(Arg::Text(units_of(alloc, word)?))),
        Base::Long => Ok(long_arg(word)),
        Base::Boolean => Ok(truth_arg(word)),
        _ => Ok(int_arg(word)),
    }
}

fn int_arg(word: &str) -> Option<Arg> {
    Some(Arg::Int(word.parse::<i32>().ok()?))
}

fn long_arg(word: &str) -> Option<Arg> {
    Some(Arg::Long(word.parse::<i64>().ok()?))
}

fn truth_arg(word: &str) -> Option<Arg> {
    match word {
        "true" => Some(Arg::Int(1)),
        "false" => Some(Arg::Int(0)),
        _ => None,
    }
}

// All words that are left.
fn texts_arg(alloc: Global, rest: &mut &[u8]) -> M<Option<Arg>> {
    let mut texts = Items::new(alloc);
    for _ in 0..rest.len() {
        if rest.is_empty() {
            break;
        }
        match next_word(rest) {
            Some(word) => texts.push(units_of(alloc, word)?)?,
            None => return Ok(None),
        }
    }
    Ok(Some(Arg::Texts(texts)))
}

fn units_of(alloc: Global, word: &str) -> M<Units> {
    units_of_text(alloc, &Text::from_str(alloc, word)?)
}
