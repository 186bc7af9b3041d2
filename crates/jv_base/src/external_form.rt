// Types as Java source spells them.
ghost use Rattle.std.specs.Prelude.{◌≡◌, ℕ, ◌+◌, ◌<◌, ◌++◌, List, map, take, length, slice_index, IfOk, OnOk, Ok};
ghost use Rattle.std.specs.Prelude.{string_bytes, codes};
ghost use Rattle.std.specs.List.{repeat};
ghost use Rattle.std.specs.Str.{IsCharBoundary};
ghost use Rattle.jv_base.specs.External.{external_byte, external_end, external_text};
ghost use Rattle.jv_base.specs.bodies.External.{external_at, external_next_at};
ghost use Rattle.jv_base.specs.External.{keyword_base, read_external, slashed, SpellsExternal};
ghost use Rattle.jv_base.specs.bodies.External.{HasRoom, NextHasRoom};
ghost use Rattle.jv_base.specs.External.{swapped, word_base, word_byte, word_opened, word_text, word_whole};
ghost use Rattle.jv_base.specs.bodies.External.{word_read};
ghost use Rattle.jv_base.specs.Longest.{IfFault, IsLongest};
ghost use Rattle.jv_base.specs.Outcome.{IsDue};
ghost use Rattle.jv_base.specs.Types.{IsFieldType};

use crate::descriptors::bad_descriptor;
use crate::names::part_after;
use crate::{BadDescriptor, Base, FieldType, M, Or, Text, is_class_name};
use std::alloc::Global;

/// The spelling of a type in Java source, as `java.lang.String[]`.
#[tactic(auto, unfolding(crate::specs::External::external_text))]
pub fn external(alloc: Global, ty: &FieldType) -> M<Text>
    ensures written { IfOk result (λ text. text ≡ external_text ty.now) }
    ensures read_back { IsFieldType ty.now → IfOk result (λ text. read_external text ≡ Ok ty.now) }
{
    let mut text = String::new(alloc);
    push_word(alloc, &mut text, &ty.base)?;
    push_dimensions(&mut text, ty.dims)?;
    Ok(Text::from_string(alloc, text)?)
}

/// The type that a text spells as Java source does: a class name with dots, or the word of a base type, and then
/// at most 255 times `[]`.
pub fn read_external(alloc: Global, text: &Text) -> Result<FieldType, Or<BadDescriptor>>
    requires { length text.now < 4294967295 }
    ensures found { IfOk result (λ ty. SpellsExternal text.now ty) }
    ensures only { (ty : FieldType) → SpellsExternal text.now ty → IsDue result (Ok ty) }
    ensures longest { IfFault result (λ e. IsLongest SpellsExternal text.now e.place) }
    ensures exact { IsDue result (read_external text.now) }
{
    external_read(alloc, text.as_str())
}

#[tactic(auto, unfolding(crate::specs::External::word_text))]
fn push_word(alloc: Global, text: &mut String, base: &Base) -> M<()>
    ensures { OnOk result (string_bytes text.new ≡ string_bytes text.old ++ word_text base.now) }
{
    let word = match base {
        Base::Boolean => "boolean",
        Base::Byte => "byte",
        Base::Char => "char",
        Base::Short => "short",
        Base::Int => "int",
        Base::Long => "long",
        Base::Float => "float",
        Base::Double => "double",
        Base::Class(name) => {
            let dotted = with_swapped(alloc, name.as_str(), '/', '.')?;
            text.push_str(dotted.as_str())?;
            return Ok(());
        }
    };
    text.push_str(word)?;
    Ok(())
}

fn push_dimensions(text: &mut String, count: u8) -> M<()>
    ensures { OnOk result (string_bytes text.new ≡ string_bytes text.old ++ repeat count (codes "[]")) }
{
    for _ in 0..count {
        text.push_str("[]")?;
    }
    Ok(())
}

/// A text with one ASCII character in place of another.
fn with_swapped(alloc: Global, text: &str, from: char, to: char) -> M<String>
    requires from { from < 128 }
    requires to { to < 128 }
    ensures { IfOk result (λ made. string_bytes made ≡ map (swapped from to) text.now) }
{
    let mut made = String::new(alloc);
    for c in text.chars() {
        made.push(swapped(from, to, c))?;
    }
    Ok(made)
}

fn swapped(from: char, to: char, c: char) -> char
    ensures { result ≡ swapped from to c }
{
    if c == from { to } else { c }
}

/// What was read of a type's spelling.
#[derive(Drop)]
enum ExternalRead {
    /// A part of the first word. The last part of a class name may be begun.
    Word { in_part: bool },
    /// A `[` behind so many times `[]`.
    Opened { dims: u8, base: Base },
    /// So many times `[]`.
    Closed { dims: u8, base: Base },
}

#[tactic(auto, unfolding(crate::specs::External::external_byte))]
fn external_step(
    alloc: Global,
    text: &str,
    at: usize,
    read: ExternalRead,
    byte: u8,
) -> M<Option<ExternalRead>>
    requires within { at < length text.now }
    requires byte { slice_index text.now at ≡ byte }
    requires room { HasRoom read }
    ensures read { IfOk result (λ next. external_next_at text.now (at + 1) next
        ≡ external_byte (external_at text.now at read) byte) }
    ensures room { IfOk result NextHasRoom }
{
    match read {
        ExternalRead::Word { in_part } => word_step(alloc, text, at, in_part, byte),
        ExternalRead::Opened { dims, base } if byte == b']' => Ok(Some(ExternalRead::Closed {
            dims: dims + 1,
            base,
        })),
        ExternalRead::Opened { .. } => Ok(None),
        ExternalRead::Closed { dims, base } if byte == b'[' && dims < 255 => Ok(Some(
            ExternalRead::Opened { dims, base },
        )),
        ExternalRead::Closed { .. } => Ok(None),
    }
}

fn word_step(
    alloc: Global,
    text: &str,
    at: usize,
    in_part: bool,
    byte: u8,
) -> M<Option<ExternalRead>>
    requires within { at < length text.now }
    requires byte { slice_index text.now at ≡ byte }
    ensures read { IfOk result (λ next. external_next_at text.now (at + 1) next
        ≡ word_byte (slashed (take at text.now)) in_part byte) }
    ensures room { IfOk result NextHasRoom }
{
    match byte {
        b'[' => {
            let base = word_base(alloc, text, at)?;
            Ok(word_opened(base))
        }
        b'/' => Ok(None),
        b'.' => Ok(word_read(part_after(in_part, b'/'))),
        _ => Ok(word_read(part_after(in_part, byte))),
    }
}

fn word_opened(base: Option<Base>) -> Option<ExternalRead>
    ensures read { (text : List ℕ) (at : ℕ) → external_next_at text at result ≡ word_opened base }
    ensures room { NextHasRoom result }
{
    let base = base?;
    Some(ExternalRead::Opened { dims: 0, base })
}

fn word_read(in_part: Option<bool>) -> Option<ExternalRead>
    ensures read { result ≡ word_read in_part }
    ensures room { NextHasRoom result }
{
    let in_part = in_part?;
    Some(ExternalRead::Word { in_part })
}

/// The base type that the text before a place spells.
#[tactic(auto, unfolding(crate::specs::External::word_base))]
fn word_base(alloc: Global, text: &str, to: usize) -> M<Option<Base>>
    requires { IsCharBoundary text.now to }
    ensures { IfOk result (λ base. base ≡ word_base (slashed (take to text.now))) }
{
    let word = with_swapped(alloc, &text[..to], '.', '/')?;
    if let Some(base) = keyword_base(word.as_str()) {
        return Ok(Some(base));
    }
    if is_class_name(word.as_str()) {
        Ok(Some(Base::Class(Text::from_string(alloc, word)?)))
    } else {
        Ok(None)
    }
}

#[tactic(auto, unfolding(crate::specs::External::keyword_base))]
fn keyword_base(word: &str) -> Option<Base>
    ensures { result ≡ keyword_base word.now }
{
    match word {
        "boolean" => Some(Base::Boolean),
        "byte" => Some(Base::Byte),
        "char" => Some(Base::Char),
        "short" => Some(Base::Short),
        "int" => Some(Base::Int),
        "long" => Some(Base::Long),
        "float" => Some(Base::Float),
        "double" => Some(Base::Double),
        _ => None,
    }
}

fn external_read(alloc: Global, text: &str) -> Result<FieldType, Or<BadDescriptor>>
    requires { length text.now < 4294967295 }
    ensures { IsDue result (read_external text.now) }
{
    let mut read = ExternalRead::Word { in_part: false };
    for (at, byte) in text.as_bytes().iter().enumerate() {
        let Some(next) = external_step(alloc, text, at, read, *byte)? else {
            return Err(bad_descriptor(at));
        };
        read = next;
    }
    let Some(ty) = external_end(alloc, text, read)? else {
        return Err(bad_descriptor(text.len()));
    };
    Ok(ty)
}

#[tactic(auto, unfolding(crate::specs::External::external_end))]
fn external_end(alloc: Global, text: &str, read: ExternalRead) -> M<Option<FieldType>>
    ensures { IfOk result (λ ty. ty ≡ external_end (external_at text.now (length text.now) read)) }
{
    match read {
        ExternalRead::Word { .. } => {
            let base = word_base(alloc, text, text.len())?;
            Ok(word_whole(base))
        }
        ExternalRead::Opened { .. } => Ok(None),
        ExternalRead::Closed { dims, base } => Ok(Some(FieldType { dims, base })),
    }
}

fn word_whole(base: Option<Base>) -> Option<FieldType>
    ensures { result ≡ word_whole base }
{
    let base = base?;
    Some(FieldType { dims: 0, base })
}
