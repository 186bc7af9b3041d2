// Descriptors of fields and methods (JVMS 4.3).
ghost use Rattle.std.specs.Prelude.{◌≡◌, ℕ, ◌+◌, ◌≤◌, ◌<◌, List, [], length, slice_index, slice_range, codes};
ghost use Rattle.std.specs.Prelude.{replicate};
ghost use Rattle.std.specs.Prelude.{IfOk, OnOk, Ok, Some, None, ◌++◌, if◌then◌else◌, string_bytes};
ghost use Rattle.std.specs.List.{flat_map};
ghost use Rattle.std.specs.Str.{IsCharBoundary};
ghost use Rattle.jv_base.specs.bodies.DescriptorPlaces.{AreCounted, begun_at, class_whole, field_at, field_of};
ghost use Rattle.jv_base.specs.bodies.DescriptorPlaces.{field_read_at};
ghost use Rattle.jv_base.specs.bodies.DescriptorPlaces.{grown_at, IsFieldPlaced, IsFieldReadPlaced, IsGrownPlaced};
ghost use Rattle.jv_base.specs.bodies.DescriptorPlaces.{IsMethodNextPlaced, IsMethodPlaced, IsPlaced, method_next_at};
ghost use Rattle.jv_base.specs.bodies.DescriptorPlaces.{method_read_at, more_of};
ghost use Rattle.jv_base.specs.Descriptors.{before, brackets, field_byte, grown, is_fresh, letter_base, method_byte};
ghost use Rattle.jv_base.specs.Descriptors.{parameter_byte, parameter_on, read_field, read_method, returned_byte};
ghost use Rattle.jv_base.specs.Descriptors.{returned_on, SpellsField, SpellsMethod, whole};
ghost use Rattle.jv_base.specs.Longest.{IfFault, IsLongest};
ghost use Rattle.jv_base.specs.Names.{is_class_name};
ghost use Rattle.jv_base.specs.Outcome.{IsDue};
ghost use Rattle.jv_base.specs.Types.{base_text, field_text, IsFieldType, IsMethodType, method_text, result_text};

use crate::arguments::words_of;
use crate::names::part_after;
use crate::{Base, FieldType, Items, M, MethodType, Name, Or, Text, is_class_name};
use std::alloc::Global;

/// The text is no descriptor. The place is the length in bytes of its longest prefix that is a prefix of one.
#[derive(Clone, Copy, Debug, PartialEq, Eq)]
pub struct BadDescriptor {
    pub place: u32,
}

/// The type that a field descriptor stands for (JVMS 4.3.2), with a class name as `is_class_name` has it and at
/// most 255 dimensions.
pub fn read_field_type(alloc: Global, text: &Text) -> Result<FieldType, Or<BadDescriptor>>
    requires { length text.now < 4294967295 }
    ensures found { IfOk result (λ ty. SpellsField text.now ty) }
    ensures only { (ty : FieldType) → SpellsField text.now ty → IsDue result (Ok ty) }
    ensures longest { IfFault result (λ e. IsLongest SpellsField text.now e.place) }
    ensures exact { IsDue result (read_field text.now) }
{
    field_read(alloc, text.as_str())
}

/// The type that a method descriptor stands for (JVMS 4.3.3). The arguments take at most 255 words, without the
/// one for `this`.
pub fn read_method_type(alloc: Global, text: &Text) -> Result<MethodType, Or<BadDescriptor>>
    requires { length text.now < 4294967295 }
    ensures found { IfOk result (λ ty. SpellsMethod text.now ty) }
    ensures only { (ty : MethodType) → SpellsMethod text.now ty → IsDue result (Ok ty) }
    ensures longest { IfFault result (λ e. IsLongest SpellsMethod text.now e.place) }
    ensures exact { IsDue result (read_method text.now) }
{
    method_read(alloc, text.as_str())
}

/// The descriptor of a field type (JVMS 4.3.2).
pub fn field_text(alloc: Global, ty: &FieldType) -> M<Text>
    ensures written { IfOk result (λ text. text ≡ field_text ty.now) }
    ensures read_back { IsFieldType ty.now → IfOk result (λ text. read_field text ≡ Ok ty.now) }
{
    let mut text = String::new(alloc);
    push_field(&mut text, ty)?;
    Ok(Text::from_string(alloc, text)?)
}

/// The descriptor of a method type (JVMS 4.3.3).
pub fn method_text(alloc: Global, ty: &MethodType) -> M<Text>
    ensures written { IfOk result (λ text. text ≡ method_text ty.now) }
    ensures read_back { IsMethodType ty.now → IfOk result (λ text. read_method text ≡ Ok ty.now) }
{
    let mut text = String::new(alloc);
    text.push_str("(")?;
    push_parameters(&mut text, ty.args.as_slice())?;
    text.push_str(")")?;
    push_result(&mut text, &ty.ret)?;
    Ok(Text::from_string(alloc, text)?)
}

#[tactic(auto, unfolding(crate::specs::Types::result_text))]
fn push_result(text: &mut String, ret: &Option<FieldType>) -> M<()>
    ensures { OnOk result (string_bytes text.new ≡ string_bytes text.old ++ result_text ret.now) }
{
    match ret {
        Some(ty) => push_field(text, ty),
        None => {
            text.push_str("V")?;
            Ok(())
        }
    }
}

fn push_parameters(text: &mut String, types: &[FieldType]) -> M<()>
    ensures { OnOk result (string_bytes text.new ≡ string_bytes text.old ++ flat_map field_text types.now) }
{
    for ty in types {
        push_field(text, ty)?;
    }
    Ok(())
}

#[tactic(auto, unfolding(crate::specs::Types::field_text))]
fn push_field(text: &mut String, ty: &FieldType) -> M<()>
    ensures { OnOk result (string_bytes text.new ≡ string_bytes text.old ++ field_text ty.now) }
{
    push_brackets(text, ty.dims)?;
    push_base(text, &ty.base)?;
    Ok(())
}

fn push_brackets(text: &mut String, count: u8) -> M<()>
    ensures { OnOk result (string_bytes text.new ≡ string_bytes text.old ++ replicate count 91) }
{
    for _ in 0..count {
        text.push_str("[")?;
    }
    Ok(())
}

#[tactic(auto, unfolding(crate::specs::Types::base_text))]
fn push_base(text: &mut String, base: &Base) -> M<()>
    ensures { OnOk result (string_bytes text.new ≡ string_bytes text.old ++ base_text base.now) }
{
    let letter = match base {
        Base::Boolean => "Z",
        Base::Byte => "B",
        Base::Char => "C",
        Base::Short => "S",
        Base::Int => "I",
        Base::Long => "J",
        Base::Float => "F",
        Base::Double => "D",
        Base::Class(name) => return push_class(text, name),
    };
    text.push_str(letter)?;
    Ok(())
}

fn push_class(text: &mut String, name: &Name) -> M<()>
    ensures { OnOk result (string_bytes text.new ≡ string_bytes text.old ++ (codes "L" ++ (name.now ++ codes ";"))) }
{
    text.push_str("L")?;
    text.push_str(name.as_str())?;
    text.push_str(";")?;
    Ok(())
}

/// The most words that the arguments of a method may take (JVMS 4.3.3).
const MOST_WORDS: u32 = 255;

/// What is begun of a field type.
#[derive(Clone, Copy)]
enum Begun {
    /// So many `[`.
    Brackets(u8),
    /// An `L` behind so many `[`, and a class name that begins at a place. Its last part may be begun.
    Name {
        dims: u8,
        from: usize,
        in_part: bool,
    },
}

/// What one more byte made of it.
#[derive(Drop)]
enum Grown {
    More(Begun),
    Whole(FieldType),
}

#[derive(Drop)]
enum FieldRead {
    Begun(Begun),
    Whole(FieldType),
}

/// Where a method descriptor stands.
#[derive(Drop)]
enum MethodPart {
    Before,
    Parameter(Begun),
    Returned(Begun),
    Behind(Option<FieldType>),
}

/// The parameters that are whole, and how many words they take.
#[derive(Drop)]
struct Parameters {
    types: Items<FieldType>,
    words: u32,
}

#[derive(Drop)]
struct MethodRead {
    parameters: Parameters,
    part: MethodPart,
}

#[tactic(auto, unfolding(crate::specs::Descriptors::grown))]
fn grow(alloc: Global, text: &str, at: usize, begun: Begun, byte: u8) -> M<Option<Grown>>
    requires within { at < length text.now }
    requires byte { slice_index text.now at ≡ byte }
    requires placed { IsPlaced text.now at begun }
    ensures grown { IfOk result (λ next. grown_at text.now (at + 1) next ≡ grown (begun_at text.now at begun) byte) }
    ensures placed { IfOk result (IsGrownPlaced text.now (at + 1)) }
{
    match begun {
        Begun::Brackets(dims) => Ok(grow_brackets(text, at, dims, byte)),
        Begun::Name { dims, from, .. } if byte == b';' => {
            let name = class_between(alloc, text, from, at)?;
            Ok(class_grown(dims, name))
        }
        Begun::Name {
            dims,
            from,
            in_part,
        } => Ok(more_name(dims, from, part_after(in_part, byte))),
    }
}

fn more_name(dims: u8, from: usize, in_part: Option<bool>) -> Option<Grown>
    ensures { result ≡ more_of dims from in_part }
{
    let in_part = in_part?;
    Some(Grown::More(Begun::Name {
        dims,
        from,
        in_part,
    }))
}

fn class_grown(dims: u8, name: Option<Name>) -> Option<Grown>
    ensures { grown_at [] 0 result ≡ class_whole dims name }
{
    let name = name?;
    Some(Grown::Whole(FieldType {
        dims,
        base: Base::Class(name),
    }))
}

#[tactic(auto, unfolding(crate::specs::Descriptors::grown))]
fn grow_brackets(text: &str, at: usize, dims: u8, byte: u8) -> Option<Grown>
    requires within { at < length text.now }
    requires byte { slice_index text.now at ≡ byte }
    ensures grown { grown_at text.now (at + 1) result ≡ grown (brackets dims) byte }
    ensures placed { IsGrownPlaced text.now (at + 1) result }
{
    match byte {
        b'[' if dims < 255 => Some(Grown::More(Begun::Brackets(dims + 1))),
        b'[' => None,
        b'L' => more_name(dims, at + 1, Some(false)),
        _ => {
            let base = letter_base(byte)?;
            Some(Grown::Whole(FieldType { dims, base }))
        }
    }
}

fn letter_base(byte: u8) -> Option<Base>
    ensures { result ≡ letter_base byte }
{
    match byte {
        b'Z' => Some(Base::Boolean),
        b'B' => Some(Base::Byte),
        b'C' => Some(Base::Char),
        b'S' => Some(Base::Short),
        b'I' => Some(Base::Int),
        b'J' => Some(Base::Long),
        b'F' => Some(Base::Float),
        b'D' => Some(Base::Double),
        _ => None,
    }
}

/// The class name from one place to another, if it is one.
fn class_between(alloc: Global, text: &str, from: usize, to: usize) -> M<Option<Name>>
    requires order { from ≤ to }
    requires begins { IsCharBoundary text.now from }
    requires ends { IsCharBoundary text.now to }
    ensures { IfOk result (λ name. name ≡ (if is_class_name (slice_range text.now from to) then Some
        (slice_range text.now from to) else None)) }
{
    let name = &text[from..to];
    if is_class_name(name) {
        Ok(Some(Text::from_str(alloc, name)?))
    } else {
        Ok(None)
    }
}

fn field_step(
    alloc: Global,
    text: &str,
    at: usize,
    read: FieldRead,
    byte: u8,
) -> M<Option<FieldRead>>
    requires within { at < length text.now }
    requires byte { slice_index text.now at ≡ byte }
    requires placed { IsFieldPlaced text.now at read }
    ensures read { IfOk result (λ next. field_read_at text.now (at + 1) next
        ≡ field_byte (field_at text.now at read) byte) }
    ensures placed { IfOk result (IsFieldReadPlaced text.now (at + 1)) }
{
    match read {
        FieldRead::Begun(begun) => {
            let grown = grow(alloc, text, at, begun, byte)?;
            Ok(field_grown(grown))
        }
        FieldRead::Whole(_) => Ok(None),
    }
}

fn field_grown(grown: Option<Grown>) -> Option<FieldRead>
    ensures { result ≡ field_of grown }
{
    match grown? {
        Grown::More(begun) => Some(FieldRead::Begun(begun)),
        Grown::Whole(ty) => Some(FieldRead::Whole(ty)),
    }
}

fn field_read(alloc: Global, text: &str) -> Result<FieldType, Or<BadDescriptor>>
    requires { length text.now < 4294967295 }
    ensures { IsDue result (read_field text.now) }
{
    let mut read = FieldRead::Begun(Begun::Brackets(0));
    for (at, byte) in text.as_bytes().iter().enumerate() {
        let Some(next) = field_step(alloc, text, at, read, *byte)? else {
            return Err(bad_descriptor(at));
        };
        read = next;
    }
    match read {
        FieldRead::Whole(ty) => Ok(ty),
        FieldRead::Begun(_) => Err(bad_descriptor(text.len())),
    }
}

pub(crate) fn bad_descriptor(place: usize) -> Or<BadDescriptor>
    requires { place < 4294967295 }
    ensures { result ≡ Or.Fault (record { place = place }) }
{
    Or::Fault(BadDescriptor {
        place: place as u32,
    })
}

fn method_step(
    alloc: Global,
    text: &str,
    at: usize,
    read: MethodRead,
    byte: u8,
) -> M<Option<MethodRead>>
    requires within { at < length text.now }
    requires byte { slice_index text.now at ≡ byte }
    requires placed { IsMethodPlaced text.now at read }
    ensures read { IfOk result (λ next. method_next_at text.now (at + 1) next
        ≡ method_byte (method_read_at text.now at read) byte) }
    ensures placed { IfOk result (IsMethodNextPlaced text.now (at + 1)) }
{
    let MethodRead { parameters, part } = read;
    match part {
        MethodPart::Before if byte == b'(' => Ok(in_part(
            parameters,
            MethodPart::Parameter(Begun::Brackets(0)),
        )),
        MethodPart::Before => Ok(None),
        MethodPart::Parameter(begun) => parameter_step(alloc, text, at, parameters, begun, byte),
        MethodPart::Returned(begun) => returned_step(alloc, text, at, parameters, begun, byte),
        MethodPart::Behind(_) => Ok(None),
    }
}

fn in_part(parameters: Parameters, part: MethodPart) -> Option<MethodRead>
    ensures { result ≡ Some (record { parameters = parameters; part = part }) }
{
    Some(MethodRead { parameters, part })
}

fn is_fresh(begun: Begun) -> bool
    ensures { (text : List ℕ) (at : ℕ) → result ≡ is_fresh (begun_at text at begun) }
{
    match begun {
        Begun::Brackets(dims) => dims == 0,
        Begun::Name { .. } => false,
    }
}

fn parameter_step(
    alloc: Global,
    text: &str,
    at: usize,
    parameters: Parameters,
    begun: Begun,
    byte: u8,
) -> M<Option<MethodRead>>
    requires within { at < length text.now }
    requires byte { slice_index text.now at ≡ byte }
    requires counted { AreCounted parameters }
    requires placed { IsPlaced text.now at begun }
    ensures read { IfOk result (λ next. method_next_at text.now (at + 1) next
        ≡ parameter_byte parameters.types (begun_at text.now at begun) byte) }
    ensures placed { IfOk result (IsMethodNextPlaced text.now (at + 1)) }
{
    let fresh = is_fresh(begun);
    if fresh && byte == b')' {
        return Ok(in_part(parameters, MethodPart::Returned(Begun::Brackets(0))));
    }
    if fresh && parameters.words >= MOST_WORDS {
        return Ok(None);
    }
    let grown = grow(alloc, text, at, begun, byte)?;
    parameter_grown(parameters, grown)
}

fn parameter_grown(parameters: Parameters, grown: Option<Grown>) -> M<Option<MethodRead>>
    requires { AreCounted parameters }
    ensures read { IfOk result (λ next. (text : List ℕ) (at : ℕ) → method_next_at text at next
        ≡ parameter_on parameters.types (grown_at text at grown)) }
    ensures placed { IfOk result (λ next. (text : List ℕ) (at : ℕ) → IsGrownPlaced text at grown
        → IsMethodNextPlaced text at next) }
{
    let Some(grown) = grown else {
        return Ok(None);
    };
    match grown {
        Grown::More(begun) => Ok(in_part(parameters, MethodPart::Parameter(begun))),
        Grown::Whole(ty) => with_parameter(parameters, ty),
    }
}

#[tactic(auto, using(crate::proofs::Words::words_more))]
fn with_parameter(parameters: Parameters, ty: FieldType) -> M<Option<MethodRead>>
    requires { AreCounted parameters }
    ensures read { IfOk result (λ next. (text : List ℕ) (at : ℕ) → method_next_at text at next
        ≡ parameter_on parameters.types (Some (whole ty))) }
    ensures placed { IfOk result (λ next. (text : List ℕ) (at : ℕ) → IsMethodNextPlaced text at next) }
{
    let Parameters { mut types, words } = parameters;
    let words = words + words_of(&ty);
    if words > MOST_WORDS {
        return Ok(None);
    }
    types.push(ty)?;
    Ok(in_part(
        Parameters { types, words },
        MethodPart::Parameter(Begun::Brackets(0)),
    ))
}

fn returned_step(
    alloc: Global,
    text: &str,
    at: usize,
    parameters: Parameters,
    begun: Begun,
    byte: u8,
) -> M<Option<MethodRead>>
    requires within { at < length text.now }
    requires byte { slice_index text.now at ≡ byte }
    requires counted { AreCounted parameters }
    requires placed { IsPlaced text.now at begun }
    ensures read { IfOk result (λ next. method_next_at text.now (at + 1) next
        ≡ returned_byte parameters.types (begun_at text.now at begun) byte) }
    ensures placed { IfOk result (IsMethodNextPlaced text.now (at + 1)) }
{
    if is_fresh(begun) && byte == b'V' {
        return Ok(in_part(parameters, MethodPart::Behind(None)));
    }
    let grown = grow(alloc, text, at, begun, byte)?;
    Ok(returned_grown(parameters, grown))
}

fn returned_grown(parameters: Parameters, grown: Option<Grown>) -> Option<MethodRead>
    requires { AreCounted parameters }
    ensures read { (text : List ℕ) (at : ℕ) → method_next_at text at result
        ≡ returned_on parameters.types (grown_at text at grown) }
    ensures placed { (text : List ℕ) (at : ℕ) → IsGrownPlaced text at grown → IsMethodNextPlaced text at result }
{
    match grown? {
        Grown::More(begun) => in_part(parameters, MethodPart::Returned(begun)),
        Grown::Whole(ty) => in_part(parameters, MethodPart::Behind(Some(ty))),
    }
}

fn method_read(alloc: Global, text: &str) -> Result<MethodType, Or<BadDescriptor>>
    requires { length text.now < 4294967295 }
    ensures { IsDue result (read_method text.now) }
{
    let mut read = nothing_read(alloc);
    for (at, byte) in text.as_bytes().iter().enumerate() {
        let Some(next) = method_step(alloc, text, at, read, *byte)? else {
            return Err(bad_descriptor(at));
        };
        read = next;
    }
    let MethodRead { parameters, part } = read;
    match part {
        MethodPart::Behind(ret) => Ok(MethodType {
            args: parameters.types,
            ret,
        }),
        _ => Err(bad_descriptor(text.len())),
    }
}

#[tactic(auto, unfolding(crate::specs::Types::argument_words))]
fn nothing_read(alloc: Global) -> MethodRead
    ensures read { (text : List ℕ) (at : ℕ) → method_read_at text at result ≡ record { args = []; part = before } }
    ensures placed { (text : List ℕ) (at : ℕ) → IsMethodPlaced text at result }
{
    MethodRead {
        parameters: Parameters {
            types: Items::new(alloc),
            words: 0,
        },
        part: MethodPart::Before,
    }
}
