// Fields (JVMS 4.5).
#![tactic(auto, unfolding(crate::proofs::Unfolding::contents))]

ghost use Rattle.std.specs.Prelude.{◌≡◌, [], ◌∷◌, ◌++◌, false, IfOk, OnOk};
ghost use Rattle.std.specs.List.{list_any};
ghost use Rattle.format_reading.specs.Reader.{ReadsOr};
ghost use Rattle.jv_base.specs.Types.{field_text};
ghost use Rattle.class_model.specs.Flags.{is_static};
ghost use Rattle.class_model.specs.ReadingAttributes.{attribute, attributes, counted_attributes};
ghost use Rattle.class_model.specs.ReadingMembers.{known_of_field, no_field_attribute, constant_of, field_of};
ghost use Rattle.class_model.specs.ReadingMembers.{same_signature, read_field_info, read_fields};
ghost use Rattle.class_read.specs.bodies.Fields.{field_attribute, field_contents};

use crate::attributes::{check_end, check_once, constant_value, read_units};
use crate::flags::{field_access, is_static, read_field_flags};
use crate::members::{read_field_type, read_name};
use crate::names::is_named;
use crate::signatures::{Signature, Signatures, signature_of};
use class_model::{Constant, Field};
use format_reading::{FormatFault, of_part};
use jv_base::{Cursor, FieldType, Items, M, Name, Or, Units};
use known_pool::{DescribedField, KnownPool, KnownText, TextRule};
use std::alloc::Global;
use std::marker::Model;

/// An attribute of a field that is read (JVMS 4.7.2, 4.7.8, 4.7.15).
#[derive(Clone, Copy)]
pub enum FieldAttribute {
    ConstantValue,
    Synthetic,
    Deprecated,
}

/// What was seen of a field's attributes.
#[derive(Drop)]
pub struct SeenOfField {
    constant: Option<Option<Constant>>,
    synthetic: bool,
    deprecated: bool,
}

impl Model for SeenOfField {
    ghost use Rattle.class_model.specs.ReadingMembers.{FieldSeen};

    ghost Value = { FieldSeen };

    ghost view = { λ s. record { constant = s.constant; synthetic = s.synthetic; deprecated = s.deprecated } };
}

/// So many fields, each unlike all before it.
#[tactic(auto)]
pub fn read_fields(
    alloc: Global,
    count: u16,
    pool: &KnownPool,
    in_interface: bool,
    cursor: &mut Cursor,
) -> Result<Items<Field>, Or<FormatFault>>
    ensures { ReadsOr result cursor.new (read_fields count pool.now in_interface [] cursor.old) }
{
    let mut before = Signatures::new(alloc);
    let mut fields = Items::with_capacity(alloc, usize::from(count))?;
    for _ in 0..count {
        let member = field_info(pool, in_interface, &before, cursor)?;
        keep(&mut fields, &mut before, member)?;
    }
    Ok(fields)
}

// One more field, whose signature is none of those before.
#[tactic(auto)]
fn keep(fields: &mut Items<Field>, before: &mut Signatures, member: (Field, Signature)) -> M<()>
    requires { list_any (same_signature member.1) before.old ≡ false }
    ensures fields { OnOk result (fields.new ≡ fields.old ++ member.0 ∷ []) }
    ensures before { OnOk result (before.new ≡ member.1 ∷ before.old) }
{
    let (field, signature) = member;
    before.push(signature)?;
    fields.push(field)?;
    Ok(())
}

// A field behind those of these signatures.
#[tactic(auto, unfolding(class_model::specs::ReadingMembers::read_field_info, crate::proofs::Unfolding::rows))]
fn field_info(
    pool: &KnownPool,
    in_interface: bool,
    before: &Signatures,
    cursor: &mut Cursor,
) -> Result<(Field, Signature), Or<FormatFault>>
    ensures read { ReadsOr result cursor.new (read_field_info pool.now in_interface before.now cursor.old) }
    ensures fresh { IfOk result (λ member. list_any (same_signature member.1) before.now ≡ false) }
{
    let at = cursor.place();
    let flags = read_field_flags(in_interface, cursor)?;
    let name = read_name(pool, TextRule::MemberName, cursor)?;
    let described = read_field_type(pool, cursor)?;
    let signature = field_signature(name, described)?;
    before.check_fresh(at, &signature)?;
    let seen = attributes_seen(pool, flags, described, cursor)?;
    let field = whole_field(flags, name, described, seen)?;
    Ok((field, signature))
}

fn field_signature(name: &KnownText, described: &DescribedField) -> M<Signature>
    ensures { IfOk result (λ signature. signature ≡ (name.now, field_text described.now)) }
{
    let text = described.text().clone()?;
    Ok(signature_of(name.text().clone()?, text))
}

fn whole_field(
    flags: u16,
    name: &KnownText,
    described: &DescribedField,
    seen: SeenOfField,
) -> M<Field>
    ensures { IfOk result (λ field. field ≡ field_of flags name.now described.now seen) }
{
    let (name, ty) = copied_field(name, described)?;
    Ok(field_of(flags, name, ty, seen))
}

// A copy of a name and a type.
fn copied_field(name: &KnownText, described: &DescribedField) -> M<(Name, FieldType)>
    ensures { IfOk result (λ two. two ≡ (name.now, described.now)) }
{
    let name = name.text().clone()?;
    Ok((name, described.ty().clone()?))
}

fn field_of(flags: u16, name: Name, ty: FieldType, seen: SeenOfField) -> Field
    ensures { result ≡ field_of flags name ty seen }
{
    let SeenOfField {
        constant,
        synthetic,
        deprecated,
    } = seen;
    Field {
        flags: field_access(flags),
        name,
        ty,
        constant: constant_of(constant),
        synthetic,
        deprecated,
    }
}

fn constant_of(constant: Option<Option<Constant>>) -> Option<Constant>
    ensures { result ≡ constant_of constant }
{
    constant?
}

// ---- attributes

// What is seen of the attributes of a field of this type.
fn attributes_seen(
    pool: &KnownPool,
    flags: u16,
    described: &DescribedField,
    cursor: &mut Cursor,
) -> Result<SeenOfField, Or<FormatFault>>
    ensures { ReadsOr result cursor.new
        (counted_attributes pool.now (known_of_field pool.now
        (is_static flags) described.now) no_field_attribute cursor.old) }
{
    counted(pool, flags, described.ty(), cursor)
}

fn counted(
    pool: &KnownPool,
    flags: u16,
    ty: &FieldType,
    cursor: &mut Cursor,
) -> Result<SeenOfField, Or<FormatFault>>
    ensures { ReadsOr result cursor.new
        (counted_attributes pool.now (known_of_field pool.now (is_static flags) ty.now) no_field_attribute cursor.old) }
{
    let count = cursor.u2()?;
    attributes(count, pool, flags, ty, cursor)
}

#[tactic(auto)]
fn attributes(
    count: u16,
    pool: &KnownPool,
    flags: u16,
    ty: &FieldType,
    cursor: &mut Cursor,
) -> Result<SeenOfField, Or<FormatFault>>
    ensures { ReadsOr result cursor.new
        (attributes count pool.now (known_of_field pool.now (is_static flags) ty.now) no_field_attribute cursor.old) }
{
    let mut seen = SeenOfField {
        constant: None,
        synthetic: false,
        deprecated: false,
    };
    for _ in 0..count {
        seen = attribute(pool, flags, ty, seen, cursor)?;
    }
    Ok(seen)
}

#[tactic(auto, unfolding(crate::proofs::Unfolding::attribute), using(crate::proofs::Known::of_field))]
fn attribute(
    pool: &KnownPool,
    flags: u16,
    ty: &FieldType,
    seen: SeenOfField,
    cursor: &mut Cursor,
) -> Result<SeenOfField, Or<FormatFault>>
    ensures { ReadsOr result cursor.new (attribute pool.now
        (known_of_field pool.now (is_static flags) ty.now) seen cursor.old) }
{
    let at = cursor.place();
    let name = read_units(pool, cursor)?;
    let length = cursor.u4()?;
    let Some(known) = field_attribute(name) else {
        cursor.take(length)?;
        return Ok(seen);
    };
    let mut part = cursor.part(length)?;
    match contents(pool, flags, ty, at, length, known, seen, &mut part) {
        Ok(seen) => {
            check_end(at, &part, cursor)?;
            Ok(seen)
        }
        Err(fault) => Err(of_part(at, fault)),
    }
}

fn field_attribute(name: &Units) -> Option<FieldAttribute>
    ensures { result ≡ field_attribute name.now }
{
    if is_named(name.as_slice(), b"ConstantValue") {
        Some(FieldAttribute::ConstantValue)
    } else if is_named(name.as_slice(), b"Synthetic") {
        Some(FieldAttribute::Synthetic)
    } else if is_named(name.as_slice(), b"Deprecated") {
        Some(FieldAttribute::Deprecated)
    } else {
        None
    }
}

fn contents(
    pool: &KnownPool,
    flags: u16,
    ty: &FieldType,
    at: u32,
    length: u32,
    known: FieldAttribute,
    seen: SeenOfField,
    part: &mut Cursor,
) -> Result<SeenOfField, Or<FormatFault>>
    ensures { ReadsOr result part.new (field_contents pool.now (is_static flags) ty.now at length seen known part.old) }
{
    match known {
        FieldAttribute::ConstantValue => {
            check_once(at, seen.constant.is_some())?;
            if is_static(flags) {
                let constant = constant_value(pool, ty, part)?;
                return Ok(SeenOfField {
                    constant: Some(constant),
                    ..seen
                });
            }
            part.take(length)?;
            Ok(SeenOfField {
                constant: Some(None),
                ..seen
            })
        }
        FieldAttribute::Synthetic => {
            check_once(at, seen.synthetic)?;
            Ok(SeenOfField {
                synthetic: true,
                ..seen
            })
        }
        FieldAttribute::Deprecated => {
            check_once(at, seen.deprecated)?;
            Ok(SeenOfField {
                deprecated: true,
                ..seen
            })
        }
    }
}
