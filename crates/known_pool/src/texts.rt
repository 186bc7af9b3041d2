// A text of the constant pool, with what it may stand for (JVMS 4.2, 4.3).
ghost use Rattle.std.specs.Prelude.{◌≡◌, IfOk, is_some, option_copied};
ghost use Rattle.jv_base.specs.Names.{is_class_name, is_member_name, is_method_name};
ghost use Rattle.class_model.specs.Lookups.{text_of, field_type_of, method_type_of, named_type};
ghost use Rattle.known_pool.specs.bodies.Texts.{obeys};

use crate::described::{DescribedField, DescribedMethod, described_field, described_method};
use jv_base::{
    Base, FieldType, M, Or, OutOfMemory, Text, is_class_name, is_member_name, is_method_name,
    read_field_type, read_method_type,
};
use std::alloc::Global;
use std::marker::Model;

/// What a text has to be.
#[derive(Clone, Copy)]
pub enum TextRule {
    /// The name of a field (JVMS 4.2.2).
    MemberName,
    /// The name of a method (JVMS 4.2.2).
    MethodName,
    /// A field descriptor (JVMS 4.3.2).
    FieldDescriptor,
    /// A method descriptor (JVMS 4.3.3).
    MethodDescriptor,
    /// Either of them.
    Descriptor,
}

/// A text with what it may stand for, which is found once for all places that name it.
#[derive(Drop)]
pub struct KnownText {
    text: Text,
    names_class: bool,
    names_member: bool,
    names_method: bool,
    field: Option<DescribedField>,
    method: Option<DescribedMethod>,
}

impl Model for KnownText {
    ghost use Rattle.std.specs.Prelude.{List, ℕ, ◌≡◌};
    ghost use Rattle.jv_base.specs.Names.{is_class_name, is_member_name, is_method_name};
    ghost use Rattle.class_model.specs.Lookups.{field_type_of, method_type_of};

    ghost Value = { List ℕ };

    ghost view = { λ t. t.text };

    ghost invariant = { λ t. (t.names_class ≡ is_class_name t.text) × (t.names_member ≡ is_member_name t.text)
        × (t.names_method ≡ is_method_name t.text)
        × (t.field ≡ field_type_of t.text) × (t.method ≡ method_type_of t.text) };
}

impl KnownText {
    /// The text itself.
    pub fn text(&self) -> &Text
        ensures { result.now ≡ self.now }
    {
        &self.text
    }

    /// Whether it is the name of a class (JVMS 4.2.1).
    pub fn is_class_name(&self) -> bool
        ensures { result ≡ is_class_name self.now }
    {
        self.names_class
    }

    /// The type that it tells as a field descriptor (JVMS 4.3.2).
    pub fn field_type(&self) -> Option<&DescribedField>
        ensures { option_copied result ≡ field_type_of self.now }
    {
        self.field.as_ref()
    }

    /// The type that it tells as a method descriptor (JVMS 4.3.3).
    pub fn method_type(&self) -> Option<&DescribedMethod>
        ensures { option_copied result ≡ method_type_of self.now }
    {
        self.method.as_ref()
    }

    /// The type that a CONSTANT_Class with this name names: a class by its name, an array type by its descriptor
    /// (JVMS 4.4.1).
    pub fn named_type(&self) -> M<Option<FieldType>>
        ensures { IfOk result (λ ty. ty ≡ named_type self.now) }
    {
        if self.names_class {
            return Ok(Some(FieldType {
                dims: 0,
                base: Base::Class(self.text.clone()?),
            }));
        }
        match &self.field {
            Some(described) if described.ty().dims != 0 => Ok(Some(described.ty().clone()?)),
            _ => Ok(None),
        }
    }

    /// Whether it obeys a rule.
    pub fn obeys(&self, rule: TextRule) -> bool
        ensures { result ≡ obeys rule self.now }
    {
        match rule {
            TextRule::MemberName => self.names_member,
            TextRule::MethodName => self.names_method,
            TextRule::FieldDescriptor => self.field.is_some(),
            TextRule::MethodDescriptor => self.method.is_some(),
            TextRule::Descriptor => self.field.is_some() || self.method.is_some(),
        }
    }

    /// Whether a CONSTANT_Class may name it: a class by its name, an array type by its descriptor (JVMS 4.4.1).
    pub fn names_type(&self) -> bool
        ensures { result ≡ is_some (named_type self.now) }
    {
        self.names_class || matches!(&self.field, Some(described) if described.ty().dims != 0)
    }
}

/// What a text may stand for.
pub fn known_text(alloc: Global, text: Text) -> M<KnownText>
    ensures { IfOk result (λ known. known ≡ text) }
{
    let field = field_type_of(alloc, &text)?;
    let method = method_type_of(alloc, &text)?;
    Ok(KnownText {
        names_class: is_class_name(text.as_str()),
        names_member: is_member_name(text.as_str()),
        names_method: is_method_name(text.as_str()),
        field,
        method,
        text,
    })
}

/// The text of UTF-16 units in which no surrogate is unpaired.
#[tactic(auto, unfolding(class_model::specs::Lookups::text_of), using(class_model::proofs::Units::text_is, class_model::proofs::Units::no_text))]
pub fn text_of(alloc: Global, units: &[u16]) -> M<Option<Text>>
    ensures { IfOk result (λ text. text ≡ text_of units.now) }
{
    match String::from_utf16(alloc, units)? {
        Ok(text) => Ok(Some(Text::from_string(alloc, text)?)),
        Err(_) => Ok(None),
    }
}

// No class file holds a text of 4 GiB; one is more than the memory that there is for it.
fn field_type_of(alloc: Global, text: &Text) -> M<Option<DescribedField>>
    ensures { IfOk result (λ ty. ty ≡ field_type_of text.now) }
{
    if text.len() >= 4_294_967_295 {
        return Err(OutOfMemory);
    }
    match read_field_type(alloc, text) {
        Ok(ty) => Ok(Some(described_field(ty, text.clone()?))),
        Err(Or::Fault(_)) => Ok(None),
        Err(Or::OutOfMemory) => Err(OutOfMemory),
    }
}

// The same limit holds.
pub fn method_type_of(alloc: Global, text: &Text) -> M<Option<DescribedMethod>>
    ensures { IfOk result (λ ty. ty ≡ method_type_of text.now) }
{
    if text.len() >= 4_294_967_295 {
        return Err(OutOfMemory);
    }
    match read_method_type(alloc, text) {
        Ok(ty) => Ok(Some(described_method(ty, text.clone()?))),
        Err(Or::Fault(_)) => Ok(None),
        Err(Or::OutOfMemory) => Err(OutOfMemory),
    }
}
