// Descriptors of the constant pool, with the types that they tell (JVMS 4.3).
ghost use Rattle.std.specs.Prelude.{◌≡◌, ◌≤◌};
ghost use Rattle.jv_base.specs.Types.{argument_words, field_text, method_text};

use jv_base::{FieldType, MethodType, Text};
use std::marker::Model;

/// The type that a field descriptor tells, with the descriptor (JVMS 4.3.2).
#[derive(Drop)]
pub struct DescribedField {
    ty: FieldType,
    text: Text,
}

impl Model for DescribedField {
    ghost use Rattle.std.specs.Prelude.{◌≡◌};
    ghost use Rattle.jv_base.specs.declared.types.FieldType.{FieldType};
    ghost use Rattle.jv_base.specs.Types.{field_text};

    ghost Value = { FieldType };

    ghost view = { λ d. d.ty };

    ghost invariant = { λ d. d.text ≡ field_text d.ty };
}

impl DescribedField {
    /// The type.
    pub fn ty(&self) -> &FieldType
        ensures { result.now ≡ self.now }
    {
        &self.ty
    }

    /// Its descriptor.
    pub fn text(&self) -> &Text
        ensures { result.now ≡ field_text self.now }
    {
        &self.text
    }
}

/// A type of a descriptor.
pub fn described_field(ty: FieldType, text: Text) -> DescribedField
    requires { text ≡ field_text ty }
    ensures { result ≡ ty }
{
    DescribedField { ty, text }
}

/// The type that a method descriptor tells, with the descriptor (JVMS 4.3.3).
#[derive(Drop)]
pub struct DescribedMethod {
    ty: MethodType,
    text: Text,
}

impl Model for DescribedMethod {
    ghost use Rattle.std.specs.Prelude.{◌≡◌, ◌≤◌};
    ghost use Rattle.jv_base.specs.declared.types.MethodType.{MethodType};
    ghost use Rattle.jv_base.specs.Types.{argument_words, method_text};

    ghost Value = { MethodType };

    ghost view = { λ d. d.ty };

    ghost invariant = { λ d. (d.text ≡ method_text d.ty) × (argument_words d.ty.args ≤ 255) };
}

impl DescribedMethod {
    /// The type, whose arguments take few words.
    pub fn ty(&self) -> &MethodType
        ensures told { result.now ≡ self.now }
        ensures words { argument_words result.now.args ≤ 255 }
    {
        &self.ty
    }

    /// Its descriptor.
    pub fn text(&self) -> &Text
        ensures { result.now ≡ method_text self.now }
    {
        &self.text
    }
}

/// A type of a descriptor.
pub fn described_method(ty: MethodType, text: Text) -> DescribedMethod
    requires text { text ≡ method_text ty }
    requires words { argument_words ty.args ≤ 255 }
    ensures { result ≡ ty }
{
    DescribedMethod { ty, text }
}
