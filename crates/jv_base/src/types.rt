// Names and types of a class file.
use crate::{Items, Text};

/// A name in internal form (JVMS 4.2), as `java/lang/Object` or `<init>`.
pub type Name = Text;

/// The type that is left of a field type where its dimensions are taken away (JVMS 4.3.2).
#[derive(Clone, Drop, PartialEq, Eq)]
pub enum Base {
    Boolean,
    Byte,
    Char,
    Short,
    Int,
    Long,
    Float,
    Double,
    Class(Name),
}

/// The type of a field, a parameter or a local variable (JVMS 4.3.2): an array where `dims` isn't 0.
#[derive(Clone, Drop, PartialEq, Eq)]
pub struct FieldType {
    pub dims: u8,
    pub base: Base,
}

/// The type of a method (JVMS 4.3.3). With no `ret` its result is void.
#[derive(Clone, Drop, PartialEq, Eq)]
pub struct MethodType {
    pub args: Items<FieldType>,
    pub ret: Option<FieldType>,
}
