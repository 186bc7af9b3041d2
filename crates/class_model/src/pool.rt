// The constant pool as it is read (JVMS 4.4).
use jv_base::{Items, Shared, Units};

/// A constant pool. The entry of index i stands at place i. Place 0 and the second place of a Long or a Double hold
/// a `Gap`.
#[derive(Drop)]
pub struct Pool {
    pub entries: Items<Entry>,
}

/// An entry (JVMS 4.4). A u16 is an index of the pool; two of them stand in the order of the class
/// file.
#[derive(Drop)]
pub enum Entry {
    /// CONSTANT_Utf8: a text, in UTF-16 (JVMS 4.4.7).
    Utf8(Shared<Units>),
    /// CONSTANT_Integer (JVMS 4.4.4).
    Integer(i32),
    /// CONSTANT_Long (JVMS 4.4.5).
    Long(i64),
    /// CONSTANT_Class: the name of a class or an array type (JVMS 4.4.1).
    Class(u16),
    /// CONSTANT_String: its text (JVMS 4.4.3).
    Str(u16),
    /// CONSTANT_Fieldref: a class, and a name and type (JVMS 4.4.2).
    Field(u16, u16),
    /// CONSTANT_Methodref: a class, and a name and type (JVMS 4.4.2).
    Method(u16, u16),
    /// CONSTANT_InterfaceMethodref: an interface, and a name and type (JVMS 4.4.2).
    InterfaceMethod(u16, u16),
    /// CONSTANT_NameAndType: a name, and a descriptor (JVMS 4.4.6).
    NameAndType(u16, u16),
    /// An entry of this tag, which is left out: Float, Double, MethodHandle, MethodType or
    /// InvokeDynamic.
    LeftOut(u8),
    /// No entry.
    Gap,
}
