// Constants told by the numbers of their texts.

/// A constant (JVMS 4.4), each of its texts told by its number in a list of texts.
#[derive(Clone, Copy, PartialEq, Eq, PartialOrd, Ord)]
pub enum Key {
    Utf8(usize),
    Integer(i32),
    Long(i64),
    /// The second index that a Long takes, told by its value (JVMS 4.4.5).
    SecondOfLong(i64),
    /// A class by its name, an array type by its descriptor.
    Class(usize),
    Str(usize),
    /// A name and a descriptor.
    NameAndType(usize, usize),
    /// A class, a name and a descriptor.
    Fieldref(usize, usize, usize),
    /// A class, a name and a descriptor.
    Methodref(usize, usize, usize),
    /// An interface, a name and a descriptor.
    InterfaceMethodref(usize, usize, usize),
}
