// The constants of a pool, told by what they say.
use jv_base::Units;

/// A constant of the pool that a class is written with, told by its texts in UTF-16 and not by
/// indices (JVMS 4.4).
#[derive(Drop, PartialEq, Eq, Hash)]
pub enum PoolConstant {
    Utf8(Units),
    Integer(i32),
    Long(i64),
    /// The second index that a Long takes, told by its value (JVMS 4.4.5).
    SecondOfLong(i64),
    /// A class by its name, an array type by its descriptor.
    Class(Units),
    Str(Units),
    NameAndType {
        name: Units,
        descriptor: Units,
    },
    Fieldref {
        class: Units,
        name: Units,
        descriptor: Units,
    },
    Methodref {
        class: Units,
        name: Units,
        descriptor: Units,
    },
    InterfaceMethodref {
        class: Units,
        name: Units,
        descriptor: Units,
    },
}
