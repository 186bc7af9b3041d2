// A class, its fields and its methods (JVMS 4.1, 4.5 and 4.6).
use crate::Code;
use jv_base::{Access, FieldType, Items, MethodType, Name, Shared, Units};

/// A class or an interface (JVMS 4.1). Its version, its constant pool and the attributes that have no
/// place here aren't kept.
pub struct Class {
    /// The flags that mean something on a class (JVMS 4.1, table 4.1-A).
    pub flags: Access,
    pub name: Name,
    pub super_name: Name,
    /// The direct superinterfaces, in the order of the class file.
    pub interfaces: Items<Name>,
    /// In the order of the class file.
    pub fields: Items<Field>,
    /// In the order of the class file.
    pub methods: Items<Method>,
    /// What the attribute SourceFile holds, in UTF-16 (JVMS 4.7.10).
    pub source: Option<Units>,
    /// Whether there is an attribute Synthetic (JVMS 4.7.8).
    pub synthetic: bool,
    /// Whether there is an attribute Deprecated (JVMS 4.7.15).
    pub deprecated: bool,
    /// The first thing in the class file that no value here stands for.
    pub left_out: Option<LeftOut>,
}

/// Written out, so that a crate which lets a class go proves one call and not one for each type in it.
impl Drop for Class {
    fn drop(self) {
        let Class {
            flags: _,
            name: _,
            super_name: _,
            interfaces: _,
            fields: _,
            methods: _,
            source: _,
            synthetic: _,
            deprecated: _,
            left_out: _,
        } = self;
    }
}

/// A field (JVMS 4.5).
#[derive(Drop)]
pub struct Field {
    /// The flags that mean something on a field (JVMS 4.5, table 4.5-A).
    pub flags: Access,
    pub name: Name,
    pub ty: FieldType,
    /// What the attribute ConstantValue of a static field holds (JVMS 4.7.2).
    pub constant: Option<Constant>,
    /// Whether there is an attribute Synthetic (JVMS 4.7.8).
    pub synthetic: bool,
    /// Whether there is an attribute Deprecated (JVMS 4.7.15).
    pub deprecated: bool,
}

/// The value with which a static field begins (JVMS 4.7.2).
#[derive(Drop)]
pub enum Constant {
    /// Of a field of type int, short, char, byte or boolean.
    Int(i32),
    /// Of a field of type long.
    Long(i64),
    /// Of a field of type String, in UTF-16.
    Text(Shared<Units>),
}

/// A method, an instance initialisation method or a class initialisation method (JVMS 4.6 and 2.9).
#[derive(Drop)]
pub struct Method {
    /// The flags that mean something on a method (JVMS 4.6, table 4.6-A).
    pub flags: Access,
    pub name: Name,
    pub ty: MethodType,
    /// There is none on an abstract method, on a native one, and where an instruction is left out.
    pub code: Option<Code>,
    /// The classes that the attribute Exceptions names, in its order (JVMS 4.7.5).
    pub throws: Items<Name>,
    /// Whether there is an attribute Synthetic (JVMS 4.7.8).
    pub synthetic: bool,
    /// Whether there is an attribute Deprecated (JVMS 4.7.15).
    pub deprecated: bool,
}

/// Something that a class file may hold and that is left out here. Of several things the one at the
/// least member counts, no member being before all members, and at one member the first kind.
#[derive(Clone, Copy, PartialEq, Eq)]
pub struct LeftOut {
    /// The number of the member, from 0: fields first, then methods. Without one it is the class's own.
    pub member: Option<u32>,
    pub kind: LeftKind,
}

/// What is left out.
#[derive(Clone, Copy, PartialEq, Eq)]
pub enum LeftKind {
    /// A native method, or a class that is an annotation or an enum (JVMS 4.1 and 4.6).
    Flag,
    /// A constant of the kind Float, Double, MethodHandle, MethodType or InvokeDynamic, used or not; an
    /// instruction that loads a class, a float or a double; or invokedynamic (JVMS 4.4 and 6.5).
    Constant,
    /// An instruction on float or double, newarray of one among them, or on monitors (JVMS 6.5).
    Opcode,
    /// A float or double in a frame (JVMS 4.7.4).
    FloatType,
}
