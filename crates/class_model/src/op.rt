// Instructions by families (JVMS 6.5).
use jv_base::{Base, FieldType, Items, Name, Shared, Text, Units};

/// The type of the numbers that an instruction computes with.
#[derive(Clone, Copy, PartialEq, Eq)]
pub enum Num {
    Int,
    Long,
}

/// The type of a value that an instruction moves: an int, a long or a reference. An int may be a
/// boolean, byte, char or short.
#[derive(Clone, Copy, PartialEq, Eq)]
pub enum Kind {
    Int,
    Long,
    Ref,
}

/// The element type of an array. `Byte` is byte or boolean.
#[derive(Clone, Copy, PartialEq, Eq)]
pub enum Elem {
    Int,
    Long,
    Ref,
    Byte,
    Char,
    Short,
}

/// Arithmetic of two numbers.
#[derive(Clone, Copy, PartialEq, Eq)]
pub enum ArithOp {
    Add,
    Sub,
    Mul,
    Div,
    Rem,
}

/// A shift: left, right, and right without the sign.
#[derive(Clone, Copy, PartialEq, Eq)]
pub enum ShiftOp {
    Shl,
    Shr,
    Ushr,
}

/// Logic on the bits of two numbers.
#[derive(Clone, Copy, PartialEq, Eq)]
pub enum LogicOp {
    And,
    Or,
    Xor,
}

/// A conversion between numbers.
#[derive(Clone, Copy, PartialEq, Eq)]
pub enum ConvOp {
    I2l,
    L2i,
    I2b,
    I2c,
    I2s,
}

/// A comparison of an int with 0, or of two ints.
#[derive(Clone, Copy, PartialEq, Eq)]
pub enum Cond {
    Eq,
    Ne,
    Lt,
    Ge,
    Gt,
    Le,
}

/// A case of a LookupSwitch: a key, and the instruction to which it leads.
#[derive(Clone, Copy, PartialEq, Eq)]
pub struct Case {
    pub key: i32,
    pub to: u32,
}

/// A symbolic reference to a field or a method (JVMS 4.4.2).
#[derive(Clone, Drop, PartialEq, Eq)]
pub struct MemberRef {
    /// The class, interface or array type that it names.
    pub class: FieldType,
    pub name: Name,
    /// The descriptor of the member (JVMS 4.3).
    pub ty: Text,
    /// Whether the entry is an InterfaceMethodref.
    pub of_interface: bool,
}

/// An instruction (JVMS 6.5), whichever of its spellings the class file has. A target is the number of
/// an instruction of the code, a slot the number of a local variable. What takes more than a few bytes is shared,
/// so an instruction is small, and those of one constant of the pool hold it together.
#[derive(Drop)]
pub enum Op {
    /// nop.
    Nop,
    /// aconst_null.
    PushNull,
    /// iconst_<i>, bipush, sipush, and ldc and ldc_w of an int.
    PushInt(i32),
    /// lconst_<l>, and ldc2_w of a long.
    PushLong(i64),
    /// ldc and ldc_w of a string, in UTF-16.
    PushText(Shared<Units>),
    /// iload, lload and aload, of a slot.
    Load(Kind, u16),
    /// istore, lstore and astore, to a slot.
    Store(Kind, u16),
    /// iinc: a slot, and what is added.
    Inc(u16, i16),
    /// iaload, laload, aaload, baload, caload and saload.
    ALoad(Elem),
    /// iastore, lastore, aastore, bastore, castore and sastore.
    AStore(Elem),
    /// pop.
    Pop,
    /// pop2.
    Pop2,
    /// dup.
    Dup,
    /// dup_x1.
    DupX1,
    /// dup_x2.
    DupX2,
    /// dup2.
    Dup2,
    /// dup2_x1.
    Dup2X1,
    /// dup2_x2.
    Dup2X2,
    /// swap.
    Swap,
    /// iadd, ladd and the like.
    Arith(ArithOp, Num),
    /// ineg and lneg.
    Neg(Num),
    /// ishl, lshl and the like.
    Shift(ShiftOp, Num),
    /// iand, land and the like.
    Logic(LogicOp, Num),
    /// i2l, l2i, i2b, i2c and i2s.
    Conv(ConvOp),
    /// lcmp.
    LCmp,
    /// if<cond>: a comparison of an int with 0, and the target.
    IfZero(Cond, u32),
    /// if_icmp<cond>: a comparison of two ints, and the target.
    IfCmp(Cond, u32),
    /// if_acmpeq, and if_acmpne where `eq` is false.
    IfRef {
        eq: bool,
        to: u32,
    },
    /// ifnull, and ifnonnull where `null` is false.
    IfNull {
        null: bool,
        to: u32,
    },
    /// goto and goto_w: the target.
    Goto(u32),
    /// tableswitch: the least key, the default target, and the targets of the keys in ascending order.
    TableSwitch {
        low: i32,
        other: u32,
        cases: Shared<Items<u32>>,
    },
    /// lookupswitch: the default target, and the cases.
    LookupSwitch {
        other: u32,
        cases: Shared<Items<Case>>,
    },
    /// ireturn, lreturn, areturn, and return where nothing is returned.
    Return(Option<Kind>),
    /// getstatic.
    GetStatic(Shared<MemberRef>),
    /// putstatic.
    PutStatic(Shared<MemberRef>),
    /// getfield.
    GetField(Shared<MemberRef>),
    /// putfield.
    PutField(Shared<MemberRef>),
    /// invokevirtual.
    InvokeVirtual(Shared<MemberRef>),
    /// invokespecial.
    InvokeSpecial(Shared<MemberRef>),
    /// invokestatic.
    InvokeStatic(Shared<MemberRef>),
    /// invokeinterface. Its count follows from the descriptor.
    InvokeInterface(Shared<MemberRef>),
    /// new: the class.
    New(Name),
    /// newarray: the type of the elements.
    NewArray(Base),
    /// anewarray: the type of the elements.
    ANewArray(Shared<FieldType>),
    /// arraylength.
    ArrayLength,
    /// athrow.
    Throw,
    /// checkcast: the type.
    CheckCast(Shared<FieldType>),
    /// instanceof: the type.
    InstanceOf(Shared<FieldType>),
    /// multianewarray: the type of the array, and how many of its dimensions are made.
    MultiNewArray(Shared<FieldType>, u8),
}
