// What a frame does at an instruction, and what it asks (JVMS 6.5).
use class_model::{Elem, MemberRef};
use jv_base::{Base, FieldType, Items, Name};
use run_values::Value;

/// What a frame does at its instruction.
#[derive(Drop)]
pub enum Outcome<'a> {
    /// It was changed, and goes on.
    Moves,
    /// It asks, and waits without the operands that it gave.
    Wants(Request<'a>),
    /// Its method returns, with a value or without.
    Ends(Option<Value>),
    /// It throws a reference.
    Tosses(Value),
    /// An operand is missing or of another kind.
    Stuck,
}

/// What a frame asks of all that lies outside the frames. Operands stand in their order, an object or an array first.
#[derive(Drop)]
pub enum Request<'a> {
    /// A value that is known.
    Known(Value),
    /// An ArithmeticException, since a divisor is zero.
    DividesByZero,
    GetStatic(&'a MemberRef),
    PutStatic(&'a MemberRef, Value),
    GetField(&'a MemberRef, Value),
    PutField(&'a MemberRef, Value, Value),
    CallStatic(&'a MemberRef, Items<Value>),
    CallSpecial(&'a MemberRef, Items<Value>),
    CallVirtual(&'a MemberRef, Items<Value>),
    CallInterface(&'a MemberRef, Items<Value>),
    New(&'a Name),
    /// An array of so many components of a type without dimensions.
    NewBaseArray(&'a Base, i32),
    /// An array of so many components of a type.
    NewArray(&'a FieldType, i32),
    /// Arrays of a type, with so many components in each of their first dimensions.
    NewArrays(&'a FieldType, Items<i32>),
    ArrayLength(Value),
    GetAt(Elem, Value, i32),
    PutAt(Elem, Value, i32, Value),
    Cast(&'a FieldType, Value),
    Test(&'a FieldType, Value),
}
