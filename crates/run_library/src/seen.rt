// What a method of the library sees, and what it does (Java SE 8 API).
use crate::Exception;
use jv_base::Units;
use run_values::Value;

/// An operand as a method of the library sees it.
#[derive(Clone, Copy)]
pub enum Seen<'a> {
    Null,
    Int(i32),
    Long(i64),
    /// A string: the reference to it, and its UTF-16 units.
    Text(&'a Value, &'a [u16]),
    /// A StringBuilder: its number, and its UTF-16 units.
    Builder(usize, &'a [u16]),
    /// Another object of a class: its number, and the message and the cause that an exception has.
    Instance(usize, &'a Value, &'a Value),
    /// An array, by its number.
    Array(usize),
}

/// What a method of the library does.
#[derive(Drop)]
pub enum Act {
    /// It returns a value or nothing.
    Returns(Option<Value>),
    /// It makes a string and returns it.
    MakesText(Units),
    /// It gives the StringBuilder with a number these units.
    SetsBuilder(usize, Units),
    /// It appends units to its first operand, a StringBuilder, and returns it.
    Appends(Units),
    /// It gives the exception with a number a message and a cause.
    SetsThrown(usize, Value, Value),
    /// It writes to the stream.
    Writes(Units),
    /// It throws an exception that it makes.
    Throws(Exception),
    /// An operand is missing or of another kind.
    NoAct,
}
