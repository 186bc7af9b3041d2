// What a frame is answered that asks for fields, arrays, new objects or calls (JVMS 6.5).
use crate::Key;
use jv_base::Items;
use run_library::Exception;
use run_values::Value;

/// What a frame is answered.
#[derive(Drop)]
pub enum Answer {
    /// It is done, and gives a value or nothing.
    Gives(Option<Value>),
    /// An exception is due; the world is as it was.
    Raises(Exception),
    /// A method of the program begins with these arguments; the world is as it was.
    Begins(Key, Items<Value>),
    /// An operand is of another kind; the world is as it was.
    NoAnswer,
}
