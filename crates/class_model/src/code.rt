// The code of a method (JVMS 4.7.3).
use crate::{Frames, Op};
use jv_base::{Items, Name};

/// The attribute Code. Its instructions are numbered from 0, and places in it are such numbers.
pub struct Code {
    /// How many words the operand stack takes at most.
    pub max_stack: u16,
    /// How many words the local variables take.
    pub max_locals: u16,
    pub ins: Items<Ins>,
    /// The exception table: of the handlers that cover an instruction and catch a class the first counts.
    pub handlers: Items<Handler>,
    /// The frames of the attribute StackMapTable, ascending (JVMS 4.7.4).
    pub frames: Frames,
}

/// Written out, as that of a class is.
impl Drop for Code {
    fn drop(self) {
        let Code {
            max_stack: _,
            max_locals: _,
            ins: _,
            handlers: _,
            frames: _,
        } = self;
    }
}

/// An instruction with its line of the source, as LineNumberTable tells it (JVMS 4.7.12).
#[derive(Drop)]
pub struct Ins {
    pub op: Op,
    pub line: Option<u16>,
}

/// An exception handler, a row of the exception table (JVMS 4.7.3).
#[derive(Drop)]
pub struct Handler {
    /// The first instruction that it covers.
    pub from: u32,
    /// The instruction behind the last that it covers, or the number of instructions.
    pub to: u32,
    /// The instruction at which it begins.
    pub entry: u32,
    /// The class that it catches with its subclasses. Without one it catches everything.
    pub caught: Option<Name>,
}
