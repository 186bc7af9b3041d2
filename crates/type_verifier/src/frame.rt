// The frame of type checking (JVMS 4.10.1.4).
use crate::locals::Locals;
use crate::stack::Stack;

/// What the locals and the stack hold, and whether the object that a constructor makes isn't initialised yet.
#[derive(Drop)]
pub struct TypeFrame {
    /// One for each word: behind a long stands Top.
    pub locals: Locals,
    /// The top first.
    pub stack: Stack,
    /// The flag flagThisUninit (JVMS 4.10.1.4): it is on until another constructor was called on `this`.
    pub marked: bool,
}
