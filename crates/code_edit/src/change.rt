// What an instruction does to a local variable.

/// What an instruction does to the int in the slot of a local variable.
#[derive(Clone, Copy)]
pub enum Change {
    /// It leaves it.
    Keeps,
    /// It puts this int there.
    Becomes(i32),
    /// It adds this number.
    Adds(i16),
    /// It puts something else there.
    Clobbers,
}
