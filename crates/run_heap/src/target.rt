// What a call runs (JVMS 6.5).
use crate::Key;
use run_library::{Exception, Row};

/// What a call runs.
#[derive(Clone, Drop)]
pub enum Target {
    /// A method of the program.
    Program(Key),
    /// A method of the library.
    Library(Row),
    /// Nothing, and an exception is due.
    Fails(Exception),
}
