// Why bytes are no frames.
use thiserror::Error;

/// The first fault of the contents of a StackMapTable (JVMS 4.7.4).
#[derive(Clone, Copy, Debug, Error, PartialEq, Eq)]
pub enum FrameFault {
    /// The row at this offset has no known form, names no instruction, type or `new`, takes more locals than there
    /// are, or is too large.
    #[error("BadFrame at byte {0}")]
    BadFrame(u32),
    /// The bytes end inside the row at this offset, or inside the count of rows, where the offset is how many bytes
    /// there are.
    #[error("Cut at byte {0}")]
    Cut(u32),
    /// Bytes follow the last row, the first of them at this offset.
    #[error("Trailing at byte {0}")]
    Trailing(u32),
}
