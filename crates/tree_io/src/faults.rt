// What a call of a tree or a sink answers where it isn't Ok.
ghost use Rattle.std.specs.Prelude.{◌≡◌};
ghost use Rattle.tree_io.specs.declared.faults.ListFault.TheVariants as listed;
ghost use Rattle.tree_io.specs.declared.faults.ReadFault.TheVariants as read;
ghost use Rattle.tree_io.specs.declared.faults.WriteFault.TheVariants as written;
ghost use Rattle.tree_io.specs.declared.faults.PutFault.TheVariants as appended;

use std::alloc::AllocError;
use thiserror::Error;

/// Why there is no list of the paths below a directory.
#[derive(Clone, Copy, Debug, Error, PartialEq, Eq)]
pub enum ListFault {
    /// There are more paths than were asked for.
    #[error("there are more paths than were asked for")]
    TooMany,
    /// The device failed, and the tree's count of faults has risen.
    #[error("the device failed")]
    Failed,
    #[error("memory is wanting")]
    OutOfMemory,
}

/// Why a file's bytes aren't given.
#[derive(Clone, Copy, Debug, Error, PartialEq, Eq)]
pub enum ReadFault {
    /// No file stands at the path.
    #[error("no file stands at the path")]
    Absent,
    /// The file has more bytes than were asked for.
    #[error("the file has more bytes than were asked for")]
    TooLong,
    /// The device failed, and the tree's count of faults has risen.
    #[error("the device failed")]
    Failed,
    #[error("memory is wanting")]
    OutOfMemory,
}

/// Why a file isn't written.
#[derive(Clone, Copy, Debug, Error, PartialEq, Eq)]
pub enum WriteFault {
    /// The device failed, and the tree's count of faults has risen.
    #[error("the device failed")]
    Failed,
    #[error("memory is wanting")]
    OutOfMemory,
}

/// Why bytes aren't appended.
#[derive(Clone, Copy, Debug, Error, PartialEq, Eq)]
pub enum PutFault {
    /// The device failed, and the sink's count of faults has risen.
    #[error("the device failed")]
    Failed,
    #[error("memory is wanting")]
    OutOfMemory,
}

impl From<AllocError> for ListFault {
    ghost from_gives = { λ _ fault. fault ≡ listed.OutOfMemory };

    fn from(_: AllocError) -> Self {
        ListFault::OutOfMemory
    }
}

impl From<AllocError> for ReadFault {
    ghost from_gives = { λ _ fault. fault ≡ read.OutOfMemory };

    fn from(_: AllocError) -> Self {
        ReadFault::OutOfMemory
    }
}

impl From<AllocError> for WriteFault {
    ghost from_gives = { λ _ fault. fault ≡ written.OutOfMemory };

    fn from(_: AllocError) -> Self {
        WriteFault::OutOfMemory
    }
}

impl From<AllocError> for PutFault {
    ghost from_gives = { λ _ fault. fault ≡ appended.OutOfMemory };

    fn from(_: AllocError) -> Self {
        PutFault::OutOfMemory
    }
}

/// The device failed, and its count of faults has still to rise.
#[derive(Clone, Copy, Debug)]
pub struct DeviceFailed;
