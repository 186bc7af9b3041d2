// Want of memory, beside faults.
ghost use Rattle.std.specs.Prelude.{◌≡◌};
ghost use Rattle.jv_base.specs.declared.outcome.Or.TheVariants.{OutOfMemory as no_memory};

use std::alloc::{AllocError, AllocFailed};

/// Memory is wanting. It is merged with no fault.
#[derive(Clone, Copy, Debug, PartialEq, Eq)]
pub struct OutOfMemory;

/// A fault, or want of memory.
#[derive(Debug, Drop, PartialEq, Eq)]
pub enum Or<X> {
    Fault(X),
    OutOfMemory,
}

/// What a call answers whose one failure is want of memory.
pub type M<T> = Result<T, OutOfMemory>;

impl From<AllocError> for OutOfMemory {
    fn from(_: AllocError) -> Self {
        OutOfMemory
    }
}

impl<T: Drop> From<AllocFailed<T>> for OutOfMemory {
    fn from(_: AllocFailed<T>) -> Self {
        OutOfMemory
    }
}

impl<X> From<AllocError> for Or<X> {
    ghost from_gives = { λ _ e. e ≡ no_memory };

    fn from(_: AllocError) -> Self {
        Or::OutOfMemory
    }
}

impl<X, T: Drop> From<AllocFailed<T>> for Or<X> {
    ghost from_gives = { λ _ e. e ≡ no_memory };

    fn from(_: AllocFailed<T>) -> Self {
        Or::OutOfMemory
    }
}

impl<X> From<OutOfMemory> for Or<X> {
    ghost from_gives = { λ _ e. e ≡ no_memory };

    fn from(_: OutOfMemory) -> Self {
        Or::OutOfMemory
    }
}
