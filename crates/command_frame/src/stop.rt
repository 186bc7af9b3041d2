// Why a command ends without its result.
ghost use Rattle.std.specs.Prelude.{◌≡◌};
ghost use Rattle.command_frame.specs.declared.stop.Stop.TheVariants.{OutOfMemory as no_memory};

use crate::Refusal;
use jv_base::OutOfMemory;
use std::alloc::AllocError;

/// Why a command ends without its result.
#[derive(Drop)]
pub enum Stop {
    Refused(Refusal),
    /// A device failed.
    Device,
    OutOfMemory,
}

impl From<AllocError> for Stop {
    ghost from_gives = { λ _ stop. stop ≡ no_memory };

    fn from(_: AllocError) -> Self {
        Stop::OutOfMemory
    }
}

impl From<OutOfMemory> for Stop {
    ghost from_gives = { λ _ stop. stop ≡ no_memory };

    fn from(_: OutOfMemory) -> Self {
        Stop::OutOfMemory
    }
}
