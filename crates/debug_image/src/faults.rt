//! Why a debuggable image was not made.
ghost use Rattle.std.specs.Prelude.{◌≡◌};
ghost use Rattle.debug_image.specs.declared.faults.DebugFault.TheVariants as fault;

use std::alloc::{AllocError, AllocFailed};
use thiserror::Error;

/// Why a debuggable image was not made.
#[derive(Clone, Copy, Debug, Drop, Error)]
pub enum DebugFault {
    /// Memory was refused.
    #[error("Memory (1)")]
    Memory,
    /// There are 65,280 sections or more, 2^32 bytes or more of symbols or of names, or more than 2^40 bytes of debug data of a
    /// name.
    #[error("TooLarge (2)")]
    TooLarge,
}

impl From<AllocError> for DebugFault {
    ghost from_gives = { λ _ f. f ≡ fault.Memory };

    fn from(_error: AllocError) -> DebugFault {
        DebugFault::Memory
    }
}

impl<T: Drop> From<AllocFailed<T>> for DebugFault {
    ghost from_gives = { λ _ f. f ≡ fault.Memory };

    fn from(_error: AllocFailed<T>) -> DebugFault {
        DebugFault::Memory
    }
}
