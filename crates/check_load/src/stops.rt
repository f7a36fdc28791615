//! Why nothing is loaded.
ghost use Rattle.std.specs.Prelude.{◌≡◌};
ghost use Rattle.check_load.specs.Stops.{stop_of};
ghost use Rattle.check_load.specs.declared.stops.Stop.TheVariants as stop;

use opening::OpenFault;
use std::alloc::{AllocError, AllocFailed};

/// Why the objects of a plan could not be loaded.
#[derive(Clone, Copy)]
pub enum Stop {
    /// A growth was refused.
    Memory,
    /// A condition of loading fails.
    Unlawful,
}

impl From<AllocError> for Stop {
    ghost from_gives = { λ _ s. s ≡ stop.Memory };

    fn from(_error: AllocError) -> Stop {
        Stop::Memory
    }
}

impl<T: Drop> From<AllocFailed<T>> for Stop {
    ghost from_gives = { λ _ s. s ≡ stop.Memory };

    fn from(_error: AllocFailed<T>) -> Stop {
        Stop::from(AllocError)
    }
}

impl From<OpenFault> for Stop {
    ghost from_gives = { λ fault s. s ≡ stop_of fault };

    fn from(fault: OpenFault) -> Stop {
        match fault {
            OpenFault::Memory => Stop::Memory,
            _ => Stop::Unlawful,
        }
    }
}
