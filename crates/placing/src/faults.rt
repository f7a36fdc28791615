//! Why nothing is laid out. Each refusal prints as its name and its number.
ghost use Rattle.std.specs.Prelude.{◌≡◌};
ghost use Rattle.placing.specs.declared.faults.LayoutFault.TheVariants as layout_fault;

use std::alloc::{AllocError, AllocFailed};
use thiserror::Error;

/// Why loaded objects could not be laid out.
#[derive(Clone, Copy, Debug, Error)]
pub enum LayoutFault {
    #[error("Memory (1)")]
    Memory,
    #[error("SectionKind (2)")]
    SectionKind,
    #[error("TooLarge (3)")]
    TooLarge,
}

impl From<AllocError> for LayoutFault {
    ghost from_gives = { λ _ fault. fault ≡ layout_fault.Memory };

    fn from(_error: AllocError) -> LayoutFault {
        LayoutFault::Memory
    }
}

impl<T: Drop> From<AllocFailed<T>> for LayoutFault {
    ghost from_gives = { λ _ fault. fault ≡ layout_fault.Memory };

    fn from(_error: AllocFailed<T>) -> LayoutFault {
        LayoutFault::from(AllocError)
    }
}
