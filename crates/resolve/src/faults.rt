//! Why names mean nothing. Each refusal prints as its name and its number.
ghost use Rattle.std.specs.Prelude.{◌≡◌};
ghost use Rattle.resolve.specs.declared.faults.ResolveFault.TheVariants as resolve_fault;

use std::alloc::AllocError;
use thiserror::Error;

/// Why the names of loaded objects could not be resolved. A name is the symbol's, as its object spells it.
#[derive(Debug, Drop, Error)]
pub enum ResolveFault {
    #[error("Memory (1)")]
    Memory,
    #[error("Duplicate (2)")]
    Duplicate(Vec<u8>),
    #[error("BadCommon (3)")]
    BadCommon,
    #[error("BadSymbol (4)")]
    BadSymbol,
}

impl From<AllocError> for ResolveFault {
    ghost from_gives = { λ _ fault. fault ≡ resolve_fault.Memory };

    fn from(_error: AllocError) -> ResolveFault {
        ResolveFault::Memory
    }
}
