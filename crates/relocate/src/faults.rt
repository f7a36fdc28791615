//! The numbered refusals of relocations. Each prints as its name and its number.
ghost use Rattle.std.specs.Prelude.{◌≡◌};
ghost use Rattle.relocate.specs.declared.faults.RelocFault.TheVariants as reloc_fault;

use std::alloc::{AllocError, AllocFailed};
use thiserror::Error;

/// Why relocations were refused. A name is the symbol's, as its object spells it.
#[derive(Debug, Drop, Error)]
pub enum RelocFault {
    #[error("Memory (1)")]
    Memory,
    #[error("Undefined (2)")]
    Undefined(Vec<u8>),
    #[error("RefToDropped (3)")]
    RefToDropped,
    #[error("RelocKind (4)")]
    RelocKind,
    #[error("FieldOutside (5)")]
    FieldOutside,
    #[error("OverlappingFields (6)")]
    OverlappingFields,
    #[error("Overflow (7)")]
    Overflow,
    #[error("TlsMismatch (8)")]
    TlsMismatch,
    #[error("MixedSection (9)")]
    MixedSection,
}

/// What is wrong with one relocation.
#[derive(Clone, Copy, Debug, PartialEq, Eq)]
pub enum RelocationFault {
    /// Its symbol has no definition, and needs one.
    Undefined,
    /// It names a LOCAL symbol of a section that isn't kept.
    RefToDropped,
    /// Its type is no kind.
    RelocKind,
    /// Its field isn't inside its section.
    FieldOutside,
    /// Its kind isn't for what its symbol is, of thread-local storage or not.
    TlsMismatch,
    /// It uses a bound of an output name of several output sections.
    MixedSection,
}

impl From<AllocError> for RelocFault {
    ghost from_gives = { λ _ fault. fault ≡ reloc_fault.Memory };

    fn from(_error: AllocError) -> RelocFault {
        RelocFault::Memory
    }
}

impl<T: Drop> From<AllocFailed<T>> for RelocFault {
    ghost from_gives = { λ _ fault. fault ≡ reloc_fault.Memory };

    fn from(_error: AllocFailed<T>) -> RelocFault {
        RelocFault::from(AllocError)
    }
}
