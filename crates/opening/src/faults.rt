//! Why the items of a plan can't be read.
ghost use Rattle.std.specs.Prelude.{◌≡◌};
ghost use Rattle.opening.specs.Faults.{of_archive};
ghost use Rattle.opening.specs.declared.faults.OpenFault.TheVariants as open_fault;

use elf_model::ArFault;
use std::alloc::{AllocError, AllocFailed};

/// Why the items of a plan could not be read.
#[derive(Clone, Copy, Debug)]
pub enum OpenFault {
    /// A growth was refused.
    Memory,
    /// An item has no file.
    FileMissing,
    /// An item that is to be an archive is none.
    BadArchive(ArFault),
    /// An archive that is to be searched has members, and no index.
    NoIndex,
}

impl From<AllocError> for OpenFault {
    ghost from_gives = { λ _ fault. fault ≡ open_fault.Memory };

    fn from(_error: AllocError) -> OpenFault {
        OpenFault::Memory
    }
}

impl<T: Drop> From<AllocFailed<T>> for OpenFault {
    ghost from_gives = { λ _ fault. fault ≡ open_fault.Memory };

    fn from(_error: AllocFailed<T>) -> OpenFault {
        OpenFault::from(AllocError)
    }
}

/// A fault of an archive as one of an item.
pub fn archive_fault(fault: ArFault) -> OpenFault
    ensures { result ≡ of_archive fault }
{
    match fault {
        ArFault::Memory => OpenFault::Memory,
        other => OpenFault::BadArchive(other),
    }
}
