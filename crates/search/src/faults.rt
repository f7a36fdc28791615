//! Why nothing is loaded. Each refusal prints as its name and its number.
ghost use Rattle.std.specs.Prelude.{◌≡◌};
ghost use Rattle.search.specs.Faults.{of_groups, of_object, of_opening};
ghost use Rattle.search.specs.declared.faults.SearchFault.TheVariants as search_fault;

use elf_model::{ArFault, GroupFault, ObjFault};
use opening::OpenFault;
use std::alloc::{AllocError, AllocFailed};
use thiserror::Error;

/// Why the objects of a plan could not be loaded.
#[derive(Clone, Copy, Debug, Error)]
pub enum SearchFault {
    #[error("Memory (1)")]
    Memory,
    #[error("FileMissing (2)")]
    FileMissing,
    #[error("BadObject (3): {0}")]
    BadObject(ObjFault),
    #[error("BadArchive (4): {0}")]
    BadArchive(ArFault),
    #[error("NoIndex (5)")]
    NoIndex,
    #[error("Group (6): {0}")]
    Group(GroupFault),
}

impl From<AllocError> for SearchFault {
    ghost from_gives = { λ _ fault. fault ≡ search_fault.Memory };

    fn from(_error: AllocError) -> SearchFault {
        SearchFault::Memory
    }
}

impl<T: Drop> From<AllocFailed<T>> for SearchFault {
    ghost from_gives = { λ _ fault. fault ≡ search_fault.Memory };

    fn from(_error: AllocFailed<T>) -> SearchFault {
        SearchFault::from(AllocError)
    }
}

impl From<OpenFault> for SearchFault {
    ghost from_gives = { λ opening fault. fault ≡ of_opening opening };

    fn from(fault: OpenFault) -> SearchFault {
        match fault {
            OpenFault::Memory => SearchFault::Memory,
            OpenFault::FileMissing => SearchFault::FileMissing,
            OpenFault::BadArchive(fault) => SearchFault::BadArchive(fault),
            OpenFault::NoIndex => SearchFault::NoIndex,
        }
    }
}

/// A fault of an object as one of loading.
pub fn object_fault(fault: ObjFault) -> SearchFault
    ensures { result ≡ of_object fault }
{
    match fault {
        ObjFault::Memory => SearchFault::Memory,
        other => SearchFault::BadObject(other),
    }
}

/// A fault of groups as one of loading.
pub fn group_fault(fault: GroupFault) -> SearchFault
    ensures { result ≡ of_groups fault }
{
    match fault {
        GroupFault::Memory => SearchFault::Memory,
        other => SearchFault::Group(other),
    }
}
