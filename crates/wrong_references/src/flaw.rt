//! A flaw of references: what is wrong, and the numbers that say where.
ghost use Rattle.std.specs.Prelude.{◌≡◌};
ghost use Rattle.wrong_references.specs.References.{counted};

use relocate::RelocationFault;
use std::alloc::AllocError;

/// An entry of an object: the number of the RELA section that it is in, and its own in there, each from 0.
#[derive(Clone, Copy, Debug, PartialEq, Eq)]
pub struct EntryNumber {
    pub table: u64,
    pub number: u64,
}

/// What refuses the link of loaded objects whose names are resolved. Objects go by their numbers in load order, from 0.
#[derive(Clone, Copy, Debug, PartialEq, Eq)]
pub enum ReferenceFlaw {
    /// A kept relocation of an object that isn't lawful. One to an undefined name is the first to that name, and the last number
    /// is how many others there are; else that is 0.
    Relocation(u64, EntryNumber, RelocationFault, u64),
    /// The entry, which has no definition outside thread-local storage.
    Entry,
    /// Two kept relocations of an object whose fields share a byte.
    Overlap(u64, EntryNumber, EntryNumber),
}

impl ReferenceFlaw {
    /// The same with one more reference to its name; a count that is the greatest number stays.
    pub(crate) fn counted(self) -> ReferenceFlaw
        ensures { result ≡ counted self }
    {
        match self {
            ReferenceFlaw::Relocation(object, entry, fault, others) => {
                ReferenceFlaw::Relocation(object, entry, fault, others.saturating_add(1))
            }
            _ => self,
        }
    }
}

/// Whether there was memory for what was to be added.
pub(crate) type Added = Result<(), AllocError>;
