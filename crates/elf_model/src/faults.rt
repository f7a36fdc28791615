//! The numbered refusals of the readers and of the linker. Each prints as its name and its number.
ghost use Rattle.std.specs.Prelude.{◌≡◌};
ghost use Rattle.elf_model.specs.declared.faults.CmdFault.TheVariants as cmd_fault;
ghost use Rattle.elf_model.specs.declared.faults.ObjFault.TheVariants as obj_fault;
ghost use Rattle.elf_model.specs.declared.faults.ArFault.TheVariants as ar_fault;
ghost use Rattle.elf_model.specs.declared.faults.GroupFault.TheVariants as group_fault;
ghost use Rattle.elf_model.specs.declared.faults.LoadFault.TheVariants as load_fault;
ghost use Rattle.elf_model.specs.declared.faults.MapFault.TheVariants as map_fault;
ghost use Rattle.elf_model.specs.declared.faults.LinkError.TheVariants as link_error;

use std::alloc::{AllocError, AllocFailed};
use thiserror::Error;

/// Why the words are no command.
#[derive(Clone, Copy, Debug, Error)]
pub enum CmdFault {
    #[error("Memory (1)")]
    Memory,
    #[error("UnknownOption (2)")]
    UnknownOption,
    #[error("MissingValue (3)")]
    MissingValue,
    #[error("BadNumber (4)")]
    BadNumber,
    #[error("GroupNesting (5)")]
    GroupNesting,
    #[error("NoInput (6)")]
    NoInput,
    #[error("NotArchiveInGroup (7)")]
    NotArchiveInGroup,
}

/// Why bytes are no object of this profile (docs/PROFILE.md).
#[derive(Clone, Copy, Debug, Error)]
pub enum ObjFault {
    #[error("Memory (1)")]
    Memory,
    #[error("Truncated (2)")]
    Truncated,
    #[error("NotElf64 (3)")]
    NotElf64,
    #[error("NotRelocatable (4)")]
    NotRelocatable,
    #[error("WrongMachine (5)")]
    WrongMachine,
    #[error("BadSectionTable (6)")]
    BadSectionTable,
    #[error("BadSectionRange (7)")]
    BadSectionRange,
    #[error("BadString (8)")]
    BadString,
    #[error("BadSymbolTable (9)")]
    BadSymbolTable,
    #[error("BadRela (10)")]
    BadRela,
    #[error("BadGroup (11)")]
    BadGroup,
    #[error("TooMany (12)")]
    TooMany,
}

/// Why bytes are no archive of this profile (docs/PROFILE.md).
#[derive(Clone, Copy, Debug, Error)]
pub enum ArFault {
    #[error("Memory (1)")]
    Memory,
    #[error("NotArchive (2)")]
    NotArchive,
    #[error("Truncated (3)")]
    Truncated,
    #[error("BadHeader (4)")]
    BadHeader,
    #[error("BadIndex (5)")]
    BadIndex,
    #[error("BadName (6)")]
    BadName,
    #[error("TooMany (7)")]
    TooMany,
}

/// Why the groups of sections of an object are refused (docs/PROFILE.md).
#[derive(Clone, Copy, Debug, Error)]
pub enum GroupFault {
    #[error("Memory (1)")]
    Memory,
    #[error("NamelessSignature (2)")]
    NamelessSignature,
    #[error("BadFlags (3)")]
    BadFlags,
    #[error("TwoGroups (4)")]
    TwoGroups,
}

/// Why bytes are no executable that a loader of this profile maps.
#[derive(Clone, Copy, Debug, Error)]
pub enum LoadFault {
    #[error("Memory (1)")]
    Memory,
    #[error("BadHeader (2)")]
    BadHeader,
    #[error("BadSegment (3)")]
    BadSegment,
    #[error("Order (4)")]
    Order,
    #[error("SharedPage (5)")]
    SharedPage,
}

/// Why a text is no link map: the first line, counted from 1, at which it is no beginning of one.
#[derive(Clone, Copy, Debug, Error)]
pub enum MapFault {
    #[error("Memory (1)")]
    Memory,
    #[error("Line {0} (2)")]
    Line(u64),
}

/// Why a link was refused. A name is the symbol's, as its object spells it.
#[derive(Debug, Drop, Error)]
pub enum LinkError {
    #[error("Memory (1)")]
    Memory,
    #[error("Command (2): {0}")]
    Command(CmdFault),
    #[error("FileMissing (3)")]
    FileMissing,
    #[error("BadObject (4): {0}")]
    BadObject(ObjFault),
    #[error("BadArchive (5): {0}")]
    BadArchive(ArFault),
    #[error("NoIndex (6)")]
    NoIndex,
    #[error("SectionKind (7)")]
    SectionKind,
    #[error("BadGroup (8): {0}")]
    BadGroup(GroupFault),
    #[error("Duplicate (9)")]
    Duplicate(Vec<u8>),
    #[error("Undefined (10)")]
    Undefined(Vec<u8>),
    #[error("RefToDropped (11)")]
    RefToDropped,
    #[error("RelocKind (12)")]
    RelocKind,
    #[error("FieldOutside (13)")]
    FieldOutside,
    #[error("OverlappingFields (14)")]
    OverlappingFields,
    #[error("Overflow (15)")]
    Overflow,
    #[error("TlsMismatch (16)")]
    TlsMismatch,
    #[error("BadCommon (17)")]
    BadCommon,
    #[error("NoEntry (18)")]
    NoEntry,
    #[error("MixedSection (19)")]
    MixedSection,
    #[error("TooLarge (20)")]
    TooLarge,
    #[error("BadSymbol (21)")]
    BadSymbol,
}

impl From<AllocError> for CmdFault {
    ghost from_gives = { λ _ fault. fault ≡ cmd_fault.Memory };

    fn from(_error: AllocError) -> CmdFault {
        CmdFault::Memory
    }
}

impl<T: Drop> From<AllocFailed<T>> for CmdFault {
    ghost from_gives = { λ _ fault. fault ≡ cmd_fault.Memory };

    fn from(_error: AllocFailed<T>) -> CmdFault {
        CmdFault::Memory
    }
}

impl From<AllocError> for ObjFault {
    ghost from_gives = { λ _ fault. fault ≡ obj_fault.Memory };

    fn from(_error: AllocError) -> ObjFault {
        ObjFault::Memory
    }
}

impl From<AllocError> for ArFault {
    ghost from_gives = { λ _ fault. fault ≡ ar_fault.Memory };

    fn from(_error: AllocError) -> ArFault {
        ArFault::Memory
    }
}

impl<T: Drop> From<AllocFailed<T>> for ArFault {
    ghost from_gives = { λ _ fault. fault ≡ ar_fault.Memory };

    fn from(_error: AllocFailed<T>) -> ArFault {
        ArFault::Memory
    }
}

impl From<AllocError> for GroupFault {
    ghost from_gives = { λ _ fault. fault ≡ group_fault.Memory };

    fn from(_error: AllocError) -> GroupFault {
        GroupFault::Memory
    }
}

impl<T: Drop> From<AllocFailed<T>> for GroupFault {
    ghost from_gives = { λ _ fault. fault ≡ group_fault.Memory };

    fn from(_error: AllocFailed<T>) -> GroupFault {
        GroupFault::Memory
    }
}

impl From<AllocError> for LoadFault {
    ghost from_gives = { λ _ fault. fault ≡ load_fault.Memory };

    fn from(_error: AllocError) -> LoadFault {
        LoadFault::Memory
    }
}

impl From<AllocError> for MapFault {
    ghost from_gives = { λ _ fault. fault ≡ map_fault.Memory };

    fn from(_error: AllocError) -> MapFault {
        MapFault::Memory
    }
}

impl From<AllocError> for LinkError {
    ghost from_gives = { λ _ fault. fault ≡ link_error.Memory };

    fn from(_error: AllocError) -> LinkError {
        LinkError::Memory
    }
}

impl<T: Drop> From<AllocFailed<T>> for LinkError {
    ghost from_gives = { λ _ fault. fault ≡ link_error.Memory };

    fn from(_error: AllocFailed<T>) -> LinkError {
        LinkError::Memory
    }
}
