//! The faults of the layers as a link's.
ghost use Rattle.std.specs.Prelude.{◌≡◌};
ghost use Rattle.linker.specs.Refusals as refusals;

use elf_model::{CmdFault, LinkError};
use layout::LayoutFault;
use relocate::RelocFault;
use resolve::ResolveFault;
use search::SearchFault;

/// A fault of the words as a link's.
pub fn command_error(fault: CmdFault) -> LinkError
    ensures { result ≡ refusals.of_command fault }
{
    match fault {
        CmdFault::Memory => LinkError::Memory,
        other => LinkError::Command(other),
    }
}

/// A fault of loading as a link's.
pub fn search_error(fault: SearchFault) -> LinkError
    ensures { result ≡ refusals.of_search fault }
{
    match fault {
        SearchFault::Memory => LinkError::Memory,
        SearchFault::FileMissing => LinkError::FileMissing,
        SearchFault::BadObject(fault) => LinkError::BadObject(fault),
        SearchFault::BadArchive(fault) => LinkError::BadArchive(fault),
        SearchFault::NoIndex => LinkError::NoIndex,
        SearchFault::Group(fault) => LinkError::BadGroup(fault),
    }
}

/// A fault of the names as a link's.
pub fn resolve_error(fault: ResolveFault) -> LinkError
    ensures { result ≡ refusals.of_resolve fault }
{
    match fault {
        ResolveFault::Memory => LinkError::Memory,
        ResolveFault::Duplicate(name) => LinkError::Duplicate(name),
        ResolveFault::BadCommon => LinkError::BadCommon,
        ResolveFault::BadSymbol => LinkError::BadSymbol,
    }
}

/// A fault of the layout as a link's.
pub fn layout_error(fault: LayoutFault) -> LinkError
    ensures { result ≡ refusals.of_layout fault }
{
    match fault {
        LayoutFault::Memory => LinkError::Memory,
        LayoutFault::SectionKind => LinkError::SectionKind,
        LayoutFault::TooLarge => LinkError::TooLarge,
    }
}

/// A fault of the relocations as a link's.
pub fn reloc_error(fault: RelocFault) -> LinkError
    ensures { result ≡ refusals.of_reloc fault }
{
    match fault {
        RelocFault::Memory => LinkError::Memory,
        RelocFault::Undefined(name) => LinkError::Undefined(name),
        RelocFault::RefToDropped => LinkError::RefToDropped,
        RelocFault::RelocKind => LinkError::RelocKind,
        RelocFault::FieldOutside => LinkError::FieldOutside,
        RelocFault::OverlappingFields => LinkError::OverlappingFields,
        RelocFault::Overflow => LinkError::Overflow,
        RelocFault::TlsMismatch => LinkError::TlsMismatch,
        RelocFault::MixedSection => LinkError::MixedSection,
    }
}
