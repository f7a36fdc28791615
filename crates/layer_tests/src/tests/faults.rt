//! Faults print as their name and their number, and refused memory is the fault Memory.
use elf_model::{ArFault, GroupFault, ObjFault};
use layout::LayoutFault;
use relocate::RelocFault;
use resolve::ResolveFault;
use search::SearchFault;
use std::alloc::{AllocError, AllocFailed, Global};
use std::fmt::Display;
use std::test::Fail;

/// The texts of faults, one after the other.
fn texts<F: Display>(alloc: Global, faults: &[F]) -> Result<String, Fail> {
    let mut text = String::new(alloc);
    for fault in faults {
        text.push_str(&format!(in alloc; "{fault};")?)?;
    }
    Ok(text)
}

static LOADING: [SearchFault; 6] = [
    SearchFault::Memory,
    SearchFault::FileMissing,
    SearchFault::BadObject(ObjFault::Truncated),
    SearchFault::BadArchive(ArFault::NotArchive),
    SearchFault::NoIndex,
    SearchFault::Group(GroupFault::BadFlags),
];

static LAYOUTS: [LayoutFault; 3] = [
    LayoutFault::Memory,
    LayoutFault::SectionKind,
    LayoutFault::TooLarge,
];

/// The texts of the faults of names.
fn texts_of_names(alloc: Global) -> Result<String, Fail> {
    let name = Vec::from_slice(alloc, b"f")?;
    let faults = [
        ResolveFault::Memory,
        ResolveFault::Duplicate(name),
        ResolveFault::BadCommon,
        ResolveFault::BadSymbol,
    ];
    texts(alloc, &faults)
}

/// The texts of the refusals of relocations.
fn texts_of_relocations(alloc: Global) -> Result<String, Fail> {
    let name = Vec::from_slice(alloc, b"f")?;
    let faults = [
        RelocFault::Memory,
        RelocFault::Undefined(name),
        RelocFault::RefToDropped,
        RelocFault::RelocKind,
        RelocFault::FieldOutside,
        RelocFault::OverlappingFields,
        RelocFault::Overflow,
        RelocFault::TlsMismatch,
        RelocFault::MixedSection,
    ];
    texts(alloc, &faults)
}

#[test]
fn faults_print_their_number(rt: HostRuntime) -> Result<(), Fail> {
    assert_eq!(rt;
        texts(rt.alloc(), &LOADING)?.as_str(),
        "Memory (1);FileMissing (2);BadObject (3): Truncated (2);BadArchive (4): NotArchive (2);NoIndex (5);Group (6): BadFlags (3);"
    );
    assert_eq!(rt;
        texts_of_names(rt.alloc())?.as_str(),
        "Memory (1);Duplicate (2);BadCommon (3);BadSymbol (4);"
    );
    assert_eq!(rt;
        texts(rt.alloc(), &LAYOUTS)?.as_str(),
        "Memory (1);SectionKind (2);TooLarge (3);"
    );
    assert_eq!(rt;
        texts_of_relocations(rt.alloc())?.as_str(),
        "Memory (1);Undefined (2);RefToDropped (3);RelocKind (4);FieldOutside (5);OverlappingFields (6);Overflow (7);TlsMismatch (8);MixedSection (9);"
    );
    Ok(())
}

/// What `push` answers where memory is refused.
fn no_room() -> AllocFailed<u8> {
    AllocFailed { value: 1 }
}

#[test]
fn refused_memory_is_the_fault_memory(rt: HostRuntime) {
    let found = [
        matches!(SearchFault::from(AllocError), SearchFault::Memory),
        matches!(SearchFault::from(no_room()), SearchFault::Memory),
        matches!(&ResolveFault::from(AllocError), ResolveFault::Memory),
        matches!(LayoutFault::from(AllocError), LayoutFault::Memory),
        matches!(LayoutFault::from(no_room()), LayoutFault::Memory),
        matches!(&RelocFault::from(AllocError), RelocFault::Memory),
        matches!(&RelocFault::from(no_room()), RelocFault::Memory),
    ];
    assert_eq!(rt; found, [true; 7]);
}
