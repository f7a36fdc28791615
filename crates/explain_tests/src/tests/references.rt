//! Flaws of references: all of them, in load order, of an undefined name the first with the number of the others.
use command::read_words;
use elf_model::{InputFile, NameSeed};
use link_samples::links::{File, files_of};
use link_samples::objects::{NamedSymbol, Relocation, Section};
use link_samples::one_object::words_of;
use link_samples::parts::{NO_F, R_PC32, START, TEXT};
use relocate::RelocationFault;
use resolve::resolve;
use search::load_seeded;
use std::alloc::Global;
use std::test::Fail;
use wrong_references::{EntryNumber, ReferenceFlaw, reference_flaws};

const LONG_TEXT: Section<'static> = Section {
    bytes: &[0x90; 24],
    ..TEXT
};

const NO_G: NamedSymbol<'static> = NamedSymbol { name: "g", ..NO_F };

/// R_X86_64_COPY, which isn't linked.
const COPY: u32 = 5;

/// Two objects that both ask for `f` and `g`, each of them twice in the first one, and have a relocation of no kind; in the second
/// one the fields of three follow each other by less than they are wide.
const FILES: [File; 2] = [
    File::Object(
        "a.o",
        &[LONG_TEXT],
        &[START, NO_F, NO_G],
        &[
            Relocation(1, 0, R_PC32, 2, 0),
            Relocation(1, 4, COPY, 1, 0),
            Relocation(1, 8, R_PC32, 2, 0),
            Relocation(1, 12, R_PC32, 3, 0),
            Relocation(1, 16, R_PC32, 3, 0),
        ],
    ),
    File::Object(
        "b.o",
        &[LONG_TEXT],
        &[NO_G, NO_F],
        &[
            Relocation(1, 0, R_PC32, 1, 0),
            Relocation(1, 4, R_PC32, 2, 0),
            Relocation(1, 8, COPY, 2, 0),
            Relocation(1, 16, R_PC32, 2, 0),
            Relocation(1, 12, R_PC32, 1, 0),
            Relocation(1, 14, R_PC32, 1, 0),
        ],
    ),
];

/// Entries of section 4, where the relocations of both are.
const ENTRY_0: EntryNumber = EntryNumber {
    table: 4,
    number: 0,
};

const ENTRY_1: EntryNumber = EntryNumber {
    table: 4,
    number: 1,
};

const ENTRY_2: EntryNumber = EntryNumber {
    table: 4,
    number: 2,
};

const ENTRY_3: EntryNumber = EntryNumber {
    table: 4,
    number: 3,
};

const ENTRY_4: EntryNumber = EntryNumber {
    table: 4,
    number: 4,
};

const ENTRY_5: EntryNumber = EntryNumber {
    table: 4,
    number: 5,
};

/// Words that name an entry which isn't there, and one that is, and the flaws by these.
const ROWS: [(&str, &[ReferenceFlaw]); 2] = [
    (
        "a.o b.o -e x",
        &[
            ReferenceFlaw::Relocation(0, ENTRY_0, RelocationFault::Undefined, 3),
            ReferenceFlaw::Relocation(0, ENTRY_1, RelocationFault::RelocKind, 0),
            ReferenceFlaw::Relocation(0, ENTRY_3, RelocationFault::Undefined, 4),
            ReferenceFlaw::Relocation(1, ENTRY_2, RelocationFault::RelocKind, 0),
            ReferenceFlaw::Entry,
            ReferenceFlaw::Overlap(1, ENTRY_4, ENTRY_5),
            ReferenceFlaw::Overlap(1, ENTRY_5, ENTRY_3),
        ],
    ),
    (
        "b.o a.o",
        &[
            ReferenceFlaw::Relocation(0, ENTRY_0, RelocationFault::Undefined, 4),
            ReferenceFlaw::Relocation(0, ENTRY_1, RelocationFault::Undefined, 3),
            ReferenceFlaw::Relocation(0, ENTRY_2, RelocationFault::RelocKind, 0),
            ReferenceFlaw::Relocation(1, ENTRY_1, RelocationFault::RelocKind, 0),
            ReferenceFlaw::Overlap(0, ENTRY_4, ENTRY_5),
            ReferenceFlaw::Overlap(0, ENTRY_5, ENTRY_3),
        ],
    ),
];

/// The flaws of references of the link of files by the words of a line.
fn flaws_of(alloc: Global, files: &[InputFile], line: &str) -> Result<Vec<ReferenceFlaw>, Fail> {
    let line = words_of(alloc, line)?;
    let plan = read_words(alloc, line.as_slice())?;
    let loaded = load_seeded(alloc, &plan, files, NameSeed::fixed())?;
    let resolved = resolve(alloc, &loaded)?;
    Ok(reference_flaws(alloc, &loaded, &resolved)?)
}

#[test]
fn flaws_of_references_are_all_told(rt: HostRuntime) -> Result<(), Fail> {
    let files = files_of(rt.alloc(), &FILES)?;
    for (line, wanted) in &ROWS {
        let flaws = flaws_of(rt.alloc(), &files, line)?;
        assert_eq!(rt; flaws.as_slice(), *wanted, "{line}");
    }
    Ok(())
}
