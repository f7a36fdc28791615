//! Links of objects with COMDAT groups (System V gABI 4, "Section Groups"): what is dropped, and what may refer to it.
use link_samples::links::{File, Row, Wanted, files_of, first_wrong, is_as_wanted, linked};
use link_samples::objects::{NamedSymbol, Relocation, Section, relocatable};
use link_samples::parts::{F, GROUP, NO_F, R_PC32, R_PLT32, RODATA, SECTION_2, START, TEXT};
use link_samples::several_objects::add_file;
use std::alloc::Global;
use std::test::Fail;

/// A COMDAT group whose signature is symbol 2, and whose one member has the number 3.
const GROUP_OF_3: Section<'static> = Section {
    bytes: &[1, 0, 0, 0, 3, 0, 0, 0],
    ..GROUP
};

/// A return in a section of its own, and a call.
const TEXT_F: Section<'static> = Section {
    name: ".text.f",
    bytes: &[0xc3],
    ..TEXT
};

const CALLER: Section<'static> = Section {
    bytes: &[0xe8, 0, 0, 0, 0, 0xc3],
    ..TEXT
};

/// `_start` in its text, and `f` in a group.
const FIRST: File = File::Object(
    "a.o",
    &[TEXT, GROUP_OF_3, TEXT_F],
    &[START, NamedSymbol { st_shndx: 3, ..F }],
    &[],
);

/// The symbols of an object that has that group again: 1 is the section of its member, 2 is `f` in it, and 3 is `h`,
/// defined in section 3, in the member, or not at all.
const F_IN_2: NamedSymbol<'static> = NamedSymbol { st_shndx: 2, ..F };

const H: NamedSymbol<'static> = NamedSymbol {
    name: "h",
    st_shndx: 3,
    ..F
};

const H_IN_2: NamedSymbol<'static> = NamedSymbol { st_shndx: 2, ..H };

const NO_H: NamedSymbol<'static> = NamedSymbol { name: "h", ..NO_F };

/// A call of `f`.
const CALL: Relocation = Relocation(3, 1, R_PLT32, 2, -4);

/// A relocation of a kind that isn't known.
const UNKNOWN: Relocation = Relocation(3, 0, 5, 2, -4);

const LINKED: Wanted = Wanted::Linked(0, &[], b"");

const TWICE: Wanted = Wanted::Refused("Duplicate (9): f");

const DROP_MAP: &[u8] = b"ldmap 2\n\
    object 0 0 0 a.o\n\
    object 1 1 0 b.o\n\
    drop 1 2\n\
    place 0000000000401000 9 0 1 .text\n\
    place 0000000000401009 1 0 3 .text.f\n\
    place 000000000040100a 6 1 3 .text\n\
    symbol 0000000000401000 strong 0 1 _start\n\
    symbol 0000000000401009 strong 0 2 f\n\
    symbol 000000000040100a strong 1 3 h\n\
    end\n";

static LINKS: [Row; 2] = [
    // A group of a signature seen before is dropped.
    (
        &[
            FIRST,
            File::Object(
                "b.o",
                &[GROUP, TEXT_F, CALLER],
                &[SECTION_2, F_IN_2, H],
                &[CALL],
            ),
        ],
        "a.o b.o",
        Wanted::Linked(
            0,
            &[(0x100a, &[0xe8, 0xfa, 0xff, 0xff, 0xff, 0xc3])],
            DROP_MAP,
        ),
    ),
    // Frames may refer to what is dropped.
    (
        &[
            FIRST,
            File::Object(
                "b.o",
                &[
                    GROUP,
                    TEXT_F,
                    Section {
                        name: ".eh_frame",
                        sh_addralign: 1,
                        bytes: &[0; 4],
                        ..RODATA
                    },
                ],
                &[SECTION_2, F_IN_2, NO_H],
                &[Relocation(3, 0, R_PC32, 1, 0)],
            ),
        ],
        "a.o b.o",
        Wanted::Linked(0, &[(0xe8, &[0x18, 0xff, 0xbf, 0xff])], b""),
    ),
];

/// What is varied of `b.o`, an object of that group, the member and a caller: the bytes of the group, symbol 3 and a
/// relocation; and what comes of its link behind `a.o`.
type JudgedRow = (&'static [u8], NamedSymbol<'static>, Relocation, Wanted);

const COMDAT: &[u8] = &[1, 0, 0, 0, 2, 0, 0, 0];

static JUDGED: [JudgedRow; 8] = [
    // The section of a dropped member, and a name that only it defines.
    (
        COMDAT,
        H,
        Relocation(3, 1, R_PLT32, 1, -4),
        Wanted::Refused("RefToDropped (11)"),
    ),
    (
        COMDAT,
        H_IN_2,
        Relocation(3, 1, R_PLT32, 3, -4),
        Wanted::Refused("Undefined (10): h"),
    ),
    // Relocations of a kind that isn't known: of the member, with which they go, and of no member.
    (COMDAT, H, Relocation(2, 0, 5, 2, -4), LINKED),
    (COMDAT, H, UNKNOWN, Wanted::Refused("RelocKind (12)")),
    // The RELA section, number 6, is the member, or one of two.
    (&[1, 0, 0, 0, 6, 0, 0, 0], H, UNKNOWN, TWICE),
    (&[1, 0, 0, 0, 2, 0, 0, 0, 6, 0, 0, 0], H, UNKNOWN, LINKED),
    // A group that isn't COMDAT drops nothing; other flags are refused.
    (&[0, 0, 0, 0, 2, 0, 0, 0], H, CALL, TWICE),
    (
        &[2, 0, 0, 0, 2, 0, 0, 0],
        H,
        CALL,
        Wanted::Refused("BadGroup (8): BadFlags (3)"),
    ),
];

/// Whether the link of a row is as wanted.
fn is_judged(alloc: Global, row: &JudgedRow) -> Result<bool, Fail> {
    let (bytes, third, relocation, wanted) = row;
    let group = Section { bytes, ..GROUP };
    let symbols = [SECTION_2, F_IN_2, *third];
    let object = relocatable(alloc, &[group, TEXT_F, CALLER], &symbols, &[*relocation])?;
    let mut files = files_of(alloc, &[FIRST])?;
    add_file(&mut files, "b.o", &object)?;
    let answer = linked(alloc, &files, "a.o b.o")?;
    is_as_wanted(alloc, &answer, wanted)
}

/// The symbols of an object of groups and of a text, section 3: 1 is that of the section, which has no name.
const SECTION_3: NamedSymbol<'static> = NamedSymbol {
    st_shndx: 3,
    ..SECTION_2
};

const START_IN_3: NamedSymbol<'static> = NamedSymbol {
    st_shndx: 3,
    ..START
};

/// Signatures have names, and sections are of one group.
static SIGNATURES: [Row; 2] = [
    (
        &[File::Object(
            "a.o",
            &[
                Section {
                    signature: 1,
                    ..GROUP_OF_3
                },
                Section {
                    bytes: &[1, 0, 0, 0],
                    ..GROUP
                },
                TEXT,
            ],
            &[SECTION_3, START_IN_3, NO_F],
            &[],
        )],
        "a.o",
        Wanted::Refused("BadGroup (8): NamelessSignature (2)"),
    ),
    (
        &[File::Object(
            "a.o",
            &[
                GROUP_OF_3,
                Section {
                    signature: 3,
                    ..GROUP_OF_3
                },
                TEXT,
            ],
            &[SECTION_3, START_IN_3, NO_F],
            &[],
        )],
        "a.o",
        Wanted::Refused("BadGroup (8): TwoGroups (4)"),
    ),
];

#[test]
fn groups_are_linked_once(rt: HostRuntime) -> Result<(), Fail> {
    assert_eq!(rt; first_wrong(rt.alloc(), &LINKS)?, None);
    assert_eq!(rt; first_wrong(rt.alloc(), &SIGNATURES)?, None);
    Ok(())
}

#[test]
fn references_to_dropped_sections_are_judged(rt: HostRuntime) -> Result<(), Fail> {
    for (number, row) in JUDGED.iter().enumerate() {
        assert!(rt; is_judged(rt.alloc(), row)?, "row {number}");
    }
    Ok(())
}
