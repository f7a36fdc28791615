//! Links of one object and of two, with relocations, and what is refused.
use elf_model::{SHF_ALLOC, SHF_EXECINSTR, SHF_WRITE};
use link_samples::links::{File, Row, Wanted, first_wrong};
use link_samples::objects::{NamedSymbol, Relocation, Section, object};
use link_samples::parts::{
    BSS, DATA, F, NO_F, R_64, R_PC32, R_PLT32, RODATA, SECTION_2, START, TEXT,
};
use link_samples::vectors::{MAP, OBJECT};
use std::test::Fail;

#[test]
fn an_object_is_made_of_its_parts(rt: HostRuntime) -> Result<(), Fail> {
    let bytes = object(rt.alloc(), &[TEXT], &[START])?;
    assert!(rt; bytes.as_slice() == OBJECT.as_slice());
    Ok(())
}

/// The object of `vectors`, of its parts, and its first 63 bytes.
const PLAIN: File = File::Object("a.o", &[TEXT], &[START], &[]);

const CUT: [u8; 63] = [
    0x7f, 0x45, 0x4c, 0x46, 0x02, 0x01, 0x01, 0x00, 0x00, 0x00, 0x00, 0x00, 0x00, 0x00, 0x00, 0x00,
    0x01, 0x00, 0x3e, 0x00, 0x01, 0x00, 0x00, 0x00, 0x00, 0x00, 0x00, 0x00, 0x00, 0x00, 0x00, 0x00,
    0x00, 0x00, 0x00, 0x00, 0x00, 0x00, 0x00, 0x00, 0xb0, 0x00, 0x00, 0x00, 0x00, 0x00, 0x00, 0x00,
    0x00, 0x00, 0x00, 0x00, 0x40, 0x00, 0x00, 0x00, 0x00, 0x00, 0x40, 0x00, 0x05, 0x00, 0x04,
];

/// A call, and `f`, both aligned 16.
const CALLER: File = File::Object(
    "a.o",
    &[Section {
        sh_addralign: 16,
        bytes: &[
            0xe8, 0, 0, 0, 0, 0xb8, 0x3c, 0, 0, 0, 0x31, 0xff, 0x0f, 0x05,
        ],
        ..TEXT
    }],
    &[START, NO_F],
    &[Relocation(1, 1, R_PLT32, 2, -4)],
);

const CALLEE: File = File::Object(
    "b.o",
    &[Section {
        sh_addralign: 16,
        bytes: &[0xc3],
        ..TEXT
    }],
    &[F],
    &[],
);

/// A text with `.data` and `.bss` of no bytes.
const EMPTY: File = File::Object(
    "a.o",
    &[
        TEXT,
        Section {
            sh_addralign: 1,
            bytes: &[],
            ..DATA
        },
        Section {
            sh_addralign: 1,
            memory: 0,
            ..BSS
        },
    ],
    &[START],
    &[],
);

/// Constants that are the distance of the data, and data that is the address of the constants and one more. Symbols 1 and
/// 2 are the sections `.data` and `.rodata`.
const RELOCATED: File = File::Object(
    "a.o",
    &[
        TEXT,
        Section {
            sh_addralign: 4,
            bytes: &[0, 0, 0, 0, 5],
            ..RODATA
        },
        DATA,
        BSS,
    ],
    &[
        NamedSymbol {
            st_shndx: 3,
            ..SECTION_2
        },
        SECTION_2,
        START,
    ],
    &[Relocation(2, 0, R_PC32, 1, 0), Relocation(3, 0, R_64, 2, 1)],
);

/// Data that is the last address and two bytes more.
const WRAPPING: File = File::Object(
    "a.o",
    &[
        TEXT,
        Section {
            bytes: &[0xaa; 8],
            ..DATA
        },
    ],
    &[
        START,
        NamedSymbol {
            name: "last",
            st_shndx: 0xfff1,
            st_value: u64::MAX,
            ..NO_F
        },
    ],
    &[Relocation(2, 0, R_64, 2, 2)],
);

const CALL_MAP: &[u8] = b"ldmap 2\n\
    object 0 0 0 a.o\n\
    object 1 1 0 b.o\n\
    place 0000000000401000 14 0 1 .text\n\
    place 0000000000401010 1 1 1 .text\n\
    symbol 0000000000401000 strong 0 1 _start\n\
    symbol 0000000000401010 strong 1 1 f\n\
    end\n";

const EMPTY_MAP: &[u8] = b"ldmap 2\n\
    object 0 0 0 a.o\n\
    place 0000000000401000 9 0 1 .text\n\
    place 0000000000402000 0 0 2 .data\n\
    place 0000000000402000 0 0 3 .bss\n\
    symbol 0000000000401000 strong 0 1 _start\n\
    end\n";

const DATA_MAP: &[u8] = b"ldmap 2\n\
    object 0 0 0 a.o\n\
    place 0000000000401000 9 0 1 .text\n\
    place 0000000000400120 5 0 2 .rodata\n\
    place 0000000000402000 8 0 3 .data\n\
    place 0000000000402008 8 0 4 .bss\n\
    symbol 0000000000401000 strong 0 3 _start\n\
    end\n";

static LINKS: [Row; 6] = [
    (&[PLAIN], "a.o", Wanted::Vectors(MAP)),
    (
        &[PLAIN],
        "-Ttext-segment=0x10000 a.o",
        Wanted::Linked(4105, &[(24, &[0, 0x10, 1, 0, 0, 0, 0, 0])], b""),
    ),
    (
        &[CALLER, CALLEE],
        "a.o b.o",
        Wanted::Linked(
            4113,
            &[
                (0x1000, &[0xe8, 0x0b, 0, 0, 0]),
                (0x100e, &[0x90, 0x90, 0xc3]),
            ],
            CALL_MAP,
        ),
    ),
    (&[EMPTY], "a.o", Wanted::Vectors(EMPTY_MAP)),
    // The sizes of R, and of RW in the file and in memory.
    (
        &[RELOCATED],
        "a.o",
        Wanted::Linked(
            8200,
            &[
                (0x120, &[0xe0, 0x1e, 0, 0, 5]),
                (0x2000, &[0x21, 1, 0x40, 0, 0, 0, 0, 0]),
                (96, &[0x25, 1, 0, 0, 0, 0, 0, 0]),
                (208, &[8, 0, 0, 0, 0, 0, 0, 0, 0x10, 0, 0, 0, 0, 0, 0, 0]),
            ],
            DATA_MAP,
        ),
    ),
    // Values wrap at 64 bits.
    (
        &[WRAPPING],
        "a.o",
        Wanted::Linked(0, &[(0x2000, &[1, 0, 0, 0, 0, 0, 0, 0])], b""),
    ),
];

#[test]
fn objects_are_linked(rt: HostRuntime) -> Result<(), Fail> {
    assert_eq!(rt; first_wrong(rt.alloc(), &LINKS)?, None);
    Ok(())
}

/// The distance of `f` in the text, and `f` in another object.
const DISTANCE: Relocation = Relocation(1, 0, R_PC32, 2, 0);

const USER: File = File::Object("a.o", &[TEXT], &[START, NO_F], &[DISTANCE]);

const F_FILE: File = File::Object("b.o", &[TEXT], &[F], &[]);

const SECOND: File = File::Object("b.o", &[TEXT], &[START], &[]);

/// Refusals, and beside them what is not refused.
static REFUSALS: [Row; 13] = [
    (
        &[File::Bytes("a.o", &CUT)],
        "a.o",
        Wanted::Refused("BadObject (4): Truncated (2)"),
    ),
    (
        &[File::Object("a.o", &[TEXT], &[NamedSymbol { name: "", ..START }], &[])],
        "a.o",
        Wanted::Refused("BadSymbol (21)"),
    ),
    // No such archive, no such object.
    (&[PLAIN], "a.o b.a", Wanted::Refused("FileMissing (3)")),
    (&[PLAIN], "b.o", Wanted::Refused("FileMissing (3)")),
    // A field past the end of the text; two fields that share bytes, of which NONE has none.
    (
        &[
            File::Object(
                "a.o",
                &[TEXT],
                &[START, NO_F],
                &[Relocation(1, 6, R_PC32, 2, 0)],
            ),
            F_FILE,
        ],
        "a.o b.o",
        Wanted::Refused("FieldOutside (13)"),
    ),
    (
        &[
            File::Object(
                "a.o",
                &[TEXT],
                &[START, NO_F],
                &[DISTANCE, Relocation(1, 2, R_PC32, 2, 0)],
            ),
            F_FILE,
        ],
        "a.o b.o",
        Wanted::Refused("OverlappingFields (14)"),
    ),
    (
        &[
            File::Object(
                "a.o",
                &[TEXT],
                &[START, NO_F],
                &[DISTANCE, Relocation(1, 2, 0, 2, 0)],
            ),
            F_FILE,
        ],
        "a.o b.o",
        Wanted::Linked(0, &[], b""),
    ),
    // COPY and TLSGD.
    (
        &[
            File::Object("a.o", &[TEXT], &[START, NO_F], &[Relocation(1, 0, 5, 2, 0)]),
            F_FILE,
        ],
        "a.o b.o",
        Wanted::Refused("RelocKind (12)"),
    ),
    (
        &[
            File::Object(
                "a.o",
                &[TEXT],
                &[START, NO_F],
                &[Relocation(1, 0, 19, 2, 0)],
            ),
            F_FILE,
        ],
        "a.o b.o",
        Wanted::Refused("RelocKind (12)"),
    ),
    (&[USER], "a.o", Wanted::Refused("Undefined (10): f")),
    (
        &[File::Object(
            "a.o",
            &[
                TEXT,
                Section {
                    sh_addralign: 1,
                    memory: 1 << 46,
                    ..BSS
                },
            ],
            &[START],
            &[],
        )],
        "a.o",
        Wanted::Refused("TooLarge (20)"),
    ),
    (
        &[File::Object(
            "a.o",
            &[Section {
                sh_flags: SHF_ALLOC | SHF_WRITE | SHF_EXECINSTR,
                ..TEXT
            }],
            &[START],
            &[],
        )],
        "a.o",
        Wanted::Refused("SectionKind (7)"),
    ),
    (
        &[PLAIN, SECOND],
        "a.o b.o",
        Wanted::Refused("Duplicate (9): _start"),
    ),
];

#[test]
fn unlawful_links_are_refused(rt: HostRuntime) -> Result<(), Fail> {
    assert_eq!(rt; first_wrong(rt.alloc(), &REFUSALS)?, None);
    Ok(())
}
