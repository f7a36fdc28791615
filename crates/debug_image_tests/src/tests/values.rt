//! What entries of debug data want, two of each kind in each object: the values are those of the formulas of the psABI ("Relocation
//! Types"), by hand. And which sections hold debug data.
use crate::tests::debug_data::{INFO, R_32, RANGES, SIXTEEN, STR};
use crate::tests::rows::{NOTHING, Row, is_right};
use elf_model::{SHF_ALLOC, SHF_COMPRESSED, SHF_WRITE, SHT_NOBITS};
use link_samples::links::File;
use link_samples::objects::{NamedSymbol, Relocation, Section};
use link_samples::parts::{
    COMMON, DATA, F, FOO, LOADER, NO_F, R_64, R_PC32, START, STOP_FOO, TEXT, V,
};
use std::test::Fail;

const R_GOTPCREL: u32 = 9;

const R_GOTOFF64: u32 = 25;

const R_GOTPC32: u32 = 26;

const R_GOT64: u32 = 27;

const R_SIZE64: u32 = 33;

const R_IRELATIVE: u32 = 37;

const R_REX_GOTPCRELX: u32 = 42;

/// Debug data of 24, 32 and 48 bytes.
const INFO_24: Section<'static> = Section {
    bytes: &[0; 24],
    ..INFO
};

const INFO_32: Section<'static> = Section {
    bytes: &[0; 32],
    ..INFO
};

const INFO_48: Section<'static> = Section {
    bytes: &[0; 48],
    ..INFO
};

/// Functions, LOCAL ones and others, and blocks, none like another one.
const FIRST_LOCAL: NamedSymbol<'static> = NamedSymbol {
    name: "l",
    st_info: 2,
    st_shndx: 1,
    st_value: 4,
    st_size: 2,
};

const SECOND_LOCAL: NamedSymbol<'static> = NamedSymbol {
    st_value: 2,
    st_size: 3,
    ..FIRST_LOCAL
};

const AT_3: NamedSymbol<'static> = NamedSymbol {
    st_value: 3,
    st_size: 6,
    ..F
};

const AT_5: NamedSymbol<'static> = NamedSymbol {
    name: "g",
    st_value: 5,
    st_size: 4,
    ..F
};

const LARGE_BLOCK: NamedSymbol<'static> = NamedSymbol {
    name: "d",
    st_value: 16,
    st_size: 24,
    ..COMMON
};

const FIRST_VALUES: [Relocation; 6] = [
    Relocation(2, 0, R_64, 1, 1),
    Relocation(2, 8, R_64, 3, 0),
    Relocation(2, 16, R_SIZE64, 1, 0x10),
    Relocation(2, 24, R_SIZE64, 3, 0x20),
    Relocation(2, 32, R_SIZE64, 4, 0x30),
    Relocation(2, 40, R_SIZE64, 2, 0),
];

const SECOND_VALUES: [Relocation; 7] = [
    Relocation(2, 0, R_64, 1, 0),
    Relocation(2, 8, R_64, 2, 0),
    Relocation(2, 16, R_SIZE64, 1, 0),
    Relocation(2, 24, R_SIZE64, 2, 0),
    Relocation(2, 32, R_SIZE64, 3, 0),
    Relocation(2, 40, R_PC32, 4, 0),
    Relocation(2, 44, R_PC32, 2, 0),
];

/// Eight bytes of another name.
const LINES: Section<'static> = Section {
    name: ".debug_line",
    bytes: &[0xee; 8],
    ..INFO
};

const NO_V: NamedSymbol<'static> = NamedSymbol { name: "v", ..NO_F };

/// An undefined LOCAL symbol, and the linker's name for where `foo` begins.
const NO_LOCAL: NamedSymbol<'static> = NamedSymbol {
    name: "n",
    st_info: 0,
    ..NO_F
};

const START_FOO: NamedSymbol<'static> = NamedSymbol {
    name: "__start_foo",
    ..STOP_FOO
};

const GOOD: Section<'static> = Section {
    name: ".debug_good",
    ..SIXTEEN
};

static VALUES: [Row; 4] = [
    // The texts are at 0x401000 and 0x401009. P of the last two fields is 48 + 40 and 48 + 44.
    Row {
        files: &[
            File::Object(
                "a.o",
                &[TEXT, INFO_48],
                &[FIRST_LOCAL, START, AT_3, COMMON],
                &FIRST_VALUES,
            ),
            File::Object(
                "b.o",
                &[TEXT, INFO_48],
                &[SECOND_LOCAL, AT_5, LARGE_BLOCK, NO_F],
                &SECOND_VALUES,
            ),
        ],
        held: &[(
            ".debug_info",
            &[
                0x05, 0x10, 0x40, 0, 0, 0, 0, 0, 0x03, 0x10, 0x40, 0, 0, 0, 0, 0, 0x12, 0, 0, 0, 0,
                0, 0, 0, 0x26, 0, 0, 0, 0, 0, 0, 0, 0x38, 0, 0, 0, 0, 0, 0, 0, 9, 0, 0, 0, 0, 0, 0,
                0, 0x0b, 0x10, 0x40, 0, 0, 0, 0, 0, 0x0e, 0x10, 0x40, 0, 0, 0, 0, 0, 3, 0, 0, 0, 0,
                0, 0, 0, 4, 0, 0, 0, 0, 0, 0, 0, 24, 0, 0, 0, 0, 0, 0, 0, 0xab, 0x0f, 0x40, 0,
                0xb2, 0x0f, 0x40, 0,
            ],
        )],
        ..NOTHING
    },
    // The GOT is at 0x402008, behind the datum at 0x402000. Types that name one of its slots aren't done.
    Row {
        files: &[
            File::Object(
                "a.o",
                &[LOADER, DATA, INFO_24, LINES],
                &[START, V],
                &[
                    Relocation(1, 3, R_REX_GOTPCRELX, 2, -4),
                    Relocation(3, 0, R_GOTOFF64, 2, 1),
                    Relocation(3, 8, R_GOTOFF64, 1, 0),
                    Relocation(3, 16, R_GOTPC32, 1, 0),
                    Relocation(3, 20, R_GOTPC32, 2, 8),
                    Relocation(4, 0, R_GOTPCREL, 2, 0),
                ],
            ),
            File::Object(
                "b.o",
                &[TEXT, INFO_24, LINES],
                &[F, NO_V],
                &[
                    Relocation(2, 0, R_GOTOFF64, 2, 0),
                    Relocation(2, 8, R_GOTPC32, 1, 0),
                    Relocation(2, 12, R_PC32, 2, 0),
                    Relocation(3, 0, R_GOT64, 2, 0),
                ],
            ),
        ],
        held: &[
            (
                ".debug_info",
                &[
                    0xf9, 0xff, 0xff, 0xff, 0xff, 0xff, 0xff, 0xff, 0xf8, 0xef, 0xff, 0xff, 0xff,
                    0xff, 0xff, 0xff, 0xf8, 0x1f, 0x40, 0, 0xfc, 0x1f, 0x40, 0, 0xf8, 0xff, 0xff,
                    0xff, 0xff, 0xff, 0xff, 0xff, 0xe8, 0x1f, 0x40, 0, 0xdc, 0x1f, 0x40, 0, 0, 0,
                    0, 0, 0, 0, 0, 0,
                ],
            ),
            (".debug_line", &[0xee; 16]),
        ],
        unrelocated: &[(0, 4), (1, 3)],
        ..NOTHING
    },
    // The two sections `foo` are at 0x402000 and 0x402008. A LOCAL symbol without a section has no address.
    Row {
        files: &[
            File::Object(
                "a.o",
                &[TEXT, FOO, INFO_32],
                &[NO_LOCAL, START, START_FOO, STOP_FOO],
                &[
                    Relocation(3, 0, R_64, 3, 1),
                    Relocation(3, 8, R_64, 4, 0),
                    Relocation(3, 16, R_64, 1, 7),
                    Relocation(3, 24, R_SIZE64, 4, 5),
                ],
            ),
            File::Object(
                "b.o",
                &[TEXT, FOO, INFO_32],
                &[NO_LOCAL, F, START_FOO, STOP_FOO],
                &[
                    Relocation(3, 0, R_64, 4, 0),
                    Relocation(3, 8, R_64, 3, 0),
                    Relocation(3, 16, R_64, 1, 7),
                    Relocation(3, 24, R_SIZE64, 3, 0),
                ],
            ),
        ],
        held: &[(
            ".debug_info",
            &[
                0x01, 0x20, 0x40, 0, 0, 0, 0, 0, 0x10, 0x20, 0x40, 0, 0, 0, 0, 0, 0, 0, 0, 0, 0, 0,
                0, 0, 5, 0, 0, 0, 0, 0, 0, 0, 0x10, 0x20, 0x40, 0, 0, 0, 0, 0, 0x00, 0x20, 0x40, 0,
                0, 0, 0, 0, 0, 0, 0, 0, 0, 0, 0, 0, 0, 0, 0, 0, 0, 0, 0, 0,
            ],
        )],
        ..NOTHING
    },
    // Type NONE relocates nothing, which is as it says; a type that isn't known is named.
    Row {
        files: &[
            File::Object(
                "a.o",
                &[TEXT, SIXTEEN, GOOD],
                &[START],
                &[
                    Relocation(2, 0, 0, 1, 5),
                    Relocation(3, 0, R_IRELATIVE, 1, 0),
                ],
            ),
            File::Object(
                "b.o",
                &[TEXT, GOOD, SIXTEEN],
                &[F],
                &[Relocation(2, 0, 0, 1, 5), Relocation(3, 0, 200, 1, 0)],
            ),
        ],
        held: &[(".debug_info", &[0xee; 32]), (".debug_good", &[0xee; 32])],
        unrelocated: &[(1, 3), (0, 3)],
        ..NOTHING
    },
];

#[test]
fn entries_want_what_the_formulas_say(rt: HostRuntime) -> Result<(), Fail> {
    for (number, row) in VALUES.iter().enumerate() {
        assert!(rt; is_right(rt.alloc(), row)?, "row {number}");
    }
    Ok(())
}

/// Strings of lines, offsets of strings, and two names that are none of debug data.
const LINE_STR: Section<'static> = Section {
    name: ".debug_line_str",
    ..STR
};

const STR_OFFSETS: Section<'static> = Section {
    name: ".debug_str_offsets",
    ..INFO
};

const BARE: Section<'static> = Section {
    name: ".debug",
    ..INFO
};

const DEBUGGER: Section<'static> = Section {
    name: ".debugger",
    ..INFO
};

/// Debug data at multiples of 16 and of 4.
const AT_16: Section<'static> = Section {
    sh_addralign: 16,
    ..INFO
};

const AT_4: Section<'static> = Section {
    sh_addralign: 4,
    ..INFO
};

const G: NamedSymbol<'static> = NamedSymbol { name: "g", ..F };

/// A part of memory that has such a name, and what is compressed and has another one.
const IN_MEMORY: Section<'static> = Section {
    name: ".debug_zeros",
    sh_type: SHT_NOBITS,
    sh_flags: SHF_ALLOC | SHF_WRITE,
    bytes: &[],
    memory: 8,
    ..DATA
};

const PACKED_COMMENT: Section<'static> = Section {
    name: ".comment",
    sh_flags: SHF_COMPRESSED,
    bytes: &[0; 24],
    ..INFO
};

/// The second of two sections of one name is meant, which is at byte 8 of what is joined, and at byte 24.
const TO_RANGES: [Relocation; 1] = [Relocation(2, 4, R_32, 1, 0)];

const TO_THIRD: NamedSymbol<'static> = NamedSymbol {
    name: "",
    st_info: 3,
    st_shndx: 4,
    st_value: 0,
    st_size: 0,
};

static KINDS: [Row; 4] = [
    // The last file part ends at 0x1012.
    Row {
        files: &[
            File::Object(
                "a.o",
                &[TEXT, LINE_STR, STR_OFFSETS, BARE, DEBUGGER],
                &[START],
                &[],
            ),
            File::Object(
                "b.o",
                &[TEXT, DEBUGGER, BARE, STR_OFFSETS, LINE_STR],
                &[F],
                &[],
            ),
        ],
        headers: &[
            (".debug_line_str", 0x1012, 1, 0x30, 1),
            (".debug_str_offsets", 0x1018, 1, 0, 0),
        ],
        held: &[(".debug_line_str", b"ab\0ab\0")],
        absent: &[".debug", ".debugger"],
        ..NOTHING
    },
    // The greatest alignment is neither the first one nor the last; the last file part ends at 0x101b.
    Row {
        files: &[
            File::Object("a.o", &[TEXT, AT_4], &[START], &[]),
            File::Object("b.o", &[TEXT, AT_16], &[F], &[]),
            File::Object("c.o", &[TEXT, INFO], &[G], &[]),
        ],
        headers: &[(".debug_info", 0x1020, 16, 0, 0)],
        held: &[(".debug_info", &[0; 32])],
        ..NOTHING
    },
    // What is a part of memory, or has another name, is left out with nothing.
    Row {
        files: &[
            File::Object(
                "a.o",
                &[TEXT, IN_MEMORY, PACKED_COMMENT, INFO],
                &[START],
                &[],
            ),
            File::Object("b.o", &[TEXT, PACKED_COMMENT, INFO, IN_MEMORY], &[F], &[]),
        ],
        held: &[(".debug_info", &[0; 16])],
        absent: &[".comment"],
        ..NOTHING
    },
    // Two sections of one name in each object.
    Row {
        files: &[
            File::Object(
                "a.o",
                &[TEXT, INFO, RANGES, RANGES],
                &[TO_THIRD, START],
                &TO_RANGES,
            ),
            File::Object(
                "b.o",
                &[TEXT, INFO, RANGES, RANGES],
                &[TO_THIRD, F],
                &TO_RANGES,
            ),
        ],
        held: &[
            (
                ".debug_info",
                &[0, 0, 0, 0, 8, 0, 0, 0, 0, 0, 0, 0, 24, 0, 0, 0],
            ),
            (".debug_ranges", &[0; 32]),
        ],
        ..NOTHING
    },
];

#[test]
fn debug_data_are_known_by_their_sections(rt: HostRuntime) -> Result<(), Fail> {
    for (number, row) in KINDS.iter().enumerate() {
        assert!(rt; is_right(rt.alloc(), row)?, "row {number}");
    }
    Ok(())
}
