//! Debug data of an image: what is joined, and what relocations want. The values are those of the psABI's formulas, by hand.
use crate::tests::rows::{NOTHING, Row, is_right};
use elf_model::SHF_COMPRESSED;
use link_samples::links::File;
use link_samples::objects::{NamedSymbol, Relocation, Section};
use link_samples::parts::{
    ABSOLUTE_F, COMMON, GROUP, R_64, R_PC32, START, TEXT, THREAD_DATA, WEAK_NO_F,
};
use std::test::Fail;

pub const R_32: u32 = 10;

const R_GOTPCREL_BAD: u32 = 37;

const R_DTPOFF64: u32 = 17;

pub const R_DTPOFF32: u32 = 21;

const R_TPOFF64: u32 = 18;

/// Debug data of eight zeros.
pub const INFO: Section<'static> = Section {
    name: ".debug_info",
    sh_flags: 0,
    bytes: &[0; 8],
    ..TEXT
};

pub const RANGES: Section<'static> = Section {
    name: ".debug_ranges",
    ..INFO
};

/// Strings, three bytes.
pub const STR: Section<'static> = Section {
    name: ".debug_str",
    bytes: &[0x61, 0x62, 0],
    ..INFO
};

/// Four bytes at a multiple of 4.
const LINE: Section<'static> = Section {
    name: ".debug_line",
    sh_addralign: 4,
    bytes: &[0xee; 4],
    ..INFO
};

/// The symbols of sections 1 to 3.
pub const FIRST_SECTION: NamedSymbol<'static> = NamedSymbol {
    name: "",
    st_info: 3,
    st_shndx: 1,
    st_value: 0,
    st_size: 0,
};

pub const SECOND_SECTION: NamedSymbol<'static> = NamedSymbol {
    st_shndx: 2,
    ..FIRST_SECTION
};

pub const THIRD_SECTION: NamedSymbol<'static> = NamedSymbol {
    st_shndx: 3,
    ..FIRST_SECTION
};

/// Another name for the function at the beginning of the text.
pub const OTHER: NamedSymbol<'static> = NamedSymbol { name: "f", ..START };

/// `.debug_info` at a multiple of 16.
const ALIGNED: Section<'static> = Section {
    sh_addralign: 16,
    ..INFO
};

const JOINED: [Relocation; 2] = [Relocation(2, 0, R_64, 1, 4), Relocation(4, 0, R_32, 2, 1)];

/// The group of sections 2 and 3, a text and debug data of its own, and what is of no group.
pub const GROUP_OF_TWO: Section<'static> = Section {
    bytes: &[1, 0, 0, 0, 2, 0, 0, 0, 3, 0, 0, 0],
    signature: 3,
    ..GROUP
};

const GROUPED: &[Section] = &[
    GROUP_OF_TWO,
    Section {
        name: ".text.g",
        ..TEXT
    },
    Section {
        name: ".debug_macro",
        bytes: &[7],
        ..INFO
    },
    TEXT,
    INFO,
    RANGES,
];

pub const SIGNATURE: NamedSymbol<'static> = NamedSymbol {
    name: "g",
    st_info: 0x22,
    st_shndx: 2,
    st_value: 0,
    st_size: 9,
};

const TO_GROUP: [Relocation; 2] = [Relocation(5, 0, R_64, 1, 5), Relocation(6, 0, R_64, 1, 5)];

/// The start, and another name, in section 4.
pub const FOURTH: NamedSymbol<'static> = NamedSymbol {
    st_shndx: 4,
    ..START
};

const FOURTH_OTHER: NamedSymbol<'static> = NamedSymbol {
    name: "f",
    ..FOURTH
};

/// Debug data of 16, 20 and 28 bytes.
pub const SIXTEEN: Section<'static> = Section {
    bytes: &[0xee; 16],
    ..INFO
};

const TWENTY: Section<'static> = Section {
    bytes: &[0; 20],
    ..INFO
};

const TWENTY_EIGHT: Section<'static> = Section {
    bytes: &[0xee; 28],
    ..INFO
};

const GOOD: Section<'static> = Section {
    name: ".debug_good",
    ..SIXTEEN
};

/// `.tdata` of 16 bytes.
const THREAD_16: Section<'static> = Section {
    sh_addralign: 8,
    bytes: &[1; 16],
    ..THREAD_DATA
};

const ABSOLUTE: NamedSymbol<'static> = NamedSymbol {
    name: "a",
    st_value: 0x1234,
    ..ABSOLUTE_F
};

/// Sections that are left out: compressed, excluded, and of another name.
pub const SQUEEZED: Section<'static> = Section {
    sh_flags: SHF_COMPRESSED,
    bytes: &[0; 24],
    ..STR
};

pub const EXCLUDED: Section<'static> = Section {
    name: ".debug_info.dwo",
    sh_flags: 0x8000_0000,
    ..INFO
};

const COMMENT: Section<'static> = Section {
    name: ".comment",
    ..INFO
};

static ROWS: [Row; 8] = [
    // The texts are at 0x401000 and 0x401009; the second one's data stand at a multiple of 16, and its strings begin at byte 3.
    // The last file part ends at 0x1012.
    Row {
        files: &[
            File::Object(
                "a.o",
                &[TEXT, INFO, STR, LINE],
                &[FIRST_SECTION, THIRD_SECTION, START],
                &JOINED,
            ),
            File::Object(
                "b.o",
                &[TEXT, ALIGNED, STR, LINE],
                &[FIRST_SECTION, THIRD_SECTION, OTHER],
                &JOINED,
            ),
        ],
        headers: &[
            (".debug_info", 0x1020, 16, 0, 0),
            (".debug_str", 0x1038, 1, 0x30, 1),
            (".debug_line", 0x1040, 4, 0, 0),
        ],
        held: &[
            (
                ".debug_info",
                &[
                    0x04, 0x10, 0x40, 0, 0, 0, 0, 0, 0, 0, 0, 0, 0, 0, 0, 0, 0x0d, 0x10, 0x40, 0,
                    0, 0, 0, 0,
                ],
            ),
            (".debug_str", b"ab\0ab\0"),
            (".debug_line", &[1, 0, 0, 0, 4, 0, 0, 0]),
        ],
        ..NOTHING
    },
    // No debug data are wanted.
    Row {
        files: &[File::Object("a.o", &[TEXT, INFO], &[START], &[])],
        debug: false,
        absent: &[".debug_info"],
        ..NOTHING
    },
    // Both objects have the group. The first one's text is at 0x401000; the second one's is dropped, with its debug data, and
    // means that of the first.
    Row {
        files: &[
            File::Object(
                "a.o",
                GROUPED,
                &[SECOND_SECTION, THIRD_SECTION, SIGNATURE, FOURTH],
                &TO_GROUP,
            ),
            File::Object(
                "b.o",
                GROUPED,
                &[SECOND_SECTION, THIRD_SECTION, SIGNATURE, FOURTH_OTHER],
                &TO_GROUP,
            ),
        ],
        held: &[
            (
                ".debug_info",
                &[
                    0x05, 0x10, 0x40, 0, 0, 0, 0, 0, 5, 0x10, 0x40, 0, 0, 0, 0, 0,
                ],
            ),
            (
                ".debug_ranges",
                &[
                    0x05, 0x10, 0x40, 0, 0, 0, 0, 0, 5, 0x10, 0x40, 0, 0, 0, 0, 0,
                ],
            ),
            (".debug_macro", &[7]),
        ],
        ..NOTHING
    },
    // A section is compressed, so all debug data of the object are left out; what is of split DWARF is none of the image's.
    Row {
        files: &[File::Object(
            "a.o",
            &[TEXT, INFO, SQUEEZED, EXCLUDED, COMMENT],
            &[THIRD_SECTION, START],
            &[Relocation(2, 0, R_64, 1, 3)],
        )],
        absent: &[".debug_info", ".debug_str", ".debug_info.dwo", ".comment"],
        left: [1, 2, 1],
        ..NOTHING
    },
    // A type that isn't known; a field that ends a byte behind its section; a value of 33 bits, of which nothing is written but
    // ones; and then one of type NONE, one that is done, and one over a part of it, which counts.
    Row {
        files: &[File::Object(
            "a.o",
            &[TEXT, SIXTEEN, GOOD],
            &[FIRST_SECTION, START],
            &[
                Relocation(2, 0, R_GOTPCREL_BAD, 1, 0),
                Relocation(2, 13, R_32, 1, 0),
                Relocation(2, 4, R_32, 1, 0x1_0000_0000),
                Relocation(3, 0, 0, 1, 0),
                Relocation(3, 0, R_64, 1, 0x10),
                Relocation(3, 4, R_32, 0, 0x0403_0201),
            ],
        )],
        held: &[
            (
                ".debug_info",
                &[
                    0xee, 0xee, 0xee, 0xee, 0xff, 0xff, 0xff, 0xff, 0xee, 0xee, 0xee, 0xee, 0xee,
                    0xee, 0xee, 0xee,
                ],
            ),
            (
                ".debug_good",
                &[
                    0x10, 0x10, 0x40, 0, 1, 2, 3, 4, 0xee, 0xee, 0xee, 0xee, 0xee, 0xee, 0xee, 0xee,
                ],
            ),
        ],
        unrelocated: &[(0, 2), (0, 3)],
        ..NOTHING
    },
    // The block of thread-local storage has 16 bytes; its end is where the thread pointer is.
    Row {
        files: &[File::Object(
            "a.o",
            &[TEXT, THREAD_16, TWENTY],
            &[SECOND_SECTION, START],
            &[
                Relocation(3, 0, R_DTPOFF64, 1, 8),
                Relocation(3, 8, R_DTPOFF32, 1, 4),
                Relocation(3, 12, R_TPOFF64, 1, 4),
            ],
        )],
        held: &[(
            ".debug_info",
            &[
                8, 0, 0, 0, 0, 0, 0, 0, 4, 0, 0, 0, 0xf4, 0xff, 0xff, 0xff, 0xff, 0xff, 0xff, 0xff,
            ],
        )],
        ..NOTHING
    },
    // An offset of 2^31 is no signed number of 32 bits, one of -2^31 is.
    Row {
        files: &[File::Object(
            "a.o",
            &[TEXT, THREAD_16, TWENTY],
            &[SECOND_SECTION, START],
            &[
                Relocation(3, 0, R_DTPOFF32, 1, 0x8000_0000),
                Relocation(3, 8, R_DTPOFF32, 1, -0x8000_0000),
            ],
        )],
        held: &[(
            ".debug_info",
            &[
                0xff, 0xff, 0xff, 0xff, 0, 0, 0, 0, 0, 0, 0, 0x80, 0, 0, 0, 0, 0, 0, 0, 0,
            ],
        )],
        unrelocated: &[(0, 3)],
        ..NOTHING
    },
    // An undefined symbol, an absolute one, and a common block, on the page behind the text's. P of the last one is byte 24 of
    // what is joined: 0x1234 - 24.
    Row {
        files: &[File::Object(
            "a.o",
            &[TEXT, TWENTY_EIGHT],
            &[START, WEAK_NO_F, ABSOLUTE, COMMON],
            &[
                Relocation(2, 0, R_64, 2, 5),
                Relocation(2, 8, R_64, 3, 1),
                Relocation(2, 16, R_64, 4, 1),
                Relocation(2, 24, R_PC32, 3, 0),
            ],
        )],
        held: &[(
            ".debug_info",
            &[
                0, 0, 0, 0, 0, 0, 0, 0, 0x35, 0x12, 0, 0, 0, 0, 0, 0, 0x01, 0x20, 0x40, 0, 0, 0, 0,
                0, 0x1c, 0x12, 0, 0,
            ],
        )],
        ..NOTHING
    },
];

#[test]
fn debug_data_are_joined_and_relocated(rt: HostRuntime) -> Result<(), Fail> {
    for (number, row) in ROWS.iter().enumerate() {
        assert!(rt; is_right(rt.alloc(), row)?, "row {number}");
    }
    Ok(())
}
