//! Debug data that are left out of an image, with all that their object has: compressed ones (System V gABI 4, "Section
//! Compression"), those that no image takes, and those that rely on such ones.
use crate::tests::debug_data::{
    EXCLUDED, FIRST_SECTION, INFO, R_32, SECOND_SECTION, SQUEEZED, STR, THIRD_SECTION,
};
use crate::tests::rows::{NOTHING, Row, is_right};
use link_samples::links::File;
use link_samples::objects::{NamedSymbol, Relocation, Section};
use link_samples::parts::{GROUP, START, TEXT};
use std::test::Fail;

/// A name at byte 1 of `.debug_str`.
const TO_STRING: [Relocation; 1] = [Relocation(2, 0, R_32, 1, 1)];

const F: NamedSymbol<'static> = NamedSymbol { name: "f", ..START };

const G: NamedSymbol<'static> = NamedSymbol { name: "g", ..START };

const PLAIN: File = File::Object(
    "a.o",
    &[TEXT, INFO, STR],
    &[THIRD_SECTION, START],
    &TO_STRING,
);

/// Strings that were compressed before there was a flag, and debug data that no image takes.
const OLD_SQUEEZED: Section<'static> = Section {
    name: ".zdebug_str",
    ..STR
};

const TAKEN_BY_NONE: Section<'static> = Section {
    name: ".debug_aranges",
    sh_flags: 0x8000_0000,
    ..INFO
};

/// No bytes, as of a file whose debug data were cut out.
const WITHOUT_BYTES: Section<'static> = Section {
    name: ".debug_line",
    sh_type: 8,
    bytes: &[],
    memory: 4,
    ..INFO
};

/// A group of a unit of macros, which is section 2, and a unit that imports it.
const OF_UNIT: Section<'static> = Section {
    signature: 2,
    ..GROUP
};

const UNIT: Section<'static> = Section {
    name: ".debug_macro",
    ..INFO
};

const M: NamedSymbol<'static> = NamedSymbol {
    name: "wm4.m",
    st_info: 0,
    ..SECOND_SECTION
};

const THIRD: NamedSymbol<'static> = NamedSymbol {
    st_shndx: 3,
    ..START
};

const THIRD_F: NamedSymbol<'static> = NamedSymbol { name: "f", ..THIRD };

const TO_UNIT: [Relocation; 1] = [Relocation(4, 0, R_32, 1, 4)];

static ROWS: [Row; 5] = [
    // The second object has compressed strings, the first and the third one don't: what these have is as without it.
    Row {
        files: &[
            PLAIN,
            File::Object(
                "b.o",
                &[TEXT, INFO, SQUEEZED],
                &[THIRD_SECTION, F],
                &TO_STRING,
            ),
            File::Object("c.o", &[TEXT, INFO, STR], &[THIRD_SECTION, G], &TO_STRING),
        ],
        held: &[
            (
                ".debug_info",
                &[1, 0, 0, 0, 0, 0, 0, 0, 4, 0, 0, 0, 0, 0, 0, 0],
            ),
            (".debug_str", b"ab\0ab\0"),
        ],
        left: [1, 2, 1],
        ..NOTHING
    },
    // Two objects with compressed data by their names, and all that they have.
    Row {
        files: &[
            PLAIN,
            File::Object("b.o", &[TEXT, INFO, OLD_SQUEEZED], &[THIRD_SECTION, F], &[]),
            File::Object(
                "c.o",
                &[TEXT, INFO, OLD_SQUEEZED, STR, EXCLUDED],
                &[THIRD_SECTION, G],
                &[],
            ),
        ],
        held: &[
            (".debug_info", &[1, 0, 0, 0, 0, 0, 0, 0]),
            (".debug_str", b"ab\0"),
        ],
        absent: &[".zdebug_str", ".debug_info.dwo"],
        left: [2, 5, 2],
        ..NOTHING
    },
    // Data that no image takes, and data without bytes.
    Row {
        files: &[
            PLAIN,
            File::Object(
                "b.o",
                &[TEXT, INFO, TAKEN_BY_NONE],
                &[FIRST_SECTION, F],
                &[],
            ),
            File::Object(
                "c.o",
                &[TEXT, INFO, STR, WITHOUT_BYTES],
                &[FIRST_SECTION, G],
                &[],
            ),
        ],
        held: &[
            (".debug_info", &[1, 0, 0, 0, 0, 0, 0, 0]),
            (".debug_str", b"ab\0"),
        ],
        absent: &[".debug_aranges", ".debug_line"],
        left: [2, 5, 0],
        ..NOTHING
    },
    // What is of split DWARF leaves the object's other data in the image.
    Row {
        files: &[File::Object(
            "a.o",
            &[TEXT, INFO, STR, EXCLUDED],
            &[THIRD_SECTION, START],
            &TO_STRING,
        )],
        held: &[
            (".debug_info", &[1, 0, 0, 0, 0, 0, 0, 0]),
            (".debug_str", b"ab\0"),
        ],
        absent: &[".debug_info.dwo"],
        ..NOTHING
    },
    // The kept unit is in an object that is left out, so the second object is left out too; the third one has no such unit.
    Row {
        files: &[
            File::Object(
                "a.o",
                &[OF_UNIT, UNIT, TEXT, INFO, SQUEEZED],
                &[SECOND_SECTION, M, THIRD],
                &TO_UNIT,
            ),
            File::Object(
                "b.o",
                &[OF_UNIT, UNIT, TEXT, INFO],
                &[SECOND_SECTION, M, THIRD_F],
                &TO_UNIT,
            ),
            File::Object("c.o", &[TEXT, INFO, STR], &[THIRD_SECTION, G], &TO_STRING),
        ],
        held: &[
            (".debug_info", &[1, 0, 0, 0, 0, 0, 0, 0]),
            (".debug_str", b"ab\0"),
        ],
        absent: &[".debug_macro"],
        left: [2, 4, 1],
        ..NOTHING
    },
];

#[test]
fn debug_data_are_left_out_by_objects(rt: HostRuntime) -> Result<(), Fail> {
    for (number, row) in ROWS.iter().enumerate() {
        assert!(rt; is_right(rt.alloc(), row)?, "row {number}");
    }
    Ok(())
}
