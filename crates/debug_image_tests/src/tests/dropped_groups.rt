//! Debug data that speak of sections which were dropped with their COMDAT groups (System V gABI 4, "Section Groups"): what
//! stands in the kept group is meant. The offsets are counted by hand in what is joined.
use crate::tests::debug_data::{FIRST_SECTION, INFO, R_32, RANGES, SECOND_SECTION};
use crate::tests::rows::{NOTHING, Row, is_right};
use link_samples::links::File;
use link_samples::objects::{NamedSymbol, Relocation, Section};
use link_samples::parts::{GROUP, R_64, START, TEXT};
use std::test::Fail;

/// Two units of macros, each of a group of its own; and what imports them.
const FIRST_UNIT: Section<'static> = Section {
    name: ".debug_macro",
    bytes: &[0xa1, 0xa2, 0xa3],
    ..INFO
};

const SECOND_UNIT: Section<'static> = Section {
    bytes: &[0xb1, 0xb2, 0xb3],
    ..FIRST_UNIT
};

const LONGER_UNIT: Section<'static> = Section {
    bytes: &[0xc1, 0xc2, 0xc3, 0xc4],
    ..FIRST_UNIT
};

const IMPORTS: Section<'static> = Section {
    name: ".debug_macro",
    ..INFO
};

/// The groups of section 2, and of section 4, of the signatures that are the symbols 3 and 4.
const OF_SECOND: Section<'static> = Section {
    signature: 3,
    ..GROUP
};

const OF_FOURTH: Section<'static> = Section {
    bytes: &[1, 0, 0, 0, 4, 0, 0, 0],
    signature: 4,
    ..GROUP
};

/// The same where their signatures are exchanged.
const OF_FOURTH_FIRST: Section<'static> = Section {
    signature: 4,
    ..GROUP
};

const OF_SECOND_LAST: Section<'static> = Section {
    signature: 3,
    ..OF_FOURTH
};

const FOURTH_SECTION: NamedSymbol<'static> = NamedSymbol {
    st_shndx: 4,
    ..FIRST_SECTION
};

/// The signatures, LOCAL ones as compilers write them.
const M: NamedSymbol<'static> = NamedSymbol {
    name: "wm4.m",
    st_info: 0,
    ..FIRST_SECTION
};

const N: NamedSymbol<'static> = NamedSymbol { name: "wm4.n", ..M };

const FIFTH: NamedSymbol<'static> = NamedSymbol {
    st_shndx: 5,
    ..START
};

const FIFTH_OTHER: NamedSymbol<'static> = NamedSymbol { name: "f", ..FIFTH };

/// Byte 1 of the first of the two units, and byte 0 of the second one.
const BOTH: [Relocation; 2] = [Relocation(6, 0, R_32, 1, 1), Relocation(6, 4, R_32, 2, 0)];

/// The same where the second unit comes first.
const CROSSED: [Relocation; 2] = [Relocation(6, 0, R_32, 1, 0), Relocation(6, 4, R_32, 2, 1)];

const FIRST_OBJECT: File = File::Object(
    "a.o",
    &[OF_SECOND, FIRST_UNIT, OF_FOURTH, SECOND_UNIT, TEXT, IMPORTS],
    &[SECOND_SECTION, FOURTH_SECTION, M, N, FIFTH],
    &BOTH,
);

/// A group of a unit, of a longer one, and of data of another name and of the unit's size.
const OF_THREE: Section<'static> = Section {
    bytes: &[1, 0, 0, 0, 2, 0, 0, 0, 3, 0, 0, 0, 4, 0, 0, 0],
    signature: 4,
    ..GROUP
};

const OF_THREE_TURNED: Section<'static> = Section {
    bytes: &[1, 0, 0, 0, 4, 0, 0, 0, 3, 0, 0, 0, 2, 0, 0, 0],
    ..OF_THREE
};

const TYPES: Section<'static> = Section {
    name: ".debug_types",
    bytes: &[0xd1, 0xd2, 0xd3],
    ..INFO
};

const THIRD_SECTION: NamedSymbol<'static> = NamedSymbol {
    st_shndx: 3,
    ..FIRST_SECTION
};

const TWELVE: Section<'static> = Section {
    bytes: &[0; 12],
    ..INFO
};

/// The beginnings of the sections 2, 3 and 4.
const ALL_THREE: [Relocation; 3] = [
    Relocation(6, 0, R_32, 1, 0),
    Relocation(6, 4, R_32, 2, 0),
    Relocation(6, 8, R_32, 3, 0),
];

/// A function of a group, and another one that has a byte more.
const FUNCTION: Section<'static> = Section {
    name: ".text.g",
    ..TEXT
};

const LONGER_FUNCTION: Section<'static> = Section {
    bytes: &[0xb8, 0x3c, 0, 0, 0, 0x31, 0xff, 0x0f, 0x05, 0x90],
    ..FUNCTION
};

const OF_FUNCTION: Section<'static> = Section {
    signature: 2,
    ..GROUP
};

const G: NamedSymbol<'static> = NamedSymbol {
    name: "g",
    st_info: 0x22,
    st_shndx: 2,
    st_value: 0,
    st_size: 9,
};

const THIRD: NamedSymbol<'static> = NamedSymbol {
    st_shndx: 3,
    ..START
};

const THIRD_OTHER: NamedSymbol<'static> = NamedSymbol { name: "f", ..THIRD };

const LOC: Section<'static> = Section {
    name: ".debug_loc",
    ..INFO
};

/// Byte 1 of section 2, from three sections.
const TO_FUNCTION: [Relocation; 3] = [
    Relocation(4, 0, R_64, 1, 1),
    Relocation(5, 0, R_64, 1, 1),
    Relocation(6, 0, R_64, 1, 1),
];

static ROWS: [Row; 4] = [
    // The units of both objects are those of the first: at 0 and at 3, before what imports them, at 6 and at 14.
    Row {
        files: &[
            FIRST_OBJECT,
            File::Object(
                "b.o",
                &[
                    OF_FOURTH_FIRST,
                    SECOND_UNIT,
                    OF_SECOND_LAST,
                    FIRST_UNIT,
                    TEXT,
                    IMPORTS,
                ],
                &[SECOND_SECTION, FOURTH_SECTION, M, N, FIFTH_OTHER],
                &CROSSED,
            ),
        ],
        held: &[(
            ".debug_macro",
            &[
                0xa1, 0xa2, 0xa3, 0xb1, 0xb2, 0xb3, 1, 0, 0, 0, 3, 0, 0, 0, 3, 0, 0, 0, 1, 0, 0, 0,
            ],
        )],
        ..NOTHING
    },
    // The first unit of the second object is longer than the kept one, so nothing stands for it.
    Row {
        files: &[
            FIRST_OBJECT,
            File::Object(
                "b.o",
                &[
                    OF_SECOND,
                    LONGER_UNIT,
                    OF_FOURTH,
                    SECOND_UNIT,
                    TEXT,
                    IMPORTS,
                ],
                &[SECOND_SECTION, FOURTH_SECTION, M, N, FIFTH_OTHER],
                &BOTH,
            ),
        ],
        held: &[(
            ".debug_macro",
            &[
                0xa1, 0xa2, 0xa3, 0xb1, 0xb2, 0xb3, 1, 0, 0, 0, 3, 0, 0, 0, 0xff, 0xff, 0xff, 0xff,
                3, 0, 0, 0,
            ],
        )],
        unrelocated: &[(1, 6)],
        ..NOTHING
    },
    // Members of one group, of two sizes and two names; the second object lists and has them in another order.
    Row {
        files: &[
            File::Object(
                "a.o",
                &[OF_THREE, FIRST_UNIT, LONGER_UNIT, TYPES, TEXT, TWELVE],
                &[SECOND_SECTION, THIRD_SECTION, FOURTH_SECTION, N, FIFTH],
                &ALL_THREE,
            ),
            File::Object(
                "b.o",
                &[
                    OF_THREE_TURNED,
                    LONGER_UNIT,
                    TYPES,
                    FIRST_UNIT,
                    TEXT,
                    TWELVE,
                ],
                &[
                    SECOND_SECTION,
                    THIRD_SECTION,
                    FOURTH_SECTION,
                    N,
                    FIFTH_OTHER,
                ],
                &ALL_THREE,
            ),
        ],
        held: &[
            (
                ".debug_info",
                &[
                    0, 0, 0, 0, 3, 0, 0, 0, 0, 0, 0, 0, 3, 0, 0, 0, 0, 0, 0, 0, 0, 0, 0, 0,
                ],
            ),
            (".debug_macro", &[0xa1, 0xa2, 0xa3, 0xc1, 0xc2, 0xc3, 0xc4]),
            (".debug_types", &[0xd1, 0xd2, 0xd3]),
        ],
        ..NOTHING
    },
    // A function that is longer than the kept one, at 0x401000, has no address: 0, and 1 where 0 would end a list.
    Row {
        files: &[
            File::Object(
                "a.o",
                &[OF_FUNCTION, FUNCTION, TEXT, INFO, RANGES, LOC],
                &[SECOND_SECTION, G, THIRD],
                &TO_FUNCTION,
            ),
            File::Object(
                "b.o",
                &[OF_FUNCTION, LONGER_FUNCTION, TEXT, INFO, RANGES, LOC],
                &[SECOND_SECTION, G, THIRD_OTHER],
                &TO_FUNCTION,
            ),
        ],
        held: &[
            (
                ".debug_info",
                &[1, 0x10, 0x40, 0, 0, 0, 0, 0, 0, 0, 0, 0, 0, 0, 0, 0],
            ),
            (
                ".debug_ranges",
                &[1, 0x10, 0x40, 0, 0, 0, 0, 0, 1, 0, 0, 0, 0, 0, 0, 0],
            ),
            (
                ".debug_loc",
                &[1, 0x10, 0x40, 0, 0, 0, 0, 0, 1, 0, 0, 0, 0, 0, 0, 0],
            ),
        ],
        ..NOTHING
    },
];

#[test]
fn what_is_dropped_means_what_is_kept(rt: HostRuntime) -> Result<(), Fail> {
    for (number, row) in ROWS.iter().enumerate() {
        assert!(rt; is_right(rt.alloc(), row)?, "row {number}");
    }
    Ok(())
}
