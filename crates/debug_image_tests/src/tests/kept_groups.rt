//! Which group is the kept one of a signature, and what is dropped, left out or meant for it (System V gABI 4, "Section Groups").
//! The offsets are counted by hand in what is joined.
use crate::tests::debug_data::{
    FIRST_SECTION, INFO, R_32, SECOND_SECTION, SQUEEZED, STR, THIRD_SECTION,
};
use crate::tests::rows::{NOTHING, Row, is_right};
use link_samples::links::File;
use link_samples::objects::{NamedSymbol, Relocation, Section};
use link_samples::parts::{F, GROUP, R_64, START, TEXT};
use std::test::Fail;

/// A group of section 2, and one that is no COMDAT group, of the signature that is symbol 2.
const OF_SECOND: Section<'static> = GROUP;

const PLAIN_GROUP: Section<'static> = Section {
    bytes: &[0, 0, 0, 0, 2, 0, 0, 0],
    ..GROUP
};

/// Two units of one size.
const FIRST_UNIT: Section<'static> = Section {
    name: ".debug_macro",
    bytes: &[0xa1, 0xa2, 0xa3],
    ..INFO
};

const SECOND_UNIT: Section<'static> = Section {
    bytes: &[0xb1, 0xb2, 0xb3],
    ..FIRST_UNIT
};

/// A signature, a LOCAL one as compilers write them.
const M: NamedSymbol<'static> = NamedSymbol {
    name: "wm4.m",
    st_info: 0,
    ..SECOND_SECTION
};

const THIRD: NamedSymbol<'static> = NamedSymbol {
    st_shndx: 3,
    ..START
};

const THIRD_F: NamedSymbol<'static> = NamedSymbol { name: "f", ..THIRD };

const THIRD_G: NamedSymbol<'static> = NamedSymbol { name: "g", ..THIRD };

/// Byte 1 of the unit.
const TO_UNIT: [Relocation; 1] = [Relocation(4, 0, R_32, 1, 1)];

/// The group of sections 3 and 4, and data of the second one's name that are of no group.
const OF_PAIR: Section<'static> = Section {
    bytes: &[1, 0, 0, 0, 3, 0, 0, 0, 4, 0, 0, 0],
    signature: 3,
    ..GROUP
};

const FILLER: Section<'static> = Section {
    name: ".debug_types",
    bytes: &[0xee; 2],
    ..INFO
};

const TYPES: Section<'static> = Section {
    bytes: &[0xd1, 0xd2, 0xd3],
    ..FILLER
};

const FOURTH_SECTION: NamedSymbol<'static> = NamedSymbol {
    st_shndx: 4,
    ..FIRST_SECTION
};

const FIFTH: NamedSymbol<'static> = NamedSymbol {
    st_shndx: 5,
    ..START
};

const FIFTH_F: NamedSymbol<'static> = NamedSymbol { name: "f", ..FIFTH };

/// Byte 1 of each of the two.
const TO_PAIR: [Relocation; 2] = [Relocation(6, 0, R_32, 1, 1), Relocation(6, 4, R_32, 2, 1)];

/// A name at byte 1 of `.debug_str`.
const TO_STRING: [Relocation; 1] = [Relocation(2, 0, R_32, 1, 1)];

/// A function of a group.
const FUNCTION: Section<'static> = Section {
    name: ".text.g",
    ..TEXT
};

const SIGNATURE: NamedSymbol<'static> = NamedSymbol {
    name: "g",
    st_info: 0x22,
    st_shndx: 2,
    st_value: 0,
    st_size: 9,
};

/// The group of section 6, which holds relocations for section 3, of the signature that is symbol 1.
const OF_RELOCATIONS: Section<'static> = Section {
    bytes: &[1, 0, 0, 0, 6, 0, 0, 0],
    signature: 1,
    ..GROUP
};

static ROWS: [Row; 5] = [
    // The group of the first object isn't a COMDAT one, so that of the second is kept: its unit is at 3.
    Row {
        files: &[
            File::Object(
                "a.o",
                &[PLAIN_GROUP, FIRST_UNIT, TEXT, INFO],
                &[SECOND_SECTION, M, THIRD],
                &TO_UNIT,
            ),
            File::Object(
                "b.o",
                &[OF_SECOND, SECOND_UNIT, TEXT, INFO],
                &[SECOND_SECTION, M, THIRD_F],
                &TO_UNIT,
            ),
            File::Object(
                "c.o",
                &[OF_SECOND, SECOND_UNIT, TEXT, INFO],
                &[SECOND_SECTION, M, THIRD_G],
                &TO_UNIT,
            ),
        ],
        held: &[
            (".debug_macro", &[0xa1, 0xa2, 0xa3, 0xb1, 0xb2, 0xb3]),
            (
                ".debug_info",
                &[
                    1, 0, 0, 0, 0, 0, 0, 0, 4, 0, 0, 0, 0, 0, 0, 0, 4, 0, 0, 0, 0, 0, 0, 0,
                ],
            ),
        ],
        ..NOTHING
    },
    // Members of one size and two names: they are at 0 of the one, and at 2 of the other.
    Row {
        files: &[
            File::Object(
                "a.o",
                &[OF_PAIR, FILLER, FIRST_UNIT, TYPES, TEXT, INFO],
                &[THIRD_SECTION, FOURTH_SECTION, M, FIFTH],
                &TO_PAIR,
            ),
            File::Object(
                "b.o",
                &[OF_PAIR, FILLER, FIRST_UNIT, TYPES, TEXT, INFO],
                &[THIRD_SECTION, FOURTH_SECTION, M, FIFTH_F],
                &TO_PAIR,
            ),
        ],
        held: &[
            (".debug_macro", &[0xa1, 0xa2, 0xa3]),
            (".debug_types", &[0xee, 0xee, 0xd1, 0xd2, 0xd3, 0xee, 0xee]),
            (
                ".debug_info",
                &[1, 0, 0, 0, 3, 0, 0, 0, 1, 0, 0, 0, 3, 0, 0, 0],
            ),
        ],
        ..NOTHING
    },
    // The kept unit is in the second object, which is left out, and so the third one is; the first one has no such unit.
    Row {
        files: &[
            File::Object(
                "a.o",
                &[TEXT, INFO, STR],
                &[THIRD_SECTION, START],
                &TO_STRING,
            ),
            File::Object(
                "b.o",
                &[OF_SECOND, FIRST_UNIT, TEXT, SQUEEZED],
                &[SECOND_SECTION, M, THIRD_F],
                &[],
            ),
            File::Object(
                "c.o",
                &[OF_SECOND, FIRST_UNIT, TEXT, INFO],
                &[SECOND_SECTION, M, THIRD_G],
                &TO_UNIT,
            ),
        ],
        held: &[
            (".debug_info", &[1, 0, 0, 0, 0, 0, 0, 0]),
            (".debug_str", b"ab\0"),
        ],
        absent: &[".debug_macro"],
        left: [2, 3, 1],
        ..NOTHING
    },
    // A function that is dropped for one of an object whose debug data are left out: it is at 0x401000, and the second object's
    // debug data stay.
    Row {
        files: &[
            File::Object(
                "a.o",
                &[OF_SECOND, FUNCTION, TEXT, SQUEEZED],
                &[SECOND_SECTION, SIGNATURE, THIRD],
                &[],
            ),
            File::Object(
                "b.o",
                &[OF_SECOND, FUNCTION, TEXT, INFO],
                &[SECOND_SECTION, SIGNATURE, THIRD_F],
                &[Relocation(4, 0, R_64, 1, 2)],
            ),
        ],
        held: &[(".debug_info", &[0x02, 0x10, 0x40, 0, 0, 0, 0, 0])],
        absent: &[".debug_str"],
        left: [1, 1, 1],
        ..NOTHING
    },
    // Relocations that are dropped with their group want nothing.
    Row {
        files: &[
            File::Object(
                "a.o",
                &[OF_RELOCATIONS, TEXT, INFO],
                &[
                    M,
                    NamedSymbol {
                        st_shndx: 2,
                        ..START
                    },
                ],
                &[Relocation(3, 0, R_64, 2, 0)],
            ),
            File::Object(
                "b.o",
                &[OF_RELOCATIONS, TEXT, INFO],
                &[M, NamedSymbol { st_shndx: 2, ..F }],
                &[Relocation(3, 0, R_64, 2, 0)],
            ),
        ],
        held: &[(
            ".debug_info",
            &[0x00, 0x10, 0x40, 0, 0, 0, 0, 0, 0, 0, 0, 0, 0, 0, 0, 0],
        )],
        ..NOTHING
    },
];

#[test]
fn the_first_comdat_group_of_a_signature_is_kept(rt: HostRuntime) -> Result<(), Fail> {
    for (number, row) in ROWS.iter().enumerate() {
        assert!(rt; is_right(rt.alloc(), row)?, "row {number}");
    }
    Ok(())
}
