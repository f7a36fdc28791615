//! Arrays of functions with numbers in their sections' names, which come first, by the number.
use ld_main::{Clause, Verdict};
use link_samples::links::{Change, File, Judged, Row, Wanted, first_misjudged, first_wrong};
use link_samples::objects::{NamedSymbol, Relocation, Section};
use link_samples::parts::{DATA, NO_F, R_64, START, TEXT};
use std::test::Fail;

/// Arrays of one function, each of other bytes.
const ONES: Section<'static> = Section {
    name: ".init_array",
    bytes: &[1; 8],
    ..DATA
};

const TWOS: Section<'static> = Section {
    bytes: &[2; 8],
    ..ONES
};

const THREES: Section<'static> = Section {
    bytes: &[3; 8],
    ..ONES
};

const FOURS: Section<'static> = Section {
    bytes: &[4; 8],
    ..ONES
};

/// An object with 16 bytes of data, which are to hold where the arrays begin and end.
const BOUNDS: File = File::Object(
    "4.o",
    &[Section {
        bytes: &[0; 16],
        ..DATA
    }],
    &[
        NamedSymbol {
            name: "__init_array_start",
            ..NO_F
        },
        NamedSymbol {
            name: "__init_array_end",
            ..NO_F
        },
    ],
    &[Relocation(1, 0, R_64, 1, 0), Relocation(1, 8, R_64, 2, 0)],
);

/// Where the arrays begin and end: 0x402000 and 0x402020.
const ENDS: [u8; 16] = [
    0, 0x20, 0x40, 0, 0, 0, 0, 0, 0x20, 0x20, 0x40, 0, 0, 0, 0, 0,
];

static ORDERS: [Row; 3] = [
    (
        &[
            File::Object("0.o", &[TEXT, ONES], &[START], &[]),
            File::Object(
                "1.o",
                &[Section {
                    name: ".init_array.00010",
                    ..TWOS
                }],
                &[],
                &[],
            ),
            File::Object(
                "2.o",
                &[Section {
                    name: ".init_array.5",
                    ..THREES
                }],
                &[],
                &[],
            ),
            File::Object(
                "3.o",
                &[Section {
                    name: ".init_array.123456",
                    ..FOURS
                }],
                &[],
                &[],
            ),
            BOUNDS,
        ],
        "0.o 1.o 2.o 3.o 4.o",
        Wanted::Linked(
            0,
            &[
                (0x2000, &[3; 8]),
                (0x2008, &[2; 8]),
                (0x2010, &[1; 8]),
                (0x2018, &[4; 8]),
                (0x2020, &ENDS),
            ],
            b"",
        ),
    ),
    // Equal numbers stand in load order, and what has no number of 1 to 5 digits behind all numbers.
    (
        &[
            File::Object(
                "0.o",
                &[
                    TEXT,
                    Section {
                        name: ".init_array.7",
                        ..ONES
                    },
                ],
                &[START],
                &[],
            ),
            File::Object(
                "1.o",
                &[Section {
                    name: ".init_array.x",
                    ..TWOS
                }],
                &[],
                &[],
            ),
            File::Object(
                "2.o",
                &[Section {
                    name: ".init_array.99999",
                    ..THREES
                }],
                &[],
                &[],
            ),
            File::Object(
                "3.o",
                &[Section {
                    name: ".init_array.007",
                    ..FOURS
                }],
                &[],
                &[],
            ),
            BOUNDS,
        ],
        "0.o 1.o 2.o 3.o 4.o",
        Wanted::Linked(
            0,
            &[
                (0x2000, &[1; 8]),
                (0x2008, &[4; 8]),
                (0x2010, &[3; 8]),
                (0x2018, &[2; 8]),
                (0x2020, &ENDS),
            ],
            b"",
        ),
    ),
    (
        &[
            File::Object(
                "0.o",
                &[
                    TEXT,
                    Section {
                        name: ".init_array.",
                        ..ONES
                    },
                ],
                &[START],
                &[],
            ),
            File::Object(
                "1.o",
                &[Section {
                    name: ".init_array.1a",
                    ..TWOS
                }],
                &[],
                &[],
            ),
            File::Object(
                "2.o",
                &[Section {
                    name: ".init_array.0",
                    ..THREES
                }],
                &[],
                &[],
            ),
            File::Object("3.o", &[FOURS], &[], &[]),
            BOUNDS,
        ],
        "0.o 1.o 2.o 3.o 4.o",
        Wanted::Linked(
            0,
            &[
                (0x2000, &[3; 8]),
                (0x2008, &[1; 8]),
                (0x2010, &[2; 8]),
                (0x2018, &[4; 8]),
                (0x2020, &ENDS),
            ],
            b"",
        ),
    ),
];

/// Three arrays in one object.
const THREE: &[File] = &[File::Object(
    "a.o",
    &[
        TEXT,
        Section {
            name: ".fini_array",
            ..ONES
        },
        Section {
            name: ".fini_array.00010",
            ..ONES
        },
        Section {
            name: ".fini_array.5",
            ..ONES
        },
    ],
    &[START],
    &[],
)];

const ORDER_MAP: &[u8] = b"ldmap 2\n\
    object 0 0 0 a.o\n\
    place 0000000000401000 9 0 1 .text\n\
    place 0000000000402010 8 0 2 .fini_array\n\
    place 0000000000402008 8 0 3 .fini_array.00010\n\
    place 0000000000402000 8 0 4 .fini_array.5\n\
    symbol 0000000000401000 strong 0 1 _start\n\
    end\n";

const LOAD_ORDER_MAP: &[u8] = b"ldmap 2\n\
    object 0 0 0 a.o\n\
    place 0000000000401000 9 0 1 .text\n\
    place 0000000000402000 8 0 2 .fini_array\n\
    place 0000000000402008 8 0 3 .fini_array.00010\n\
    place 0000000000402010 8 0 4 .fini_array.5\n\
    symbol 0000000000401000 strong 0 1 _start\n\
    end\n";

static IN_ONE: [Row; 1] = [(THREE, "a.o", Wanted::Linked(0, &[], ORDER_MAP))];

static IN_LOAD_ORDER: [Judged; 1] = [(Change::Map(LOAD_ORDER_MAP), Verdict::No(Clause::C5))];

#[test]
fn numbers_come_first(rt: HostRuntime) -> Result<(), Fail> {
    let found = [
        first_wrong(rt.alloc(), &ORDERS)?,
        first_wrong(rt.alloc(), &IN_ONE)?,
        first_misjudged(rt.alloc(), THREE, "a.o", &IN_LOAD_ORDER)?,
    ];
    assert_eq!(rt; found, [None, None, None]);
    Ok(())
}
