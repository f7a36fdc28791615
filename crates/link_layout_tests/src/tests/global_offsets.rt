//! Links with a global offset table: its slots, the kinds of relocations that speak of it, and its name.
use ld_main::{Clause, Verdict};
use link_samples::links::{Change, File, Judged, Row, Wanted, first_misjudged, first_wrong};
use link_samples::objects::{NamedSymbol, Relocation, Section};
use link_samples::parts::{DATA, LOADER, NO_F, R_64, R_PC32, RODATA, START, TEXT, V};
use std::test::Fail;

const R_REX_GOTPCRELX: u32 = 42;

/// That datum as a local one, and a global one without a definition.
const LOCAL_V: NamedSymbol<'static> = NamedSymbol { st_info: 1, ..V };

const NO_V: NamedSymbol<'static> = NamedSymbol { name: "v", ..NO_F };

/// The load is of symbol 2, or of symbol 1.
const LOAD: Relocation = Relocation(1, 3, R_REX_GOTPCRELX, 2, -4);

const LOAD_1: Relocation = Relocation(1, 3, R_REX_GOTPCRELX, 1, -4);

/// An object with a global `v`, which its text loads; and one that loads the `v` of another.
const LOADING: File = File::Object("a.o", &[LOADER, DATA], &[START, V], &[LOAD]);

const LOADING_TOO: File = File::Object("b.o", &[LOADER], &[NO_V], &[LOAD_1]);

const SLOT_MAP: &[u8] = b"ldmap 2\n\
    object 0 0 0 a.o\n\
    place 0000000000401000 16 0 1 .text\n\
    place 0000000000402000 8 0 2 .data\n\
    got 0000000000402008 16\n\
    slot 0000000000402010 value name v\n\
    symbol 0000000000401000 strong 0 1 _start\n\
    symbol 0000000000402000 strong 0 2 v\n\
    end\n";

/// A word of zeros, and a slot with the address 0x402000.
const GOT_BYTES: [u8; 16] = [0, 0, 0, 0, 0, 0, 0, 0, 0, 0x20, 0x40, 0, 0, 0, 0, 0];

/// Read-only data of 32 bytes with GOT32, GOTPC32, GOTOFF64, SIZE64 and GOT64, and these fields.
const NAMING: File = File::Object(
    "b.o",
    &[Section {
        bytes: &[0; 32],
        ..RODATA
    }],
    &[NO_V, TABLE],
    &[
        Relocation(1, 0, 3, 1, 0),
        Relocation(1, 4, 26, 2, 0),
        Relocation(1, 8, 25, 1, 0),
        Relocation(1, 16, 33, 1, 1),
        Relocation(1, 24, 27, 1, 0),
    ],
);

const NAMING_FIELDS: [u8; 32] = [
    8, 0, 0, 0, 0xe4, 0x1e, 0, 0, 0xf8, 0xff, 0xff, 0xff, 0xff, 0xff, 0xff, 0xff, 9, 0, 0, 0, 0, 0,
    0, 0, 8, 0, 0, 0, 0, 0, 0, 0,
];

const LOCAL_MAP: &[u8] = b"ldmap 2\n\
    object 0 0 0 a.o\n\
    object 1 1 0 b.o\n\
    place 0000000000401000 16 0 1 .text\n\
    place 0000000000402000 8 0 2 .data\n\
    place 0000000000401010 16 1 1 .text\n\
    place 0000000000402008 8 1 2 .data\n\
    got 0000000000402010 24\n\
    slot 0000000000402018 value local 0 1\n\
    slot 0000000000402020 value local 1 1\n\
    symbol 0000000000401000 strong 0 2 _start\n\
    end\n";

const LOCAL_SLOTS: [u8; 24] = [
    0, 0, 0, 0, 0, 0, 0, 0, 0, 0x20, 0x40, 0, 0, 0, 0, 0, 8, 0x20, 0x40, 0, 0, 0, 0, 0,
];

static SLOTS: [Row; 6] = [
    // A slot holds the address of its target.
    (
        &[LOADING],
        "a.o",
        Wanted::Linked(
            8216,
            &[(0x1003, &[0x09, 0x10, 0, 0]), (0x2008, &GOT_BYTES)],
            SLOT_MAP,
        ),
    ),
    (
        &[LOADING, NAMING],
        "a.o b.o",
        Wanted::Linked(8216, &[(0x120, &NAMING_FIELDS), (0x2008, &GOT_BYTES)], b""),
    ),
    // Local symbols have slots of their own; two loads of a name share its slot.
    (
        &[
            File::Object("a.o", &[LOADER, DATA], &[LOCAL_V, START], &[LOAD_1]),
            File::Object("b.o", &[LOADER, DATA], &[LOCAL_V], &[LOAD_1]),
        ],
        "a.o b.o",
        Wanted::Linked(
            0,
            &[
                (0x1003, &[0x11, 0x10, 0, 0]),
                (0x1013, &[0x09, 0x10, 0, 0]),
                (0x2010, &LOCAL_SLOTS),
            ],
            LOCAL_MAP,
        ),
    ),
    (
        &[LOADING, LOADING_TOO],
        "a.o b.o",
        Wanted::Linked(
            0,
            &[
                (0x1003, &[0x09, 0x10, 0, 0]),
                (0x1013, &[0xf9, 0x0f, 0, 0]),
                (0x2008, &GOT_BYTES),
            ],
            b"",
        ),
    ),
    // A weak name without a definition has a slot of zeros.
    (
        &[File::Object(
            "a.o",
            &[LOADER, DATA],
            &[
                START,
                NamedSymbol {
                    name: "w",
                    st_info: 0x20,
                    ..NO_F
                },
            ],
            &[LOAD],
        )],
        "a.o",
        Wanted::Linked(
            8216,
            &[(0x1003, &[0x09, 0x10, 0, 0]), (0x2008, &[0; 16])],
            b"",
        ),
    ),
    // The first load in load order is of `_start`, so its slot stands first; the others are of `v`.
    (
        &[
            LOADING,
            File::Object(
                "b.o",
                &[LOADER],
                &[NamedSymbol {
                    name: "_start",
                    ..NO_F
                }],
                &[LOAD_1],
            ),
            File::Object("c.o", &[LOADER], &[NO_V], &[LOAD_1]),
        ],
        "b.o a.o c.o",
        Wanted::Linked(
            0,
            &[(
                0x2008,
                &[
                    0, 0, 0, 0, 0, 0, 0, 0, 0x10, 0x10, 0x40, 0, 0, 0, 0, 0, 0, 0x20, 0x40, 0,
                ],
            )],
            b"",
        ),
    ),
];

#[test]
fn slots_hold_the_addresses_of_their_targets(rt: HostRuntime) -> Result<(), Fail> {
    assert_eq!(rt; first_wrong(rt.alloc(), &SLOTS)?, None);
    Ok(())
}

/// The name of the table without a definition, and its distance in a text.
const TABLE: NamedSymbol<'static> = NamedSymbol {
    name: "_GLOBAL_OFFSET_TABLE_",
    ..NO_F
};

const DISTANCE: Relocation = Relocation(1, 0, R_PC32, 2, 0);

const NAMER: File = File::Object("a.o", &[TEXT], &[START, TABLE], &[DISTANCE]);

const NAME_MAP: &[u8] = b"ldmap 2\n\
    object 0 0 0 a.o\n\
    place 0000000000401000 9 0 1 .text\n\
    got 0000000000402000 8\n\
    symbol 0000000000402000 linker _GLOBAL_OFFSET_TABLE_\n\
    symbol 0000000000401000 strong 0 1 _start\n\
    end\n";

const NO_GOT_MAP: &[u8] = b"ldmap 2\n\
    object 0 0 0 a.o\n\
    place 0000000000401000 9 0 1 .text\n\
    symbol 0000000000401000 strong 0 1 _start\n\
    end\n";

static NAMES: [Row; 4] = [
    // Its name makes a table, not without a relocation; it may be an object's.
    (
        &[NAMER],
        "a.o",
        Wanted::Linked(
            0x2008,
            &[(0x1000, &[0, 0x10, 0, 0]), (0x2000, &[0; 8])],
            NAME_MAP,
        ),
    ),
    (
        &[File::Object("a.o", &[TEXT], &[START, TABLE], &[])],
        "a.o",
        Wanted::Linked(0, &[], NO_GOT_MAP),
    ),
    (
        &[
            NAMER,
            File::Object(
                "b.o",
                &[TEXT],
                &[NamedSymbol {
                    name: "_GLOBAL_OFFSET_TABLE_",
                    ..START
                }],
                &[],
            ),
        ],
        "a.o b.o",
        Wanted::Linked(0x1012, &[(0x1000, &[9, 0, 0, 0])], b""),
    ),
    // The names that stand for ends, with 8 bytes of data and a table of 16 bytes behind.
    (
        &[
            LOADING,
            File::Object(
                "b.o",
                &[Section {
                    bytes: &[0; 32],
                    ..RODATA
                }],
                &[
                    NamedSymbol {
                        name: "_edata",
                        ..NO_F
                    },
                    NamedSymbol {
                        name: "edata",
                        ..NO_F
                    },
                    NamedSymbol {
                        name: "_end",
                        ..NO_F
                    },
                    NamedSymbol {
                        name: "end",
                        ..NO_F
                    },
                ],
                &[
                    Relocation(1, 0, R_64, 1, 0),
                    Relocation(1, 8, R_64, 2, 0),
                    Relocation(1, 16, R_64, 3, 0),
                    Relocation(1, 24, R_64, 4, 0),
                ],
            ),
        ],
        "a.o b.o",
        Wanted::Linked(
            0,
            &[(
                0x120,
                &[
                    0x18, 0x20, 0x40, 0, 0, 0, 0, 0, 0x18, 0x20, 0x40, 0, 0, 0, 0, 0, 0x18, 0x20,
                    0x40, 0, 0, 0, 0, 0, 0x18, 0x20, 0x40, 0, 0, 0, 0, 0,
                ],
            )],
            b"",
        ),
    ),
];

#[test]
fn its_name_makes_a_table(rt: HostRuntime) -> Result<(), Fail> {
    assert_eq!(rt; first_wrong(rt.alloc(), &NAMES)?, None);
    Ok(())
}

/// The lines of the table and its slot, for which others are put.
const LINES: &str = "got 0000000000402008 16\nslot 0000000000402010 value name v\n";

static WRONG_LINES: [Judged; 12] = [
    (
        Change::Text(LINES, "slot 0000000000402010 value name v\n"),
        Verdict::No(Clause::C7),
    ),
    (
        Change::Text(LINES, "got 0000000000402008 16\n"),
        Verdict::No(Clause::C7),
    ),
    (
        Change::Text(LINES, "got 0000000000402008 8\n"),
        Verdict::No(Clause::C7),
    ),
    (
        Change::Text(
            LINES,
            "got 0000000000402008 8\nslot 0000000000402010 value name v\n",
        ),
        Verdict::No(Clause::C7),
    ),
    (
        Change::Text(
            LINES,
            "got 0000000000402008 16\nslot 0000000000402008 value name v\n",
        ),
        Verdict::No(Clause::C7),
    ),
    (
        Change::Text(
            LINES,
            "got 0000000000402008 16\nslot 0000000000402010 thread name v\n",
        ),
        Verdict::No(Clause::C7),
    ),
    (
        Change::Text(
            LINES,
            "got 0000000000402008 16\nslot 0000000000402010 value name w\n",
        ),
        Verdict::No(Clause::C7),
    ),
    (
        Change::Text(
            LINES,
            "got 0000000000402008 16\nslot 0000000000402010 value local 0 2\n",
        ),
        Verdict::No(Clause::C7),
    ),
    (
        Change::Text(
            LINES,
            "got 0000000000402008 16\nslot 0000000000402010 value local 9 9\n",
        ),
        Verdict::No(Clause::C7),
    ),
    (
        Change::Text(
            LINES,
            "got 0000000000402008 16\nslot 0000000000402008 value name v\nslot 0000000000402010 value name v\n",
        ),
        Verdict::No(Clause::C7),
    ),
    // Not a multiple of 8; past the end of the segment.
    (
        Change::Text(
            LINES,
            "got 000000000040200c 8\nslot 0000000000402014 value name v\n",
        ),
        Verdict::No(Clause::C5),
    ),
    (
        Change::Text(
            LINES,
            "got 0000000000402008 24\nslot 0000000000402010 value name v\n",
        ),
        Verdict::No(Clause::C6),
    ),
];

/// The right map, with the image as it is and with a byte of the table changed.
static WRONG_BYTES: [Judged; 6] = [
    (Change::Map(SLOT_MAP), Verdict::Yes),
    (Change::Image(0x2008, 0x55), Verdict::No(Clause::C7)),
    (Change::Image(0x200f, 0x55), Verdict::No(Clause::C7)),
    (Change::Image(0x2010, 0x55), Verdict::No(Clause::C7)),
    (Change::Image(0x2012, 0x55), Verdict::No(Clause::C7)),
    (Change::Image(0x2017, 0x55), Verdict::No(Clause::C7)),
];

const PLAIN: &[File] = &[File::Object("a.o", &[TEXT, DATA], &[START], &[])];

/// A table of no bytes that nothing asks for.
static NO_TABLE: [Judged; 1] = [(
    Change::Map(
        b"ldmap 2\nobject 0 0 0 a.o\nplace 0000000000401000 9 0 1 .text\nplace 0000000000402000 8 0 2 .data\ngot 0000000000402008 0\nsymbol 0000000000401000 strong 0 1 _start\nend\n",
    ),
    Verdict::No(Clause::C7),
)];

#[test]
fn wrong_tables_fail_the_seventh_clause(rt: HostRuntime) -> Result<(), Fail> {
    let found = [
        first_misjudged(rt.alloc(), &[LOADING], "a.o", &WRONG_LINES)?,
        first_misjudged(rt.alloc(), &[LOADING], "a.o", &WRONG_BYTES)?,
        first_misjudged(rt.alloc(), PLAIN, "a.o", &NO_TABLE)?,
    ];
    assert_eq!(rt; found, [None, None, None]);
    Ok(())
}
