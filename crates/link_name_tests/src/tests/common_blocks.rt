//! Links of objects with common symbols (System V gABI 4, "Symbol Table"): which definition a name has, its block's size,
//! alignment and place, and what uses it.
use elf_model::{LinkError, SHN_COMMON};
use ld_main::{Clause, Output, Verdict};
use link_samples::links::{
    Change, File, Judged, Row, Wanted, files_of, first_misjudged, first_wrong, is_as_wanted,
    linked, linked_bytes,
};
use link_samples::objects::{NamedSymbol, Relocation, Section, object};
use link_samples::parts::{BSS, DATA, F, NO_F, R_64, START, TEXT};
use std::alloc::Global;
use std::test::Fail;

const R_SIZE64: u32 = 33;

/// A GLOBAL symbol `c` without a definition, common ones of 4 and of 8 bytes with that alignment, and a common `f`.
const NO_C: NamedSymbol<'static> = NamedSymbol { name: "c", ..NO_F };

const C_4: NamedSymbol<'static> = NamedSymbol {
    st_info: 0x11,
    st_shndx: SHN_COMMON,
    st_value: 4,
    st_size: 4,
    ..NO_C
};

const C_8: NamedSymbol<'static> = NamedSymbol {
    st_value: 8,
    st_size: 8,
    ..C_4
};

const F_8: NamedSymbol<'static> = NamedSymbol { name: "f", ..C_8 };

/// A WEAK definition of `f`.
const WEAK_F: NamedSymbol<'static> = NamedSymbol { st_info: 0x22, ..F };

/// An object of a text and of `c` without a definition.
const START_NO_C: File = File::Object("a.o", &[TEXT], &[START, NO_C], &[]);

/// Files, and the end of the map of their link.
static MAPS: [(&[File], &[u8]); 5] = [
    // A strong definition before a common symbol, and that before a weak definition, which stands first.
    (
        &[
            File::Object("a.o", &[TEXT], &[START, WEAK_F], &[]),
            File::Object("b.o", &[TEXT], &[F], &[]),
            File::Object("c.o", &[], &[F_8], &[]),
        ],
        b"place 0000000000401000 9 0 1 .text\n\
        place 0000000000401009 9 1 1 .text\n\
        symbol 0000000000401000 strong 0 1 _start\n\
        symbol 0000000000401009 strong 1 1 f\n\
        end\n",
    ),
    (
        &[
            File::Object("a.o", &[TEXT], &[START, WEAK_F], &[]),
            File::Object("b.o", &[], &[F_8], &[]),
            File::Object("c.o", &[], &[NO_C], &[]),
        ],
        b"common 0000000000402000 8 8 f\n\
        symbol 0000000000401000 strong 0 1 _start\n\
        symbol 0000000000402000 common f\n\
        end\n",
    ),
    // The greatest size and the greatest alignment.
    (
        &[
            START_NO_C,
            File::Object("b.o", &[], &[C_4], &[]),
            File::Object("c.o", &[], &[C_8], &[]),
        ],
        b"common 0000000000402000 8 8 c\n\
        symbol 0000000000401000 strong 0 1 _start\n\
        symbol 0000000000402000 common c\n\
        end\n",
    ),
    (
        &[
            File::Object(
                "a.o",
                &[TEXT],
                &[
                    START,
                    NamedSymbol {
                        st_value: 1,
                        st_size: 16,
                        ..C_4
                    },
                ],
                &[],
            ),
            File::Object(
                "b.o",
                &[],
                &[NamedSymbol {
                    st_value: 0x20_0000,
                    st_size: 3,
                    ..C_4
                }],
                &[],
            ),
            File::Object("c.o", &[], &[NO_C], &[]),
        ],
        b"common 0000000000600000 16 2097152 c\n\
        symbol 0000000000401000 strong 0 1 _start\n\
        symbol 0000000000600000 common c\n\
        end\n",
    ),
    // Two blocks, in load order.
    (
        &[
            START_NO_C,
            File::Object("b.o", &[], &[NamedSymbol { name: "b", ..C_4 }], &[]),
            File::Object("c.o", &[], &[NamedSymbol { name: "a", ..C_8 }], &[]),
        ],
        b"common 0000000000402008 8 8 a\n\
        common 0000000000402000 4 4 b\n\
        symbol 0000000000401000 strong 0 1 _start\n\
        symbol 0000000000402008 common a\n\
        symbol 0000000000402000 common b\n\
        end\n",
    ),
];

/// Whether the map of a link of `a.o`, `b.o` and `c.o` ends with a text.
fn has_lines(alloc: Global, files: &[File], lines: &[u8]) -> Result<bool, Fail> {
    let files = files_of(alloc, files)?;
    Ok(linked(alloc, &files, "a.o b.o c.o")??.map.ends_with(lines))
}

/// A text, and a common `c` of 4 bytes and one of 8.
const TWO: &[File] = &[
    START_NO_C,
    File::Object("b.o", &[], &[C_4], &[]),
    File::Object("c.o", &[], &[C_8], &[]),
];

/// The header of the segment of that block: a PT_LOAD that may be read and written, of 8 bytes, none of them in the file.
const BLOCK_SEGMENT: [u8; 56] = [
    1, 0, 0, 0, 6, 0, 0, 0, 0, 0x20, 0, 0, 0, 0, 0, 0, 0, 0x20, 0x40, 0, 0, 0, 0, 0, 0, 0x20, 0x40,
    0, 0, 0, 0, 0, 0, 0, 0, 0, 0, 0, 0, 0, 8, 0, 0, 0, 0, 0, 0, 0, 0, 0x10, 0, 0, 0, 0, 0, 0,
];

const BLOCK_MAP: &[u8] = b"ldmap 2\n\
    object 0 0 0 a.o\n\
    object 1 1 0 b.o\n\
    object 2 2 0 c.o\n\
    place 0000000000401000 9 0 1 .text\n\
    common 0000000000402000 8 8 c\n\
    symbol 0000000000401000 strong 0 1 _start\n\
    symbol 0000000000402000 common c\n\
    end\n";

/// Data of 32 bytes: the address of `__bss_start`, that of `_end`, that of `c` and one more, and the size of `c` and two
/// more; and an object with a common `c` of 8 bytes.
const ADDRESSES: Section<'static> = Section {
    bytes: &[0; 32],
    ..DATA
};

const NAMES: &[NamedSymbol<'static>] = &[
    START,
    C_4,
    NamedSymbol {
        name: "__bss_start",
        ..NO_C
    },
    NamedSymbol {
        name: "_end",
        ..NO_C
    },
];

const FIELDS: &[Relocation] = &[
    Relocation(2, 0, R_64, 3, 0),
    Relocation(2, 8, R_64, 4, 0),
    Relocation(2, 16, R_64, 2, 1),
    Relocation(2, 24, R_SIZE64, 2, 2),
];

const SMALL_BSS: Section<'static> = Section {
    sh_addralign: 1,
    memory: 4,
    ..BSS
};

const EMPTY_BSS: Section<'static> = Section {
    memory: 0,
    ..SMALL_BSS
};

static LINKS: [Row; 5] = [
    // A block has no bytes in the file: the size of R, and the header of RW.
    (
        TWO,
        "a.o b.o c.o",
        Wanted::Linked(
            4105,
            &[(96, &[0x20, 1, 0, 0, 0, 0, 0, 0]), (176, &BLOCK_SEGMENT)],
            BLOCK_MAP,
        ),
    ),
    // `.bss` from 0x402020 on, and `c`, of 8 bytes, from 0x402028 on.
    (
        &[
            File::Object("a.o", &[TEXT, ADDRESSES, SMALL_BSS], NAMES, FIELDS),
            File::Object("b.o", &[], &[C_8], &[]),
        ],
        "a.o b.o",
        Wanted::Linked(
            0,
            &[(
                0x2000,
                &[
                    0x20, 0x20, 0x40, 0, 0, 0, 0, 0, 0x30, 0x20, 0x40, 0, 0, 0, 0, 0, 0x29, 0x20,
                    0x40, 0, 0, 0, 0, 0, 10, 0, 0, 0, 0, 0, 0, 0,
                ],
            )],
            b"",
        ),
    ),
    // An empty `.bss`, and `c` from 0x402020 on.
    (
        &[
            File::Object("a.o", &[TEXT, ADDRESSES, EMPTY_BSS], NAMES, FIELDS),
            File::Object("b.o", &[], &[C_8], &[]),
        ],
        "a.o b.o",
        Wanted::Linked(
            0,
            &[(
                0x2000,
                &[
                    0x20, 0x20, 0x40, 0, 0, 0, 0, 0, 0x28, 0x20, 0x40, 0, 0, 0, 0, 0, 0x21, 0x20,
                    0x40, 0, 0, 0, 0, 0, 10, 0, 0, 0, 0, 0, 0, 0,
                ],
            )],
            b"",
        ),
    ),
    // The entry may be a block.
    (
        &[File::Object("a.o", &[TEXT], &[C_8], &[])],
        "a.o -e c",
        Wanted::Linked(0, &[(24, &[0, 0x20, 0x40, 0, 0, 0, 0, 0])], b""),
    ),
    (
        &[File::Object(
            "a.o",
            &[TEXT],
            &[
                START,
                NamedSymbol {
                    st_value: 1,
                    st_size: 1 << 46,
                    ..C_4
                },
            ],
            &[],
        )],
        "a.o",
        Wanted::Refused("TooLarge (20)"),
    ),
];

#[test]
fn blocks_are_linked(rt: HostRuntime) -> Result<(), Fail> {
    for (number, (files, lines)) in MAPS.iter().enumerate() {
        assert!(rt; has_lines(rt.alloc(), files, lines)?, "row {number}");
    }
    assert_eq!(rt; first_wrong(rt.alloc(), &LINKS)?, None);
    Ok(())
}

/// The map of that link changed, and the least clause that then fails.
static WRONG_MAPS: [Judged; 8] = [
    // The size, the alignment, the name, no line.
    (Change::Text("8 8 c\n", "7 8 c\n"), Verdict::No(Clause::C3)),
    (Change::Text("8 8 c\n", "8 4 c\n"), Verdict::No(Clause::C3)),
    (Change::Text("8 8 c\n", "8 8 d\n"), Verdict::No(Clause::C3)),
    (
        Change::Text("common 0000000000402000 8 8 c\n", ""),
        Verdict::No(Clause::C3),
    ),
    // An address that isn't aligned, and one outside the segment.
    (
        Change::Text("common 0000000000402000", "common 0000000000402004"),
        Verdict::No(Clause::C5),
    ),
    (
        Change::Text("common 0000000000402000", "common 0000000000403000"),
        Verdict::No(Clause::C6),
    ),
    // A linker's name, and no line.
    (
        Change::Text("common c\n", "linker c\n"),
        Verdict::No(Clause::C13),
    ),
    (
        Change::Text("symbol 0000000000402000 common c\n", ""),
        Verdict::No(Clause::C13),
    ),
];

#[test]
fn wrong_lines_of_blocks_are_found(rt: HostRuntime) -> Result<(), Fail> {
    assert_eq!(rt;
        first_misjudged(rt.alloc(), TWO, "a.o b.o c.o", &WRONG_MAPS)?,
        None
    );
    Ok(())
}

/// What comes of an object with a common symbol of 8 bytes, which stands before `_start`.
fn link_common(
    alloc: Global,
    st_info: u8,
    st_value: u64,
) -> Result<Result<Output, LinkError>, Fail> {
    let symbol = NamedSymbol {
        st_info,
        st_value,
        ..C_8
    };
    let bytes = object(alloc, &[TEXT], &[symbol, START])?;
    linked_bytes(alloc, bytes)
}

const LINKED: Wanted = Wanted::Linked(0, &[], b"");

const REFUSED: Wanted = Wanted::Refused("BadCommon (17)");

/// The binding and type of a common symbol and its alignment, and what comes of its link.
static SOUNDNESS: [(u8, u64, Wanted); 10] = [
    (0x10, 1, LINKED),
    (0x11, 1 << 21, LINKED),
    (0x15, 16, LINKED),
    // LOCAL and WEAK; alignments 0, 24 and 2 ^ 22; of type TLS.
    (0x01, 8, REFUSED),
    (0x21, 8, REFUSED),
    (0x11, 0, REFUSED),
    (0x11, 24, REFUSED),
    (0x11, 1 << 22, REFUSED),
    (0x11, u64::MAX, REFUSED),
    (0x16, 8, REFUSED),
];

#[test]
fn unsound_common_symbols_are_refused(rt: HostRuntime) -> Result<(), Fail> {
    for (st_info, st_value, wanted) in &SOUNDNESS {
        let answer = link_common(rt.alloc(), *st_info, *st_value)?;
        let right = is_as_wanted(rt.alloc(), &answer, wanted)?;
        assert!(rt; right, "{st_info} aligned {st_value}");
    }
    Ok(())
}
