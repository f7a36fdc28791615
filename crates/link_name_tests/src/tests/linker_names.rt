//! Links that use names which the linker itself defines: where the image and its parts begin and end.
use elf_model::LinkError;
use ld_main::Output;
use link_samples::links::{File, Row, Wanted, first_wrong, is_as_wanted, linked_bytes};
use link_samples::objects::{NamedSymbol, Relocation, Section, relocatable};
use link_samples::parts::{BSS, DATA, NO_F, R_64, R_PC32, START, TEXT};
use std::alloc::Global;
use std::test::Fail;

const END: NamedSymbol<'static> = NamedSymbol {
    name: "_end",
    ..NO_F
};

/// The distance of `_end` in a text.
const USER: File = File::Object(
    "a.o",
    &[TEXT],
    &[START, END],
    &[Relocation(1, 0, R_PC32, 2, 0)],
);

/// The addresses of four names, one after the other, in data of 36 bytes; text, and a `.bss` of 16 bytes.
const FOUR: File = File::Object(
    "a.o",
    &[
        TEXT,
        Section {
            bytes: &[0; 36],
            ..DATA
        },
        Section {
            sh_addralign: 16,
            memory: 16,
            ..BSS
        },
    ],
    &[
        START,
        NamedSymbol {
            name: "_etext",
            ..NO_F
        },
        NamedSymbol {
            name: "_edata",
            ..NO_F
        },
        NamedSymbol {
            name: "__bss_start",
            ..NO_F
        },
        END,
    ],
    &[
        Relocation(2, 0, R_64, 2, 0),
        Relocation(2, 8, R_64, 3, 0),
        Relocation(2, 16, R_64, 4, 0),
        Relocation(2, 24, R_64, 5, 0),
    ],
);

const FOUR_MAP: &[u8] = b"ldmap 2\n\
    object 0 0 0 a.o\n\
    place 0000000000401000 9 0 1 .text\n\
    place 0000000000402000 36 0 2 .data\n\
    place 0000000000402030 16 0 3 .bss\n\
    symbol 0000000000402030 linker __bss_start\n\
    symbol 0000000000402024 linker _edata\n\
    symbol 0000000000402040 linker _end\n\
    symbol 0000000000401009 linker _etext\n\
    symbol 0000000000401000 strong 0 1 _start\n\
    end\n";

const FOUR_FIELDS: [u8; 32] = [
    0x09, 0x10, 0x40, 0, 0, 0, 0, 0, 0x24, 0x20, 0x40, 0, 0, 0, 0, 0, 0x30, 0x20, 0x40, 0, 0, 0, 0,
    0, 0x40, 0x20, 0x40, 0, 0, 0, 0, 0,
];

static LINKS: [Row; 3] = [
    // An object may define a name of the linker's; the entry is an object's.
    (
        &[
            USER,
            File::Object(
                "b.o",
                &[TEXT],
                &[NamedSymbol {
                    name: "_end",
                    ..START
                }],
                &[],
            ),
        ],
        "a.o b.o",
        Wanted::Linked(0, &[(0x1000, &[9, 0, 0, 0])], b""),
    ),
    (&[USER], "a.o -e _end", Wanted::Refused("NoEntry (18)")),
    (
        &[FOUR],
        "a.o",
        Wanted::Linked(0, &[(0x2000, &FOUR_FIELDS)], FOUR_MAP),
    ),
];

#[test]
fn names_stand_for_the_ends_of_parts(rt: HostRuntime) -> Result<(), Fail> {
    assert_eq!(rt; first_wrong(rt.alloc(), &LINKS)?, None);
    Ok(())
}

/// The link of a text and of data of 8 bytes, which is the address of a name.
fn link_name(alloc: Global, name: &str) -> Result<Result<Output, LinkError>, Fail> {
    let symbols = [START, NamedSymbol { name, ..NO_F }];
    let address = Relocation(2, 0, R_64, 2, 0);
    let bytes = relocatable(alloc, &[TEXT, DATA], &symbols, &[address])?;
    linked_bytes(alloc, bytes)
}

/// Names, and the low bytes of their addresses in that link; without a section of type NOBITS none begins.
static NAMES: [(&str, Wanted); 8] = [
    (
        "__executable_start",
        Wanted::Linked(0, &[(0x2000, &[0, 0, 0x40])], b""),
    ),
    (
        "__ehdr_start",
        Wanted::Linked(0, &[(0x2000, &[0, 0, 0x40])], b""),
    ),
    (
        "etext",
        Wanted::Linked(0, &[(0x2000, &[9, 0x10, 0x40])], b""),
    ),
    (
        "edata",
        Wanted::Linked(0, &[(0x2000, &[8, 0x20, 0x40])], b""),
    ),
    ("end", Wanted::Linked(0, &[(0x2000, &[8, 0x20, 0x40])], b"")),
    (
        "_end",
        Wanted::Linked(0, &[(0x2000, &[8, 0x20, 0x40])], b""),
    ),
    (
        "__bss_start",
        Wanted::Linked(0, &[(0x2000, &[0, 0, 0])], b""),
    ),
    (
        "_GLOBAL_OFFSET_TABLE_",
        Wanted::Linked(0, &[(0x2000, &[8, 0x20, 0x40])], b""),
    ),
];

#[test]
fn each_name_has_its_address(rt: HostRuntime) -> Result<(), Fail> {
    for (name, wanted) in &NAMES {
        let answer = link_name(rt.alloc(), name)?;
        assert!(rt; is_as_wanted(rt.alloc(), &answer, wanted)?, "{name}");
    }
    Ok(())
}
