//! Links with weak definitions, references to weak names without one, and relocations of the plain kinds.
use elf_model::LinkError;
use ld_main::Output;
use link_samples::links::{File, Row, Wanted, first_wrong, is_as_wanted, linked_bytes};
use link_samples::objects::{NamedSymbol, Relocation, relocatable};
use link_samples::parts::{F, NO_F, R_64, R_PC32, START, TEXT, WEAK_NO_F};
use std::alloc::Global;
use std::test::Fail;

/// What comes of an object whose text has a relocation of a kind, of an absolute symbol of 8 bytes.
fn link_kind(alloc: Global, kind: u32, st_value: u64) -> Result<Result<Output, LinkError>, Fail> {
    let absolute = NamedSymbol {
        st_shndx: 0xfff1,
        st_value,
        st_size: 8,
        ..NO_F
    };
    let relocation = Relocation(1, 0, kind, 2, 0);
    let bytes = relocatable(alloc, &[TEXT], &[START, absolute], &[relocation])?;
    linked_bytes(alloc, bytes)
}

const OVERFLOW: Wanted = Wanted::Refused("Overflow (15)");

/// A kind, the value of an absolute symbol, and the bytes of the field with addend 0, or that it doesn't fit.
static KINDS: [(u32, u64, Wanted); 14] = [
    (
        10,
        0xffff_ffff,
        Wanted::Linked(0, &[(0x1000, &[0xff, 0xff, 0xff, 0xff])], b""),
    ),
    (
        10,
        0x8000_0000,
        Wanted::Linked(0, &[(0x1000, &[0, 0, 0, 0x80])], b""),
    ),
    (10, 0x1_0000_0000, OVERFLOW),
    (
        11,
        0xffff_ffff_ffff_ffff,
        Wanted::Linked(0, &[(0x1000, &[0xff, 0xff, 0xff, 0xff])], b""),
    ),
    (11, 0x8000_0000, OVERFLOW),
    (
        12,
        0xffff,
        Wanted::Linked(0, &[(0x1000, &[0xff, 0xff])], b""),
    ),
    (
        12,
        0xffff_ffff_ffff_8000,
        Wanted::Linked(0, &[(0x1000, &[0, 0x80])], b""),
    ),
    (12, 0x1_0000, OVERFLOW),
    (
        14,
        0xffff_ffff_ffff_ff80,
        Wanted::Linked(0, &[(0x1000, &[0x80])], b""),
    ),
    (14, 0xffff_ffff_ffff_ff7f, OVERFLOW),
    // PC16 and PC8 at 0x401000; PC64.
    (
        13,
        0x40_1010,
        Wanted::Linked(0, &[(0x1000, &[0x10, 0])], b""),
    ),
    (15, 0x40_0fff, Wanted::Linked(0, &[(0x1000, &[0xff])], b"")),
    (
        24,
        0x40_1002,
        Wanted::Linked(0, &[(0x1000, &[2, 0, 0, 0, 0, 0, 0, 0])], b""),
    ),
    // SIZE32 of a symbol of 8 bytes.
    (32, 0, Wanted::Linked(0, &[(0x1000, &[8, 0, 0, 0])], b"")),
];

#[test]
fn plain_kinds_have_their_values(rt: HostRuntime) -> Result<(), Fail> {
    for (kind, value, wanted) in &KINDS {
        let answer = link_kind(rt.alloc(), *kind, *value)?;
        let right = is_as_wanted(rt.alloc(), &answer, wanted)?;
        assert!(rt; right, "kind {kind} of {value}");
    }
    Ok(())
}

/// A text with a distance from offset 1, less 4, to a weak name without a definition.
const DISTANT: File = File::Object(
    "a.o",
    &[TEXT],
    &[START, WEAK_NO_F],
    &[Relocation(1, 1, R_PC32, 2, -4)],
);

/// A text, a weak `f` at its beginning, and a relocation of no field.
const WEAK_F: NamedSymbol<'static> = NamedSymbol {
    st_info: 0x20,
    st_size: 0,
    ..F
};

const WEAKLY: File = File::Object(
    "a.o",
    &[TEXT],
    &[START, WEAK_F],
    &[Relocation(1, 0, 0, 2, 0)],
);

const STRONG_MAP: &[u8] = b"ldmap 2\n\
    object 0 0 0 a.o\n\
    object 1 1 0 b.o\n\
    place 0000000000401000 9 0 1 .text\n\
    place 0000000000401009 9 1 1 .text\n\
    symbol 0000000000401000 strong 0 1 _start\n\
    symbol 0000000000401009 strong 1 1 f\n\
    end\n";

const WEAK_MAP: &[u8] = b"ldmap 2\n\
    object 0 0 0 a.o\n\
    object 1 1 0 b.o\n\
    place 0000000000401000 9 0 1 .text\n\
    place 0000000000401009 9 1 1 .text\n\
    symbol 0000000000401000 strong 0 1 _start\n\
    symbol 0000000000401000 weak 0 2 f\n\
    end\n";

static LINKS: [Row; 5] = [
    // A weak name without a definition is 0.
    (
        &[File::Object(
            "a.o",
            &[TEXT],
            &[START, WEAK_NO_F],
            &[Relocation(1, 1, R_64, 2, 5)],
        )],
        "a.o",
        Wanted::Linked(0, &[(0x1001, &[5, 0, 0, 0, 0, 0, 0, 0])], b""),
    ),
    (
        &[DISTANT],
        "a.o",
        Wanted::Linked(0, &[(0x1001, &[0xfb, 0xef, 0xbf, 0xff])], b""),
    ),
    (&[DISTANT], "a.o -Ttext-segment=0x100000000", OVERFLOW),
    // A strong definition stands before a weak one, and the first weak one before others.
    (
        &[WEAKLY, File::Object("b.o", &[TEXT], &[F], &[])],
        "a.o b.o",
        Wanted::Linked(0, &[], STRONG_MAP),
    ),
    (
        &[WEAKLY, File::Object("b.o", &[TEXT], &[WEAK_F], &[])],
        "a.o b.o",
        Wanted::Linked(0, &[], WEAK_MAP),
    ),
];

#[test]
fn weak_names_are_linked(rt: HostRuntime) -> Result<(), Fail> {
    assert_eq!(rt; first_wrong(rt.alloc(), &LINKS)?, None);
    Ok(())
}
