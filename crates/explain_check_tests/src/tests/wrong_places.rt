//! C5 and C6: things that are not aligned, out of bounds, not apart, far from their neighbours, or in no segment with their
//! rights.
use crate::tests::lines::{Row, assert_rows, row_lines};
use crate::tests::samples::{
    LOADING, PLAIN, TWO, WITH_COMMON, WITH_THREAD_ZEROS, WITH_TWO_COMMONS,
};
use link_samples::links::{Change, File};
use link_samples::objects::NamedSymbol;
use link_samples::parts::{BSS, COMMON, DATA, F, START, TEXT};
use std::test::Fail;

/// A `.data` that needs an alignment, and one without bytes.
const WITH_DATA_AND_ZEROS: &[File] = &[File::Object("a.o", &[TEXT, DATA, BSS], &[START], &[])];

/// Two common blocks of one size.
const TWO_COMMONS: &[File] = &[File::Object(
    "a.o",
    &[TEXT],
    &[
        START,
        COMMON,
        NamedSymbol {
            name: "d",
            ..COMMON
        },
    ],
    &[],
)];

static PLACED: [Row; 10] = [
    (
        TWO_COMMONS,
        Change::Text("common 0000000000402008", "common 000000000040200c"),
        "common block d at 0x40200c, 0x8 bytes: not aligned to 8\n",
    ),
    (PLAIN, Change::Nothing, ""),
    (
        PLAIN,
        Change::Text("0000000000401000 9", "0000000000000000 9"),
        "a.o: section 1 .text at 0x0, 0x9 bytes: not from the base 0x400000 on and below 2^46\n",
    ),
    (
        PLAIN,
        Change::Text("0000000000401000 9", "0000000000400001 9"),
        "the headers at 0x400000, 0xe8 bytes: shares addresses with a.o: section 1 .text at 0x400001, 0x9 bytes\n",
    ),
    (
        WITH_DATA_AND_ZEROS,
        Change::Text("0000000000402000 8", "0000000000402001 8"),
        "a.o: section 2 .data at 0x402001, 0x8 bytes: not aligned to 8\n\
         a.o: section 2 .data at 0x402001, 0x8 bytes: shares addresses with a.o: section 3 .bss at 0x402008, 0x8 bytes\n",
    ),
    (
        WITH_COMMON,
        Change::Text("common 0000000000402000", "common 0000000000402004"),
        "common block c at 0x402004, 0x8 bytes: not aligned to 8\n",
    ),
    (
        LOADING,
        Change::Text("got 0000000000402008", "got 0000000000402004"),
        "the GOT at 0x402004, 0x10 bytes: not aligned to 8\n\
         a.o: section 2 .data at 0x402000, 0x8 bytes: shares addresses with the GOT at 0x402004, 0x10 bytes\n",
    ),
    (
        WITH_THREAD_ZEROS,
        Change::Text("place 0000000000402008", "place 0000000000000000"),
        "a.o: section 3 .tbss at 0x0, 0x0 bytes: not from the base 0x400000 on and below 2^46\n\
         a.o: section 3 .tbss at 0x0, 0x4 bytes: not from the base 0x400000 on and below 2^46\n",
    ),
    (
        TWO,
        Change::Text("0000000000401009 9", "0000000000401008 9"),
        "a.o: section 1 .text at 0x401000, 0x9 bytes: shares addresses with b.o: section 1 .text at 0x401008, 0x9 bytes\n\
         b.o: section 1 .text at 0x401008, aligned to 1: not close after a.o: section 1 .text at 0x401000, 0x9 bytes\n",
    ),
    (
        TWO,
        Change::Text("0000000000401009 9", "000000000040100a 9"),
        "b.o: section 1 .text at 0x40100a, aligned to 1: not close after a.o: section 1 .text at 0x401000, 0x9 bytes\n",
    ),
];

#[test]
fn placing_is_explained(rt: HostRuntime) -> Result<(), Fail> {
    assert_rows(&rt, &PLACED)
}

/// The rights of the third segment, at byte 180 of the file; an empty GOT among the headers; a section in no segment; the
/// rights of the second segment, at byte 124; a base below the first segment.
static RIGHTS: [Row; 5] = [
    (
        WITH_TWO_COMMONS,
        Change::Image(180, 5),
        "common block c at 0x402000, 0x8 bytes: in a segment with R E, and not RW\n",
    ),
    (
        PLAIN,
        Change::Text(".text\n", ".text\ngot 00000000004000e0 0\n"),
        "the GOT at 0x4000e0, 0x0 bytes: in a segment with R, and not RW\n",
    ),
    (
        PLAIN,
        Change::Text("0000000000401000 9", "0000000000401001 9"),
        "a.o: section 1 .text at 0x401001, 0x9 bytes: whole in no segment, and should be in one with R E\n",
    ),
    (
        PLAIN,
        Change::Image(124, 6),
        "a.o: section 1 .text at 0x401000, 0x9 bytes: in a segment with RW, and not R E\n",
    ),
    (
        PLAIN,
        Change::Words("-s a.o -Ttext-segment=0x300000"),
        "the first segment begins at 0x400000, and not at the base 0x300000\n",
    ),
];

/// Three sections in one segment, whose rights are changed: only one of them is told.
static COUNTED: Row = (
    &[
        File::Object("a.o", &[TEXT], &[START], &[]),
        File::Object("b.o", &[TEXT], &[F], &[]),
        File::Object("c.o", &[TEXT], &[], &[]),
    ],
    Change::Image(124, 6),
    "a.o: section 1 .text at 0x401000, 0x9 bytes: in a segment with RW, and not R E\n\
     and 2 more\n",
);

#[test]
fn rights_are_explained(rt: HostRuntime) -> Result<(), Fail> {
    assert_rows(&rt, &RIGHTS)?;
    let lines = row_lines(rt.alloc(), &COUNTED, 1)?;
    assert_eq!(rt; lines.as_str(), COUNTED.2);
    Ok(())
}
