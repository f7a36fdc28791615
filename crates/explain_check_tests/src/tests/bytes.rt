//! C10 and C11: bytes of sections that are others than they should be, fill, and where segments and the file end.
use crate::tests::lines::{Row, assert_rows};
use crate::tests::samples::WITH_DATA;
use link_samples::links::{Change, File};
use link_samples::objects::{NamedSymbol, Relocation, Section};
use link_samples::parts::{DATA, F, R_64, R_PC32, START, TEXT};
use std::test::Fail;

/// An object whose data are the address of its text.
const POINTING: &[File] = &[File::Object(
    "a.o",
    &[TEXT, DATA],
    &[START],
    &[Relocation(2, 0, R_64, 1, 0)],
)];

/// An object with fields at the same offsets of its text and of its data, and a second field with bytes before and after it.
const TWO_FIELDS: &[File] = &[File::Object(
    "a.o",
    &[TEXT, LONG_DATA],
    &[START],
    &[
        Relocation(1, 1, R_PC32, 1, 0),
        Relocation(2, 0, R_64, 1, 0),
        Relocation(2, 16, R_64, 1, 0),
    ],
)];

const LONG_DATA: Section<'static> = Section {
    bytes: &[0; 24],
    ..DATA
};

/// Bytes of the text and of the data, in fields and outside.
static BYTES: [Row; 5] = [
    (
        TWO_FIELDS,
        Change::Image(0x2001, 0x11),
        "a.o: section 2 .data: byte 0x1 at 0x402001 is 0x11, and should be 0x10: relocation 0 of section 6, R_X86_64_64, to \
         symbol 1 _start\n",
    ),
    (
        TWO_FIELDS,
        Change::Image(0x2008, 7),
        "a.o: section 2 .data: byte 0x8 at 0x402008 is 0x07, and should be 0x00\n",
    ),
    (
        TWO_FIELDS,
        Change::Image(0x2011, 0x12),
        "a.o: section 2 .data: byte 0x11 at 0x402011 is 0x12, and should be 0x10: relocation 1 of section 6, R_X86_64_64, to \
         symbol 1 _start\n",
    ),
    (
        WITH_DATA,
        Change::Image(0x1001, 0x3d),
        "a.o: section 1 .text: byte 0x1 at 0x401001 is 0x3d, and should be 0x3c\n",
    ),
    (
        POINTING,
        Change::Image(0x2001, 0x11),
        "a.o: section 2 .data: byte 0x1 at 0x402001 is 0x11, and should be 0x10: relocation 0 of section 5, R_X86_64_64, to \
         symbol 1 _start\n",
    ),
];

#[test]
fn wrong_bytes_are_told(rt: HostRuntime) -> Result<(), Fail> {
    assert_rows(&rt, &BYTES)
}

/// Code at 0x401010, after the nine bytes of the plain text.
const ALIGNED: Section<'static> = Section {
    name: ".text.f",
    sh_addralign: 16,
    ..TEXT
};

const F_IN_2: NamedSymbol<'static> = NamedSymbol { st_shndx: 2, ..F };

const GAPPED: &[File] = &[File::Object("a.o", &[TEXT, ALIGNED], &[START, F_IN_2], &[])];

/// Code of zeros behind a gap, so that a file part that ends before it changes only fill.
const ZERO_CODE: Section<'static> = Section {
    bytes: &[0; 9],
    ..ALIGNED
};

const GAPPED_ZEROS: &[File] = &[File::Object("a.o", &[TEXT, ZERO_CODE], &[START, F_IN_2], &[])];

/// Two sections in RW.
const WITH_TWO_DATA: &[File] = &[File::Object("a.o", &[TEXT, DATA, MORE_DATA], &[START], &[])];

const MORE_DATA: Section<'static> = Section {
    name: ".more",
    ..DATA
};

/// A byte between two sections, one of no segment, p_filesz of RX, p_filesz and p_memsz of RW, which is the third header.
static FILLS: [Row; 6] = [
    // p_filesz of RX, which is the second header.
    (
        GAPPED_ZEROS,
        Change::Image(0x98, 9),
        "segment 1 at 0x401000: its file part ends at 0x401009, and should end at 0x401019\n\
         the size of the image, up to the end of its last file part, is 0x1019, and should be 0x1009\n\
         0x401009, in no section and in a segment with R E, is 0x00, and should be 0x90\n",
    ),
    (
        WITH_TWO_DATA,
        Change::Image(0xd8, 24),
        "segment 2 at 0x402000: its memory ends at 0x402018, and should end at 0x402010\n",
    ),
    (
        GAPPED,
        Change::Image(0x100a, 0),
        "0x40100a, in no section and in a segment with R E, is 0x00, and should be 0x90\n",
    ),
    (
        WITH_DATA,
        Change::Image(0x200, 1),
        "offset 0x200 of the image: 0x01 is in no segment, and should be 0x00\n",
    ),
    (
        WITH_DATA,
        Change::Image(0xd0, 7),
        "segment 2 at 0x402000: its file part ends at 0x402007, and should end at 0x402008\n\
         the size of the image, up to the end of its last file part, is 0x2008, and should be 0x2007\n",
    ),
    (
        WITH_DATA,
        Change::Image(0xd8, 12),
        "segment 2 at 0x402000: its memory ends at 0x40200c, and should end at 0x402008\n",
    ),
];

#[test]
fn wrong_fill_is_told(rt: HostRuntime) -> Result<(), Fail> {
    assert_rows(&rt, &FILLS)
}
