//! What is between two functions of five bytes at 0x2010e8 and 0x2010f0, and behind the second, where the file ends at 0x2010f8 and
//! memory at 0x201108 (docs/DEFINITIONS.md; AMD64 Architecture Programmer's Manual 3, "NOP").
use crate::tests::images::{BLOCK, CODE, HEADER, HEADERS, image_with};
use byteview::View;
use elf_model::{ProgramHeader, Thing};
use foreign_image::ForeignImage;
use gap_judge::are_gaps_filled;
use memory_judge::spans_of;
use std::alloc::{AllocError, Global};
use std::test::Fail;

/// The three bytes between the functions and the three behind the second; the rights of their segment; whether the first gap is that of
/// a run of code; the slots; whether the gaps are filled.
struct Row {
    first: [u8; 3],
    second: [u8; 3],
    flags: u32,
    run: bool,
    slots: &'static [u64],
    filled: bool,
}

const NOPS: Row = Row {
    first: [0x90, 0x90, 0x90],
    second: [0x0f, 0x1f, 0x84],
    flags: 7,
    run: false,
    slots: &[],
    filled: true,
};

/// Instructions, of which the last ends with zeros that no file has; the same in a run; breakpoints, there and in a run; zeros, there
/// and in a run; an instruction that the second function would end; any byte; an instruction that a slot would end, and a slot
/// behind whole ones; instructions where nothing is executed, and zeros there.
static ROWS: [Row; 12] = [
    NOPS,
    Row { run: true, ..NOPS },
    Row {
        first: [0xcc, 0xcc, 0x90],
        ..NOPS
    },
    Row {
        first: [0xcc, 0xcc, 0x90],
        run: true,
        filled: false,
        ..NOPS
    },
    Row {
        first: [0, 0, 0],
        ..NOPS
    },
    Row {
        first: [0, 0, 0],
        run: true,
        filled: false,
        ..NOPS
    },
    Row {
        first: [0x0f, 0x1f, 0x40],
        filled: false,
        ..NOPS
    },
    Row {
        second: [0, 0, 0x41],
        filled: false,
        ..NOPS
    },
    Row {
        slots: &[0x20_10f8],
        filled: false,
        ..NOPS
    },
    Row {
        second: [0x0f, 0x1f, 0],
        slots: &[0x20_1100, 0x20_10f8],
        ..NOPS
    },
    Row {
        flags: 6,
        filled: false,
        ..NOPS
    },
    Row {
        first: [0, 0, 0],
        second: [0, 0, 0],
        flags: 6,
        ..NOPS
    },
];

fn thing_at(at: u64, size: u64) -> Thing {
    Thing {
        at,
        size,
        align: 1,
        rights: 4,
        in_file: true,
    }
}

/// The sixteen bytes of a row.
fn bytes_of(row: &Row) -> [u8; 16] {
    let [a, b, c] = row.first;
    let [d, e, f] = row.second;
    [0xb8, 1, 0, 0, 0, a, b, c, 0xb8, 2, 0, 0, 0, d, e, f]
}

/// Whether the gaps of a row's image are filled.
fn is_filled(alloc: Global, image: &ForeignImage<'_>, row: &Row) -> Result<bool, AllocError> {
    let things = [
        thing_at(0x20_10f0, 5),
        thing_at(0x20_0000, 64),
        thing_at(0x20_0040, 168),
        thing_at(0x20_10e8, 5),
    ];
    let gap = thing_at(0x20_10ed, if row.run { 3 } else { 0 });
    let runs = spans_of(alloc, &[gap])?;
    are_gaps_filled(alloc, image, &things, row.slots, &runs)
}

/// Whether a row is judged as it should be.
fn is_row(alloc: Global, row: &Row) -> Result<bool, AllocError> {
    let segment = ProgramHeader {
        p_flags: row.flags,
        ..CODE
    };
    let bytes = image_with(alloc, &HEADER, &[HEADERS, segment, BLOCK], &bytes_of(row))?;
    match ForeignImage::read(alloc, View::new(&bytes))? {
        Some(image) => Ok(is_filled(alloc, &image, row)? == row.filled),
        None => Ok(false),
    }
}

#[test]
fn gaps_have_fill(rt: HostRuntime) -> Result<(), Fail> {
    let mut all = true;
    for row in &ROWS {
        all = is_row(rt.alloc(), row)? && all;
    }
    assert!(rt; all);
    Ok(())
}
