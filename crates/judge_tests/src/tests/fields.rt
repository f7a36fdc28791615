//! Fields of relocations in an image, with values from the formulas of the AMD64 psABI (4.4, "Relocation Types") and of ELF Handling
//! For Thread-Local Storage.
use crate::tests::images::{BLOCK, CODE, HEADER, HEADERS, image_with};
use byteview::View;
use elf_model::Thing;
use field_judge::{Asked, asked_slot, foreign_kind, is_right, thread_pointer};
use foreign_image::ForeignImage;
use memory_judge::{FieldSpan, Taken, holds_rest};
use std::alloc::{AllocError, Global};
use std::test::Fail;

/// A relocation of the first bytes of the image's code, at 0x2010e8: its type, the value of its symbol, its addend, the address of
/// the GOT, whether the symbol is thread-local; and the bytes there, the slot's among them, which would be at 0x2010f0.
struct Row {
    kind: u32,
    value: u64,
    addend: i64,
    got: Option<u64>,
    thread: bool,
    bytes: [u8; 16],
}

const PC32: Row = Row {
    kind: 2,
    value: 0x20_1234,
    addend: -4,
    got: None,
    thread: false,
    bytes: [0x48, 1, 0, 0, 0, 0, 0, 0, 0, 0, 0, 0, 0, 0, 0, 0],
};

const GOTPCREL: Row = Row {
    kind: 9,
    bytes: [4, 0, 0, 0, 0, 0, 0, 0, 0x34, 0x12, 0x20, 0, 0, 0, 0, 0],
    ..PC32
};

const GOTTPOFF: Row = Row {
    kind: 22,
    value: 0x20_10f8,
    thread: true,
    bytes: [
        4, 0, 0, 0, 0, 0, 0, 0, 0xf0, 0xff, 0xff, 0xff, 0xff, 0xff, 0xff, 0xff,
    ],
    ..PC32
};

const PLTOFF64: Row = Row {
    kind: 31,
    addend: 0,
    got: Some(0x20_10f0),
    bytes: [0x44, 1, 0, 0, 0, 0, 0, 0, 0, 0, 0, 0, 0, 0, 0, 0],
    ..PC32
};

/// PC32, 64, 32S, GOTPCREL, REX_GOTPCRELX, GOT64, GOTTPOFF, TPOFF32, GOTOFF64, PLTOFF64, SIZE32.
static RIGHT: [Row; 11] = [
    PC32,
    Row {
        kind: 1,
        addend: 8,
        bytes: [0x3c, 0x12, 0x20, 0, 0, 0, 0, 0, 0, 0, 0, 0, 0, 0, 0, 0],
        ..PC32
    },
    Row {
        kind: 11,
        value: 0xffff_ffff_ffff_ffff,
        addend: 0,
        bytes: [0xff, 0xff, 0xff, 0xff, 0, 0, 0, 0, 0, 0, 0, 0, 0, 0, 0, 0],
        ..PC32
    },
    GOTPCREL,
    Row {
        kind: 42,
        ..GOTPCREL
    },
    Row {
        kind: 27,
        addend: 0,
        got: Some(0x20_10f8),
        bytes: [
            0xf8, 0xff, 0xff, 0xff, 0xff, 0xff, 0xff, 0xff, 0x34, 0x12, 0x20, 0, 0, 0, 0, 0,
        ],
        ..PC32
    },
    GOTTPOFF,
    Row {
        kind: 23,
        value: 0x20_10f8,
        addend: 0,
        thread: true,
        bytes: [0xf0, 0xff, 0xff, 0xff, 0, 0, 0, 0, 0, 0, 0, 0, 0, 0, 0, 0],
        ..PC32
    },
    Row {
        kind: 25,
        ..PLTOFF64
    },
    PLTOFF64,
    Row {
        kind: 32,
        addend: 1,
        bytes: [17, 0, 0, 0, 0, 0, 0, 0, 0, 0, 0, 0, 0, 0, 0, 0],
        ..PC32
    },
];

/// Another value; one that doesn't fit; a thread-local symbol's address; a slot that holds something else, one of which four bytes are
/// right, one that isn't aligned, one behind the file's part, an offset where the value should be; no GOT; a type that isn't judged.
static WRONG: [Row; 10] = [
    Row {
        value: 0x20_1235,
        ..PC32
    },
    Row {
        kind: 10,
        value: 0x1_0000_0148,
        addend: 0,
        ..PC32
    },
    Row {
        thread: true,
        ..PC32
    },
    Row {
        value: 0x20_1235,
        ..GOTPCREL
    },
    Row {
        value: 0x1_0020_1234,
        ..GOTPCREL
    },
    Row {
        addend: -3,
        ..GOTPCREL
    },
    Row {
        value: 0,
        bytes: [0x0c, 0, 0, 0, 0, 0, 0, 0, 0, 0, 0, 0, 0, 0, 0, 0],
        ..GOTPCREL
    },
    Row {
        kind: 9,
        thread: false,
        ..GOTTPOFF
    },
    Row {
        got: None,
        ..PLTOFF64
    },
    Row { kind: 17, ..PC32 },
];

fn thing_at(at: u64, size: u64) -> Thing {
    Thing {
        at,
        size,
        align: 1,
        rights: 4,
        in_file: true,
    }
}

/// What a row asks of its field.
fn asked_of(image: &ForeignImage<'_>, row: &Row) -> Asked {
    Asked {
        value: Some(row.value),
        addend: row.addend,
        at: 0x20_10e8,
        offset: 0,
        size: 16,
        got: row.got,
        thread: row.thread,
        thread_pointer: thread_pointer(image),
    }
}

/// Whether a row's field is right in an image, where this memory is taken.
fn judged_in(image: &ForeignImage<'_>, row: &Row, taken: &Taken<'_>) -> bool {
    match foreign_kind(row.kind) {
        Some(kind) => is_right(image, taken, &asked_of(image, row), &kind),
        None => false,
    }
}

/// The address of the slot of a row's field.
fn slot_in(image: &ForeignImage<'_>, row: &Row, taken: &Taken<'_>) -> Option<u64> {
    match foreign_kind(row.kind) {
        Some(kind) => asked_slot(image, taken, &asked_of(image, row), &kind),
        None => None,
    }
}

fn slot(alloc: Global, row: &Row, things: &[Thing]) -> Result<Option<u64>, AllocError> {
    let bytes = image_with(alloc, &HEADER, &[HEADERS, CODE, BLOCK], &row.bytes)?;
    let taken = Taken::new(alloc, things)?;
    match ForeignImage::read(alloc, View::new(&bytes))? {
        Some(image) => Ok(slot_in(&image, row, &taken)),
        None => Ok(None),
    }
}

fn judged(alloc: Global, row: &Row, things: &[Thing]) -> Result<bool, AllocError> {
    let bytes = image_with(alloc, &HEADER, &[HEADERS, CODE, BLOCK], &row.bytes)?;
    let taken = Taken::new(alloc, things)?;
    match ForeignImage::read(alloc, View::new(&bytes))? {
        Some(image) => Ok(judged_in(&image, row, &taken)),
        None => Ok(false),
    }
}

#[test]
fn fields_of_the_standard_are_right(rt: HostRuntime) -> Result<(), Fail> {
    let mut all = true;
    for row in &RIGHT {
        all = judged(rt.alloc(), row, &[thing_at(0x20_10e8, 8)])? && all;
    }
    assert!(rt; all);
    Ok(())
}

#[test]
fn other_fields_are_not(rt: HostRuntime) -> Result<(), Fail> {
    let mut some = false;
    for row in &WRONG {
        some = judged(rt.alloc(), row, &[thing_at(0x20_10e8, 8)])? || some;
    }
    assert!(rt; !some);
    Ok(())
}

/// A slot can't lie where a section does.
#[test]
fn slots_in_sections_are_not_right(rt: HostRuntime) -> Result<(), Fail> {
    let told = judged(rt.alloc(), &GOTPCREL, &[thing_at(0x20_10e8, 9)])?;
    assert!(rt; !told);
    Ok(())
}

static WITH_SLOTS: [Row; 2] = [GOTPCREL, GOTTPOFF];

/// One without a slot, and two whose slots hold another value.
static WITHOUT_SLOTS: [Row; 3] = [
    PC32,
    Row {
        value: 0x20_1235,
        ..GOTPCREL
    },
    Row {
        value: 0x1_0020_1234,
        ..GOTPCREL
    },
];

#[test]
fn fields_tell_their_slots(rt: HostRuntime) -> Result<(), Fail> {
    let mut all = true;
    for row in &WITH_SLOTS {
        all = slot(rt.alloc(), row, &[thing_at(0x20_10e8, 8)])? == Some(0x20_10f0) && all;
    }
    assert!(rt; all);
    Ok(())
}

#[test]
fn other_fields_tell_none(rt: HostRuntime) -> Result<(), Fail> {
    let mut some = slot(rt.alloc(), &GOTPCREL, &[thing_at(0x20_10e8, 9)])?.is_some();
    for row in &WITHOUT_SLOTS {
        some = slot(rt.alloc(), row, &[thing_at(0x20_10e8, 8)])?.is_some() || some;
    }
    assert!(rt; !some);
    Ok(())
}

/// The bytes of a section that are the image's, but for a field at 4 of four bytes.
const SECTION: [u8; 8] = [0x48, 1, 0, 0, 9, 9, 9, 9];

/// Whether memory has these bytes beside a field in an image.
fn holds_beside(image: &ForeignImage<'_>, bytes: &[u8], at: u64, width: u8) -> bool {
    match image.run(0x20_10e8, 8) {
        Some(_) => holds_rest(image, 0x20_10e8, 8, bytes, &[FieldSpan { at, width }]),
        None => false,
    }
}

fn holds_section(alloc: Global, bytes: &[u8], at: u64, width: u8) -> Result<bool, AllocError> {
    let image = image_with(alloc, &HEADER, &[HEADERS, CODE, BLOCK], &PC32.bytes)?;
    match ForeignImage::read(alloc, View::new(&image))? {
        Some(image) => Ok(holds_beside(&image, bytes, at, width)),
        None => Ok(false),
    }
}

#[test]
fn bytes_beside_fields_are_the_inputs(rt: HostRuntime) -> Result<(), Fail> {
    let told = (
        holds_section(rt.alloc(), &SECTION, 4, 4)?,
        holds_section(rt.alloc(), &SECTION, 4, 2)?,
        holds_section(rt.alloc(), &SECTION, 0, 4)?,
        holds_section(rt.alloc(), &PC32.bytes, 0, 0)?,
    );
    assert!(rt; told == (true, false, false, true));
    Ok(())
}
