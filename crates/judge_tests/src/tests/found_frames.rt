//! What is judged of a link of two objects of whose call frames the linker made one list, and a table of that (LSB Core 10.6.2, "The
//! .eh_frame_hdr section"). The objects are those of `frame_vectors`. GNU ld 2.40, gold 1.16 and LLD 14 make a table of them by
//! `-static --eh-frame-hdr -e main -T at.ld -o x a.o b.o`, where at.ld is
//!
//! ```text
//! SECTIONS {
//!   .eh_frame_hdr 0x200120 : { *(.eh_frame_hdr) }
//!   .eh_frame 0x200160 : { *(.eh_frame) }
//!   .text 0x2011e0 : { *(.text) *(.text.shared) }
//! }
//! ```
use crate::tests::frame_vectors::{
    CODE, ENTRIES, FRAMES, Line, Made, list_bytes, list_lines, object_of, put_all,
};
use crate::tests::images::{HEADER, HEADERS};
use crate::tests::sample_objects::put;
use elf_model::{
    CommonLine, DropLine, FileHeader, InputFile, ObjectLine, PlaceLine, ProgramHeader,
};
use foreign_words::read_foreign_words;
use judge_model::{Certificate, MergedLine, NameLine, Requirement, StretchLine};
use link_judge::{Judgement, Reason, judge};
use std::alloc::{AllocError, Global};
use std::test::Fail;

/// Where the table is, where the list is 64 bytes behind it, and where 128 bytes further the code is in the file and in memory.
const TABLE: u64 = 0x20_0120;

const LIST: u64 = 0x20_0160;

const CODE_OFFSET: u64 = 480;

const MAIN: u64 = 0x20_11e0;

/// Where the list and the code are behind the headers, and how much is there.
const LIST_AT: usize = 64;

const CODE_AT: usize = 192;

const REST: usize = 209;

/// A row of a table: the two numbers of it, of which each begins with a byte, and the other bytes of the first are these.
#[derive(Clone, Copy)]
struct TableRow(u8, u8);

/// The rows for `main`, `second` and `shared` of GNU ld; those for the last two and the first of gold and LLD; and one for `second` at the
/// address of `shared`.
const MAIN_ROW: TableRow = TableRow(0xc0, 0x6c);

const SECOND_ROW: TableRow = TableRow(0xc8, 0x88);

const SHARED_ROW: TableRow = TableRow(0xd0, 0x58);

const PADDED_MAIN: TableRow = TableRow(0xc0, 0x70);

const PADDED_SECOND: TableRow = TableRow(0xc8, 0x90);

const SECOND_THERE: TableRow = TableRow(0xd0, 0x88);

/// What a table begins with, up to the number of its rows.
static HEAD: [u8; 8] = [0x01, 0x1b, 0x03, 0x3b, 0x3c, 0, 0, 0];

/// A link: whether its words ask for a table; how many rows the table says that it has, and these; where a header says that it is, with
/// how many bytes in the file and in memory, if one does; the area; the list, and its size; other bytes behind the headers, and of the
/// second object, by their index; how many of the records have lines, and whether call frames have places in their stead; and what is
/// judged of it.
#[derive(Clone, Copy)]
struct Row {
    asked: bool,
    count: u8,
    rows: &'static [TableRow],
    header: Option<(u64, u64, u64)>,
    area: (u64, u64),
    list: Made,
    size: u64,
    bytes: &'static [(usize, u8)],
    inputs: &'static [(usize, u8)],
    lines: usize,
    placed: bool,
    judged: Judgement,
}

/// GNU ld's table.
const RIGHT: Row = Row {
    asked: true,
    count: 3,
    rows: &[MAIN_ROW, SECOND_ROW, SHARED_ROW],
    header: Some((TABLE, 36, 36)),
    area: (TABLE, 192),
    list: Made::Ld,
    size: 96,
    bytes: &[],
    inputs: &[],
    lines: 6,
    placed: false,
    judged: Judgement::Yes,
};

/// The table of gold and of LLD.
const PADDED: Row = Row {
    rows: &[PADDED_MAIN, PADDED_SECOND, SHARED_ROW],
    list: Made::Padded,
    size: 112,
    ..RIGHT
};

/// `second` has no bytes, and is where `shared` is.
const EMPTY: Row = Row {
    bytes: &[(LIST_AT + 80, 0x40), (LIST_AT + 84, 0)],
    inputs: &[(FRAMES + 56, 0), (ENTRIES + 40, 8)],
    ..RIGHT
};

const WRONG: Row = Row {
    judged: Judgement::No(Requirement::F8),
    ..RIGHT
};

const WRONG_EMPTY: Row = Row {
    judged: Judgement::No(Requirement::F8),
    ..EMPTY
};

const NO_ADDRESSES: Row = Row {
    judged: Judgement::NotJudged(Reason::Records),
    ..RIGHT
};

static RIGHT_ROWS: [Row; 10] = [
    RIGHT,
    PADDED,
    // No words ask for it, as mold takes it.
    Row {
        asked: false,
        ..RIGHT
    },
    // No words ask for one, and there is none.
    Row {
        asked: false,
        header: None,
        count: 0,
        rows: &[],
        bytes: &[(0, 0), (1, 0), (2, 0), (3, 0), (4, 0)],
        ..RIGHT
    },
    // Room for one more row, of zeros, as LLD leaves it.
    Row {
        header: Some((TABLE, 44, 44)),
        ..RIGHT
    },
    // An area for the table, and the list's in front of its end.
    Row {
        area: (TABLE, 160),
        ..RIGHT
    },
    // A function of no bytes without a row; with one, in front of that of the function at the same address; with the only row in its
    // place.
    Row {
        count: 2,
        rows: &[MAIN_ROW, SHARED_ROW],
        ..EMPTY
    },
    Row {
        rows: &[MAIN_ROW, SECOND_THERE, SHARED_ROW],
        ..EMPTY
    },
    Row {
        bytes: &[(LIST_AT + 84, 0)],
        inputs: &[(FRAMES + 56, 0)],
        ..RIGHT
    },
    // A length of 0 that ends the list, as it ends that of the second object.
    Row {
        size: 100,
        inputs: &[(FRAMES + 44, 20)],
        lines: 7,
        ..RIGHT
    },
];

/// Tables of which the head or the place isn't right.
static WRONG_HEADS: [Row; 14] = [
    // No table, though words ask for it.
    Row {
        header: None,
        ..WRONG
    },
    // Another version; another encoding of the list's address, of the number of rows, of these.
    Row {
        bytes: &[(0, 2)],
        ..WRONG
    },
    Row {
        bytes: &[(1, 0x0b)],
        ..WRONG
    },
    Row {
        bytes: &[(2, 0xff)],
        ..WRONG
    },
    Row {
        bytes: &[(3, 0x1b)],
        ..WRONG
    },
    // It points 4 bytes behind the list's beginning, and 4 bytes before it; to below memory.
    Row {
        bytes: &[(4, 0x40)],
        ..WRONG
    },
    Row {
        bytes: &[(4, 0x38)],
        ..WRONG
    },
    Row {
        bytes: &[(7, 0x80)],
        ..WRONG
    },
    // It has fewer bytes than its rows; fewer in the file than in memory; it begins behind its head.
    Row {
        header: Some((TABLE, 35, 35)),
        ..WRONG
    },
    Row {
        header: Some((TABLE, 32, 36)),
        ..WRONG
    },
    Row {
        header: Some((TABLE + 4, 32, 32)),
        ..WRONG
    },
    // What follows its rows isn't 0.
    Row {
        header: Some((TABLE, 44, 44)),
        bytes: &[(43, 1)],
        ..WRONG
    },
    // It isn't in the area.
    Row {
        area: (TABLE + 4, 188),
        ..WRONG
    },
    // A length of 0 ends the call frames of the second object, and none the list.
    Row {
        inputs: &[(FRAMES + 44, 20)],
        lines: 7,
        ..WRONG
    },
];

/// Tables of which the rows aren't right.
static WRONG_TABLES: [Row; 14] = [
    // A function without a row: the first one, the last one; all.
    Row {
        count: 2,
        rows: &[SECOND_ROW, SHARED_ROW],
        ..WRONG
    },
    Row {
        count: 2,
        rows: &[MAIN_ROW, SECOND_ROW],
        ..WRONG
    },
    Row {
        count: 0,
        rows: &[],
        ..WRONG
    },
    // A number of rows that lacks the last one, and one more than there are.
    Row { count: 2, ..WRONG },
    Row {
        count: 4,
        header: Some((TABLE, 44, 44)),
        ..WRONG
    },
    // Rows that don't rise.
    Row {
        rows: &[SECOND_ROW, MAIN_ROW, SHARED_ROW],
        ..WRONG
    },
    Row {
        rows: &[MAIN_ROW, SHARED_ROW, SECOND_ROW],
        ..WRONG
    },
    // One function twice, in place of another one; another function's record; the common part; a place in a record.
    Row {
        rows: &[MAIN_ROW, MAIN_ROW, SHARED_ROW],
        ..WRONG
    },
    Row {
        rows: &[TableRow(0xc0, 0x88), SECOND_ROW, SHARED_ROW],
        ..WRONG
    },
    Row {
        rows: &[TableRow(0xc0, 0x40), SECOND_ROW, SHARED_ROW],
        ..WRONG
    },
    Row {
        rows: &[TableRow(0xc0, 0x70), SECOND_ROW, SHARED_ROW],
        ..WRONG
    },
    // The address of a function and one.
    Row {
        rows: &[TableRow(0xc1, 0x6c), SECOND_ROW, SHARED_ROW],
        ..WRONG
    },
    // A function of no bytes in place of the one at the same address, and behind it.
    Row {
        count: 2,
        rows: &[MAIN_ROW, SECOND_THERE],
        ..WRONG_EMPTY
    },
    Row {
        rows: &[MAIN_ROW, SHARED_ROW, SECOND_THERE],
        ..WRONG_EMPTY
    },
];

static NOT_JUDGED: [Row; 5] = [
    // Addresses of functions that are aligned, counted from elsewhere, of two bytes, or not there.
    Row {
        inputs: &[(FRAMES + 16, 0x50)],
        ..NO_ADDRESSES
    },
    Row {
        inputs: &[(FRAMES + 16, 0x3b)],
        ..NO_ADDRESSES
    },
    Row {
        inputs: &[(FRAMES + 16, 0x1a)],
        ..NO_ADDRESSES
    },
    Row {
        inputs: &[(FRAMES + 16, 0xff)],
        ..NO_ADDRESSES
    },
    // A table, where call frames are as they came.
    Row {
        lines: 0,
        placed: true,
        judged: Judgement::NotJudged(Reason::Frames),
        ..RIGHT
    },
];

/// The second object.
fn second_object(alloc: Global, row: &Row) -> Result<Vec<u8>, Fail> {
    let mut second = object_of(alloc, "second")?;
    for (at, byte) in row.inputs {
        put(&mut second, *at, *byte as u64, 1);
    }
    Ok(second)
}

fn files(alloc: Global, row: &Row) -> Result<Vec<InputFile>, Fail> {
    let mut files = Vec::new(alloc);
    files.push(InputFile {
        name: String::from_str(alloc, "a.o")?,
        bytes: object_of(alloc, "main")?,
    })?;
    files.push(InputFile {
        name: String::from_str(alloc, "b.o")?,
        bytes: second_object(alloc, row)?,
    })?;
    Ok(files)
}

/// The table.
fn put_table(rest: &mut [u8], row: &Row) {
    put_all(rest, 0, &HEAD);
    put(rest, 8, row.count as u64, 4);
    let mut at = 12usize;
    for entry in row.rows {
        put(rest, at, 0x1000 + entry.0 as u64, 4);
        put(rest, at.saturating_add(4), entry.1 as u64, 4);
        at = at.saturating_add(8);
    }
}

/// What is behind the headers: the table, the list, and the code.
fn rest(row: &Row) -> [u8; REST] {
    let list = list_bytes(row.list);
    let mut rest = [0; REST];
    put_table(&mut rest, row);
    put_all(&mut rest, LIST_AT, list);
    put_all(&mut rest, CODE_AT, &CODE);
    for (at, byte) in row.bytes {
        put(&mut rest, *at, *byte as u64, 1);
    }
    rest
}

/// The program headers: the headers with the table and the list, code, the stack, and the table; that of the stack again where there is no
/// table would be one too many, so another PT_NOTE of no bytes is there.
fn headers(row: &Row) -> [ProgramHeader; 4] {
    let read = ProgramHeader {
        p_filesz: CODE_OFFSET,
        p_memsz: CODE_OFFSET,
        ..HEADERS
    };
    let executed = ProgramHeader {
        p_flags: 5,
        p_offset: CODE_OFFSET,
        p_vaddr: MAIN,
        p_paddr: MAIN,
        p_filesz: 17,
        p_memsz: 17,
        ..HEADERS
    };
    let stack = ProgramHeader {
        p_type: 0x6474_e551,
        p_flags: 6,
        p_offset: 0,
        p_vaddr: 0,
        p_paddr: 0,
        p_filesz: 0,
        p_memsz: 0,
        p_align: 0,
    };
    let (kind, (address, in_file, in_memory)) = match row.header {
        Some(header) => (0x6474_e550, header),
        None => (4, (TABLE, 0, 0)),
    };
    let table = ProgramHeader {
        p_type: kind,
        p_flags: 4,
        p_offset: address.saturating_sub(0x20_0000),
        p_vaddr: address,
        p_paddr: address,
        p_filesz: in_file,
        p_memsz: in_memory,
        p_align: 4,
    };
    [read, executed, stack, table]
}

fn image(alloc: Global, row: &Row) -> Result<Vec<u8>, AllocError> {
    let mut image = Vec::new(alloc);
    let mut record = [0; 64];
    let header = FileHeader {
        e_entry: MAIN,
        e_phnum: 4,
        ..HEADER
    };
    header.write_to(&mut record);
    image.extend_from_slice(&record)?;
    for segment in headers(row) {
        let mut record = [0; 56];
        segment.write_to(&mut record);
        image.extend_from_slice(&record)?;
    }
    image.extend_from_slice(&rest(row))?;
    Ok(image)
}

fn objects(alloc: Global) -> Result<Vec<ObjectLine>, AllocError> {
    let mut objects = Vec::new(alloc);
    for object in 0..2 {
        objects.push(ObjectLine {
            object,
            item: object,
            offset: 0,
            path: Vec::from_slice(alloc, if object == 0 { b"a.o" } else { b"b.o" })?,
        })?;
    }
    Ok(objects)
}

/// A line of a section: its object, number, size, address and name, and whether it is one of call frames.
struct Place(u64, u64, u64, u64, &'static str, bool);

/// The lines of both functions, of `shared`, and of call frames.
static PLACES: [Place; 5] = [
    Place(0, 2, 8, 0x20_11e0, ".text", false),
    Place(0, 3, 1, 0x20_11f0, ".text.shared", false),
    Place(0, 4, 72, LIST, ".eh_frame", true),
    Place(1, 2, 8, 0x20_11e8, ".text", false),
    Place(1, 4, 72, LIST + 72, ".eh_frame", true),
];

fn places(alloc: Global, row: &Row) -> Result<Vec<PlaceLine>, AllocError> {
    let mut places = Vec::new(alloc);
    for place in &PLACES {
        if row.placed || !place.5 {
            places.push(PlaceLine {
                address: place.3,
                size: place.2,
                object: place.0,
                section: place.1,
                name: Vec::from_slice(alloc, place.4.as_bytes())?,
            })?;
        }
    }
    Ok(places)
}

/// A line of a record, which is 4 bytes shorter where a length of 0 ends the second object's call frames.
fn line_of(row: &Row, line: Line) -> MergedLine {
    let less = if row.lines == 7 && line.0 == 1 && line.2 == 44 {
        4
    } else {
        0
    };
    MergedLine {
        object: line.0,
        section: line.1,
        offset: line.2,
        size: line.3.saturating_sub(less),
        address: LIST.saturating_add(line.4),
    }
}

fn frames(alloc: Global, row: &Row) -> Result<Vec<MergedLine>, AllocError> {
    let lines = list_lines(row.list);
    let mut frames = Vec::new(alloc);
    for line in lines.iter().take(row.lines) {
        if let Some(line) = line {
            frames.push(line_of(row, *line))?;
        }
    }
    Ok(frames)
}

fn stretch(address: u64, size: u64) -> StretchLine {
    StretchLine { address, size }
}

/// The line of the list, if there is one.
fn list_line(row: &Row) -> Option<StretchLine> {
    if row.placed {
        return None;
    }
    Some(stretch(LIST, row.size))
}

fn certificate(alloc: Global, row: &Row) -> Result<Certificate, AllocError> {
    Ok(Certificate {
        objects: objects(alloc)?,
        drops: Vec::<DropLine>::new(alloc),
        places: places(alloc, row)?,
        commons: Vec::<CommonLine>::new(alloc),
        notes: Vec::<StretchLine>::new(alloc),
        areas: Vec::from_slice(alloc, &[stretch(row.area.0, row.area.1)])?,
        merged: Vec::<MergedLine>::new(alloc),
        list: list_line(row),
        frames: frames(alloc, row)?,
        names: Vec::<NameLine>::new(alloc),
        got: None,
    })
}

fn words(alloc: Global, row: &Row) -> Result<Vec<String>, AllocError> {
    let table = if row.asked {
        "--eh-frame-hdr"
    } else {
        "--no-eh-frame-hdr"
    };
    let mut words = Vec::new(alloc);
    for word in ["-static", table, "-o", "x", "-e", "main", "a.o", "b.o"] {
        words.push(String::from_str(alloc, word)?)?;
    }
    Ok(words)
}

/// What is judged of a row; None where its words are none that are judged.
fn judged(alloc: Global, row: &Row) -> Result<Option<Judgement>, Fail> {
    let words = words(alloc, row)?;
    let files = files(alloc, row)?;
    let image = image(alloc, row)?;
    let certificate = certificate(alloc, row)?;
    match read_foreign_words(alloc, &words)? {
        Some(spoken) => Ok(Some(judge(alloc, &spoken, &files, &image, &certificate, None)?)),
        None => Ok(None),
    }
}

#[test]
fn tables_of_linkers_are_right(rt: HostRuntime) -> Result<(), Fail> {
    for (number, row) in RIGHT_ROWS.iter().enumerate() {
        let found = judged(rt.alloc(), row)?;
        assert!(rt; found == Some(row.judged), "row {number}: {found:?}");
    }
    Ok(())
}

#[test]
fn tables_with_other_heads_are_not(rt: HostRuntime) -> Result<(), Fail> {
    for (number, row) in WRONG_HEADS.iter().enumerate() {
        let found = judged(rt.alloc(), row)?;
        assert!(rt; found == Some(row.judged), "row {number}: {found:?}");
    }
    Ok(())
}

#[test]
fn tables_that_do_not_find_functions_are_not(rt: HostRuntime) -> Result<(), Fail> {
    for (number, row) in WRONG_TABLES.iter().enumerate() {
        let found = judged(rt.alloc(), row)?;
        assert!(rt; found == Some(row.judged), "row {number}: {found:?}");
    }
    Ok(())
}

#[test]
fn other_addresses_and_tables_are_not_judged(rt: HostRuntime) -> Result<(), Fail> {
    for (number, row) in NOT_JUDGED.iter().enumerate() {
        let found = judged(rt.alloc(), row)?;
        assert!(rt; found == Some(row.judged), "row {number}: {found:?}");
    }
    Ok(())
}
