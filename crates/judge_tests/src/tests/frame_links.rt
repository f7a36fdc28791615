//! What is judged of a link of two objects of whose call frames the linker made one list (LSB Core 10.6, "Exception Frames"; DWARF 4,
//! 6.4.1).
use crate::tests::frame_vectors::{
    CODE, ENTRIES, FRAMES, Line, Made, SYMBOL_SECTION, list_bytes, list_lines, object_of, put_all,
};
use crate::tests::images::{HEADER, HEADERS};
use crate::tests::sample_objects::put;
use elf_model::{
    CommonLine, DropLine, FileHeader, InputFile, ObjectLine, PlaceLine, ProgramHeader,
};
use foreign_words::read_foreign_words;
use judge_model::{Certificate, MergedLine, NameLine, Requirement, StretchLine};
use link_fields::WrongField;
use link_judge::{Judgement, Reason, judge};
use std::alloc::{AllocError, Global};
use std::test::Fail;

/// Where the list is.
const BEGIN: u64 = 0x20_00e8;

/// The segments: the headers with 128 bytes behind them, and code.
const READ: ProgramHeader = ProgramHeader {
    p_filesz: 360,
    p_memsz: 360,
    ..HEADERS
};

const EXECUTED: ProgramHeader = ProgramHeader {
    p_flags: 5,
    p_offset: 360,
    p_vaddr: 0x20_1168,
    p_paddr: 0x20_1168,
    p_filesz: 17,
    p_memsz: 17,
    ..HEADERS
};

const STACK: ProgramHeader = ProgramHeader {
    p_type: 0x6474_e551,
    p_flags: 6,
    p_offset: 0,
    p_vaddr: 0,
    p_paddr: 0,
    p_filesz: 0,
    p_memsz: 0,
    p_align: 0,
};

/// A link: whether its words ask for a table of frames; the list, how many bytes of it are there, and whether its common part stands
/// behind it again; a byte behind the headers, and one of the second object, by their index; the address of the list's line, the area,
/// which is an address and a size, and a line by its index, which is another one or not there; of how many objects the records have
/// lines, and whether the second object's call frames have the line of a place; and what is judged of it.
#[derive(Clone, Copy)]
struct Row {
    tabled: bool,
    list: Made,
    size: u64,
    again: bool,
    byte: Option<(usize, u8)>,
    input: Option<(usize, u8)>,
    address: Option<u64>,
    area: (u64, u64),
    line: Option<(usize, Option<Line>)>,
    told: usize,
    placed: bool,
    judged: Judgement,
}

/// GNU ld's list.
const RIGHT: Row = Row {
    tabled: false,
    list: Made::Ld,
    size: 96,
    again: false,
    byte: None,
    input: None,
    address: Some(BEGIN),
    area: (BEGIN, 128),
    line: None,
    told: 2,
    placed: false,
    judged: Judgement::Yes,
};

/// gold's list.
const PADDED: Row = Row {
    list: Made::Padded,
    size: 112,
    ..RIGHT
};

const NO_FRAMES: Row = Row {
    judged: Judgement::No(Requirement::F8),
    ..RIGHT
};

const NO_PADDED: Row = Row {
    judged: Judgement::No(Requirement::F8),
    ..PADDED
};

const NO_RECORDS: Row = Row {
    judged: Judgement::NotJudged(Reason::Records),
    ..RIGHT
};

static RIGHT_ROWS: [Row; 7] = [
    // One common part, and a record that lacks zeros at its end.
    RIGHT,
    // In another order of the objects.
    Row {
        list: Made::Ordered,
        size: 92,
        ..RIGHT
    },
    // Longer by zeros, as gold has it, and as LLD has it.
    PADDED,
    Row {
        size: 116,
        ..PADDED
    },
    // An area that ends with the list.
    Row {
        area: (BEGIN, 96),
        ..RIGHT
    },
    // The second object's call frames end with a length of 0, and so does the list.
    Row {
        size: 100,
        input: Some((FRAMES + 44, 20)),
        line: Some((5, Some(Line(1, 4, 44, 24, 72)))),
        ..RIGHT
    },
    // No record of `second`, and no line, where this is for a function of no bytes.
    Row {
        size: 72,
        input: Some((FRAMES + 56, 0)),
        line: Some((5, None)),
        ..RIGHT
    },
];

/// Links whose records aren't copies.
static WRONG_COPIES: [Row; 18] = [
    // No record of `second`, and no line; the record without its line; the line without the record.
    Row {
        size: 72,
        line: Some((5, None)),
        ..NO_FRAMES
    },
    Row {
        line: Some((5, None)),
        ..NO_FRAMES
    },
    Row {
        size: 72,
        ..NO_FRAMES
    },
    // A record that points to `shared` as its common part; that points into its common part; whose common part has no line; whose common
    // part is elsewhere by its line, where the same bytes are.
    Row {
        byte: Some((76, 52)),
        ..NO_FRAMES
    },
    Row {
        byte: Some((76, 75)),
        ..NO_FRAMES
    },
    Row {
        line: Some((3, None)),
        ..NO_FRAMES
    },
    Row {
        again: true,
        size: 120,
        line: Some((3, Some(Line(1, 4, 0, 24, 96)))),
        ..NO_FRAMES
    },
    // The address of a function and one; its size and one; an operand; an operand of the common part.
    Row {
        byte: Some((32, 0x71)),
        ..NO_FRAMES
    },
    Row {
        byte: Some((56, 9)),
        ..NO_FRAMES
    },
    Row {
        byte: Some((63, 0x18)),
        ..NO_FRAMES
    },
    Row {
        byte: Some((19, 16)),
        ..NO_FRAMES
    },
    // A record that isn't longer by zeros.
    Row {
        byte: Some((46, 1)),
        ..NO_PADDED
    },
    // A record that ends before the last operand, which is zero; one that ends before the last instruction.
    Row {
        size: 95,
        byte: Some((72, 19)),
        ..NO_FRAMES
    },
    Row {
        size: 94,
        byte: Some((72, 18)),
        ..NO_FRAMES
    },
    // Lines of another record, and of no record.
    Row {
        line: Some((2, Some(Line(0, 4, 44, 28, 72)))),
        ..NO_FRAMES
    },
    Row {
        line: Some((1, Some(Line(0, 4, 24, 20, 28)))),
        ..NO_FRAMES
    },
    // A line of the record of the function that the image hasn't.
    Row {
        line: Some((4, Some(Line(1, 4, 24, 20, 24)))),
        ..NO_FRAMES
    },
    // A record of an object in which the address of the function isn't the first field.
    Row {
        input: Some((ENTRIES + 24, 56)),
        ..NO_FRAMES
    },
];

/// Links whose lists aren't right, and such in which another thing isn't.
static WRONG_LISTS: [Row; 13] = [
    // A record without a line.
    Row {
        again: true,
        size: 120,
        ..NO_FRAMES
    },
    // Half a record at the end; a byte behind the length that ends the list.
    Row {
        size: 92,
        ..NO_FRAMES
    },
    Row {
        size: 116,
        byte: Some((115, 1)),
        ..NO_PADDED
    },
    // A list that ends behind its area; one that begins before it; one beside all of it.
    Row {
        area: (BEGIN, 95),
        ..NO_FRAMES
    },
    Row {
        area: (BEGIN + 4, 124),
        ..NO_FRAMES
    },
    Row {
        area: (BEGIN + 120, 8),
        ..NO_FRAMES
    },
    // A list that ends behind its segment; lines without a list; no lines and no list, or an empty one.
    Row {
        address: Some(BEGIN + 40),
        ..NO_FRAMES
    },
    Row {
        address: None,
        ..NO_FRAMES
    },
    Row {
        size: 0,
        address: None,
        told: 0,
        ..NO_FRAMES
    },
    Row {
        size: 0,
        told: 0,
        ..NO_FRAMES
    },
    // Lines of two records that overlap.
    Row {
        line: Some((1, Some(Line(0, 4, 24, 48, 24)))),
        judged: Judgement::No(Requirement::F3),
        ..RIGHT
    },
    // The call of `shared`, which is none of the list's fields; a byte of the area that isn't in the list.
    Row {
        byte: Some((130, 0x0b)),
        judged: Judgement::NoAt(link_judge::Place::Field(WrongField {
            object: 0,
            section: 2,
            offset: 2,
            kind: 4,
        })),
        ..RIGHT
    },
    Row {
        byte: Some((100, 1)),
        judged: Judgement::No(Requirement::F10),
        ..RIGHT
    },
];

static NOT_JUDGED: [Row; 12] = [
    // Call frames of an object with a record that ends behind its section; with one that lacks its common part; with no record behind the
    // second one, but other bytes.
    Row {
        input: Some((FRAMES + 44, 25)),
        ..NO_RECORDS
    },
    Row {
        input: Some((FRAMES + 48, 47)),
        ..NO_RECORDS
    },
    Row {
        input: Some((FRAMES + 44, 16)),
        ..NO_RECORDS
    },
    // Lines of half a record, of the other half, of two, of a section of code.
    Row {
        line: Some((1, Some(Line(0, 4, 24, 10, 24)))),
        ..NO_RECORDS
    },
    Row {
        line: Some((1, Some(Line(0, 4, 34, 10, 34)))),
        ..NO_RECORDS
    },
    Row {
        line: Some((5, Some(Line(1, 4, 24, 48, 24)))),
        ..NO_RECORDS
    },
    Row {
        line: Some((0, Some(Line(0, 2, 0, 8, 0)))),
        ..NO_RECORDS
    },
    // Words for a table of frames, and none.
    Row {
        tabled: true,
        ..NO_FRAMES
    },
    // A function by its name; a relocation of the number of a record; one that asks for a symbol of call frames.
    Row {
        input: Some((ENTRIES + 36, 4)),
        ..NO_RECORDS
    },
    Row {
        input: Some((ENTRIES + 24, 48)),
        ..NO_RECORDS
    },
    Row {
        input: Some((SYMBOL_SECTION, 4)),
        ..NO_RECORDS
    },
    // Call frames of one object as they came, and of the other one in the list.
    Row {
        told: 1,
        placed: true,
        ..NO_RECORDS
    },
];

/// The second object.
fn second_object(alloc: Global, row: &Row) -> Result<Vec<u8>, Fail> {
    let mut second = object_of(alloc, "second")?;
    if let Some((at, byte)) = row.input {
        put(&mut second, at, byte as u64, 1);
    }
    Ok(second)
}

fn files(alloc: Global, row: &Row) -> Result<Vec<InputFile>, Fail> {
    let mut files = Vec::new(alloc);
    files.push(InputFile {
        name: String::from_str(alloc, "a.o")?,
        bytes: object_of(alloc, "main")?,
    })?;
    files.push(InputFile {
        name: String::from_str(alloc, "b.o")?,
        bytes: second_object(alloc, row)?,
    })?;
    Ok(files)
}

/// What is behind the headers: the area, and the code.
fn rest(row: &Row) -> [u8; 145] {
    let list = list_bytes(row.list);
    let mut rest = [0; 145];
    put_all(&mut rest, 0, list.get(..row.size as usize).unwrap_or(list));
    if row.again {
        put_all(&mut rest, list.len(), list.get(..24).unwrap_or(list));
    }
    put_all(&mut rest, 128, &CODE);
    if let Some((at, byte)) = row.byte {
        put(&mut rest, at, byte as u64, 1);
    }
    rest
}

/// The headers, the area, and the code.
fn image(alloc: Global, row: &Row) -> Result<Vec<u8>, AllocError> {
    let mut image = Vec::new(alloc);
    let mut record = [0; 64];
    let header = FileHeader {
        e_entry: 0x20_1168,
        ..HEADER
    };
    header.write_to(&mut record);
    image.extend_from_slice(&record)?;
    for segment in [READ, EXECUTED, STACK] {
        let mut record = [0; 56];
        segment.write_to(&mut record);
        image.extend_from_slice(&record)?;
    }
    image.extend_from_slice(&rest(row))?;
    Ok(image)
}

fn objects(alloc: Global) -> Result<Vec<ObjectLine>, AllocError> {
    let mut objects = Vec::new(alloc);
    for object in 0..2 {
        objects.push(ObjectLine {
            object,
            item: object,
            offset: 0,
            path: Vec::from_slice(alloc, if object == 0 { b"a.o" } else { b"b.o" })?,
        })?;
    }
    Ok(objects)
}

/// A line of a section: its object, number, size, address and name.
struct Place(u64, u64, u64, u64, &'static str);

/// The lines of both functions, of `shared`, and of the second object's call frames.
static PLACES: [Place; 4] = [
    Place(0, 2, 8, 0x20_1168, ".text"),
    Place(0, 3, 1, 0x20_1178, ".text.shared"),
    Place(1, 2, 8, 0x20_1170, ".text"),
    Place(1, 4, 72, BEGIN, ".eh_frame"),
];

fn places(alloc: Global, row: &Row) -> Result<Vec<PlaceLine>, AllocError> {
    let count = if row.placed { 4 } else { 3 };
    let mut places = Vec::new(alloc);
    for place in PLACES.iter().take(count) {
        places.push(PlaceLine {
            address: place.3,
            size: place.2,
            object: place.0,
            section: place.1,
            name: Vec::from_slice(alloc, place.4.as_bytes())?,
        })?;
    }
    Ok(places)
}

/// The line of an index of a row.
fn line_of(row: &Row, number: usize, line: Option<Line>) -> Option<Line> {
    if number / 3 >= row.told {
        return None;
    }
    match row.line {
        Some((index, other)) if index == number => other,
        _ => line,
    }
}

fn frames(alloc: Global, row: &Row) -> Result<Vec<MergedLine>, AllocError> {
    let lines = list_lines(row.list);
    let mut frames = Vec::new(alloc);
    for (number, line) in lines.iter().enumerate() {
        if let Some(line) = line_of(row, number, *line) {
            frames.push(MergedLine {
                object: line.0,
                section: line.1,
                offset: line.2,
                size: line.3,
                address: BEGIN.saturating_add(line.4),
            })?;
        }
    }
    Ok(frames)
}

fn stretch(address: u64, size: u64) -> StretchLine {
    StretchLine { address, size }
}

/// The line of the list, if there is one.
fn list_line(row: &Row) -> Option<StretchLine> {
    match row.address {
        Some(address) => Some(stretch(address, row.size)),
        None => None,
    }
}

fn certificate(alloc: Global, row: &Row) -> Result<Certificate, AllocError> {
    Ok(Certificate {
        objects: objects(alloc)?,
        drops: Vec::<DropLine>::new(alloc),
        places: places(alloc, row)?,
        commons: Vec::<CommonLine>::new(alloc),
        notes: Vec::<StretchLine>::new(alloc),
        areas: Vec::from_slice(alloc, &[stretch(row.area.0, row.area.1)])?,
        merged: Vec::<MergedLine>::new(alloc),
        list: list_line(row),
        frames: frames(alloc, row)?,
        names: Vec::<NameLine>::new(alloc),
        got: None,
    })
}

fn words(alloc: Global, row: &Row) -> Result<Vec<String>, AllocError> {
    let table = if row.tabled {
        "--eh-frame-hdr"
    } else {
        "--no-eh-frame-hdr"
    };
    let mut words = Vec::new(alloc);
    for word in ["-static", table, "-o", "x", "-e", "main", "a.o", "b.o"] {
        words.push(String::from_str(alloc, word)?)?;
    }
    Ok(words)
}

/// What is judged of a row; None where its words are none that are judged.
fn judged(alloc: Global, row: &Row) -> Result<Option<Judgement>, Fail> {
    let words = words(alloc, row)?;
    let files = files(alloc, row)?;
    let image = image(alloc, row)?;
    let certificate = certificate(alloc, row)?;
    match read_foreign_words(alloc, &words)? {
        Some(spoken) => Ok(Some(judge(alloc, &spoken, &files, &image, &certificate, None)?)),
        None => Ok(None),
    }
}

#[test]
fn lists_of_linkers_are_right(rt: HostRuntime) -> Result<(), Fail> {
    for (number, row) in RIGHT_ROWS.iter().enumerate() {
        let found = judged(rt.alloc(), row)?;
        assert!(rt; found == Some(row.judged), "row {number}: {found:?}");
    }
    Ok(())
}

#[test]
fn records_that_are_no_copies_are_not(rt: HostRuntime) -> Result<(), Fail> {
    for (number, row) in WRONG_COPIES.iter().enumerate() {
        let found = judged(rt.alloc(), row)?;
        assert!(rt; found == Some(row.judged), "row {number}: {found:?}");
    }
    Ok(())
}

#[test]
fn other_lists_are_not(rt: HostRuntime) -> Result<(), Fail> {
    for (number, row) in WRONG_LISTS.iter().enumerate() {
        let found = judged(rt.alloc(), row)?;
        assert!(rt; found == Some(row.judged), "row {number}: {found:?}");
    }
    Ok(())
}

#[test]
fn frames_that_are_not_read_are_not_judged(rt: HostRuntime) -> Result<(), Fail> {
    for (number, row) in NOT_JUDGED.iter().enumerate() {
        let found = judged(rt.alloc(), row)?;
        assert!(rt; found == Some(row.judged), "row {number}: {found:?}");
    }
    Ok(())
}
