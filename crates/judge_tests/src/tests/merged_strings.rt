//! What is judged of a link of two objects whose strings and constants the linker merged (System V gABI 4, SHF_MERGE, SHF_STRINGS).
use crate::tests::images::{HEADER, HEADERS};
use crate::tests::sample_objects::{Named, Part, object, put};
use elf_model::{
    CommonLine, DropLine, FileHeader, InputFile, ObjectLine, PlaceLine, ProgramHeader, SHF_ALLOC,
    SHF_EXECINSTR, SHF_MERGE, SHF_STRINGS, SHT_PROGBITS, SHT_RELA,
};
use foreign_words::read_foreign_words;
use judge_model::{Certificate, MergedLine, NameLine, Requirement, StretchLine};
use link_fields::WrongField;
use link_judge::{Judgement, Place, Reason, judge};
use std::alloc::{AllocError, Global};
use std::test::Fail;

/// An object: its strings, its constants of eight bytes, where in the strings its LOCAL symbol is, and the name of its function.
#[derive(Clone, Copy)]
struct Input {
    strings: &'static [u8; 7],
    constants: [u64; 2],
    symbol: u64,
    function: &'static str,
}

/// "ab" and "xyz".
const FIRST: Input = Input {
    strings: b"ab\0xyz\0",
    constants: [1, 2],
    symbol: 3,
    function: "main",
};

/// "xyz", "q" and an empty one.
const SECOND: Input = Input {
    strings: b"xyz\0q\0\0",
    constants: [2, 3],
    symbol: 4,
    function: "second",
};

/// The three fields of each object's code, of four bytes: the address of its symbol and one; that of the byte at offset 3 of its
/// strings, as the section and an addend; that of its second constant, in the same way.
const FIELDS: [u64; 6] = [
    0x20_0104, 0x20_0103, 0x20_00f0, 0x20_0108, 0x20_0106, 0x20_00f8,
];

/// The area behind the headers: the constants 1, 2 and 3, each once, then "ab", "xyz" and "q", and fill.
const AREA: [u8; 33] = [
    1, 0, 0, 0, 0, 0, 0, 0, 2, 0, 0, 0, 0, 0, 0, 0, 3, 0, 0, 0, 0, 0, 0, 0, 97, 98, 0, 120, 121,
    122, 0, 113, 0,
];

/// A line of an area: its address and size.
#[derive(Clone, Copy)]
struct Area(u64, u64);

/// A line of a string or constant: its object, section, offset, size and address.
#[derive(Clone, Copy)]
struct Line(u64, u64, u64, u64, u64);

/// Section 2 of each object has its strings, and section 3 its constants.
const LINES: [Line; 8] = [
    Line(0, 2, 0, 3, 0x20_0100),
    Line(0, 2, 3, 4, 0x20_0103),
    Line(0, 3, 0, 8, 0x20_00e8),
    Line(0, 3, 8, 8, 0x20_00f0),
    Line(1, 2, 0, 4, 0x20_0103),
    Line(1, 2, 4, 2, 0x20_0107),
    Line(1, 3, 0, 8, 0x20_00f0),
    Line(1, 3, 8, 8, 0x20_00f8),
];

/// The segments: the headers with 40 bytes behind them, and code.
const READ: ProgramHeader = ProgramHeader {
    p_filesz: 272,
    p_memsz: 272,
    ..HEADERS
};

const CODE: ProgramHeader = ProgramHeader {
    p_flags: 5,
    p_offset: 272,
    p_vaddr: 0x20_1110,
    p_paddr: 0x20_1110,
    p_filesz: 32,
    p_memsz: 32,
    ..HEADERS
};

const STACK: ProgramHeader = ProgramHeader {
    p_type: 0x6474_e551,
    p_flags: 6,
    p_offset: 0,
    p_vaddr: 0,
    p_paddr: 0,
    p_filesz: 0,
    p_memsz: 0,
    p_align: 0,
};

/// A link: the name of the strings' section, the first segment's rights, how many bytes farther all strings and constants are, a byte
/// behind the headers and a field by their index, the areas, a line by its index, which is another one or not there; and what is judged of
/// it.
#[derive(Clone, Copy)]
struct Row {
    section: &'static str,
    flags: u32,
    shift: u64,
    byte: Option<(usize, u8)>,
    field: Option<(usize, u64)>,
    areas: [Area; 2],
    line: Option<(usize, Option<Line>)>,
    judged: Judgement,
}

const RIGHT: Row = Row {
    section: ".rodata.str1.1",
    flags: 4,
    shift: 0,
    byte: None,
    field: None,
    areas: [Area(0x20_00e8, 24), Area(0x20_0100, 16)],
    line: None,
    judged: Judgement::Yes,
};

const NO_MERGED: Row = Row {
    judged: Judgement::No(Requirement::F4),
    ..RIGHT
};

/// A field of the first object's code, of an R_X86_64_32.
const FIELD: WrongField = WrongField {
    object: 0,
    section: 1,
    offset: 4,
    kind: 10,
};

const NO_ORDER: Row = Row {
    judged: Judgement::No(Requirement::F3),
    ..RIGHT
};

static ROWS: [Row; 21] = [
    RIGHT,
    // One area, which ends with the last string.
    Row {
        areas: [Area(0x20_00e8, 33), Area(0x20_0110, 0)],
        ..RIGHT
    },
    // A byte of the second constant; of the last string; its zero.
    Row {
        byte: Some((9, 1)),
        ..NO_MERGED
    },
    Row {
        byte: Some((31, 120)),
        ..NO_MERGED
    },
    Row {
        byte: Some((32, 1)),
        ..NO_MERGED
    },
    // All of it where constants of eight bytes aren't aligned.
    Row {
        shift: 4,
        areas: [Area(0x20_00e8, 40), Area(0x20_0110, 0)],
        ..NO_MERGED
    },
    // Strings and constants that are written.
    Row {
        flags: 6,
        ..NO_MERGED
    },
    // Strings in no area; an area that ends behind its segment; one that has a byte of the headers; two that share a byte.
    Row {
        areas: [Area(0x20_00e8, 24), Area(0x20_0110, 0)],
        ..NO_MERGED
    },
    Row {
        areas: [Area(0x20_00e8, 24), Area(0x20_0100, 17)],
        ..NO_MERGED
    },
    Row {
        areas: [Area(0x20_00e7, 25), Area(0x20_0100, 16)],
        ..NO_ORDER
    },
    Row {
        areas: [Area(0x20_00e8, 25), Area(0x20_0100, 16)],
        ..NO_ORDER
    },
    // Lines of a string without its zero, of its end, of two strings, of a string and the zero of another one, of a constant's half, of
    // a section that has a place.
    Row {
        line: Some((1, Some(Line(0, 2, 3, 3, 0x20_0103)))),
        ..NO_MERGED
    },
    Row {
        line: Some((1, Some(Line(0, 2, 4, 3, 0x20_0104)))),
        ..NO_MERGED
    },
    Row {
        line: Some((5, Some(Line(1, 2, 4, 3, 0x20_0107)))),
        ..NO_MERGED
    },
    Row {
        line: Some((7, Some(Line(1, 3, 8, 4, 0x20_00f8)))),
        ..NO_MERGED
    },
    Row {
        line: Some((0, Some(Line(0, 1, 0, 4, 0x20_0104)))),
        ..NO_MERGED
    },
    // Lines that don't come by their offsets.
    Row {
        line: Some((0, Some(Line(0, 2, 3, 4, 0x20_0103)))),
        ..NO_ORDER
    },
    // A field of another string; of another constant; one whose string has no line.
    Row {
        field: Some((1, 0x20_0100)),
        judged: Judgement::NoAt(Place::Field(FIELD)),
        ..RIGHT
    },
    Row {
        field: Some((5, 0x20_00f0)),
        judged: Judgement::NoAt(Place::Field(WrongField {
            object: 1,
            offset: 8,
            ..FIELD
        })),
        ..RIGHT
    },
    Row {
        line: Some((5, None)),
        judged: Judgement::NoAt(Place::Field(WrongField {
            object: 1,
            offset: 0,
            ..FIELD
        })),
        ..RIGHT
    },
    // Fill of an area that isn't zero.
    Row {
        byte: Some((33, 1)),
        judged: Judgement::No(Requirement::F10),
        ..RIGHT
    },
];

/// Strings in a section that isn't one of read-only data by its name.
const OTHER_NAME: Row = Row {
    section: ".strings",
    judged: Judgement::NotJudged(Reason::Edited),
    ..RIGHT
};

/// The bytes of an object. Behind its file header are its code, its strings and constants, and the relocations of its code; its
/// section headers are its last bytes.
fn object_of(alloc: Global, row: &Row, input: &Input) -> Result<Vec<u8>, Fail> {
    let parts = [
        Part(".text", SHT_PROGBITS, SHF_ALLOC + SHF_EXECINSTR, 1, 16),
        Part(
            row.section,
            SHT_PROGBITS,
            SHF_ALLOC + SHF_MERGE + SHF_STRINGS,
            1,
            7,
        ),
        Part(".rodata.cst8", SHT_PROGBITS, SHF_ALLOC + SHF_MERGE, 8, 16),
        Part(".rela.text", SHT_RELA, 0, 8, 24),
        Part(".rela.text", SHT_RELA, 0, 8, 24),
        Part(".rela.text", SHT_RELA, 0, 8, 24),
    ];
    let symbols = [
        Named("here", 0, 2, input.symbol),
        Named("", 3, 2, 0),
        Named("", 3, 3, 0),
        Named(input.function, 0x12, 1, 0),
    ];
    let mut bytes = object(alloc, &parts, &symbols)?;
    let headers = bytes.len().saturating_sub(10 * 64);
    for (at, byte) in input.strings.iter().enumerate() {
        put(&mut bytes, at.saturating_add(80), *byte as u64, 1);
    }
    put(&mut bytes, 87, input.constants[0], 8);
    put(&mut bytes, 95, input.constants[1], 8);
    put(&mut bytes, headers.saturating_add(2 * 64 + 56), 1, 8);
    put(&mut bytes, headers.saturating_add(3 * 64 + 56), 8, 8);
    put_entry(&mut bytes, headers, 0, 1);
    put_entry(&mut bytes, headers, 1, 3);
    put_entry(&mut bytes, headers, 2, 8);
    Ok(bytes)
}

/// Makes section `number + 4` one of a relocation of the code: R_X86_64_32 with symbol `number + 1` and an addend.
fn put_entry(bytes: &mut [u8], headers: usize, number: usize, addend: u64) {
    let header = headers
        .saturating_add(number.saturating_mul(64))
        .saturating_add(4 * 64);
    put(bytes, header.saturating_add(40), 7, 4);
    put(bytes, header.saturating_add(44), 1, 4);
    put(bytes, header.saturating_add(56), 24, 8);
    let entry = number.saturating_mul(24).saturating_add(103);
    let symbol = (number as u64).saturating_add(1);
    put(bytes, entry, (number as u64).saturating_mul(4), 8);
    put(
        bytes,
        entry.saturating_add(8),
        symbol.saturating_mul(1 << 32).saturating_add(10),
        8,
    );
    put(bytes, entry.saturating_add(16), addend, 8);
}

fn files(alloc: Global, row: &Row) -> Result<Vec<InputFile>, Fail> {
    let mut files = Vec::new(alloc);
    files.push(InputFile {
        name: String::from_str(alloc, "a.o")?,
        bytes: object_of(alloc, row, &FIRST)?,
    })?;
    files.push(InputFile {
        name: String::from_str(alloc, "b.o")?,
        bytes: object_of(alloc, row, &SECOND)?,
    })?;
    Ok(files)
}

/// The headers, the area, and the code with its fields.
fn image(alloc: Global, row: &Row) -> Result<Vec<u8>, AllocError> {
    let mut image = Vec::new(alloc);
    let mut record = [0; 64];
    let header = FileHeader {
        e_entry: 0x20_1110,
        ..HEADER
    };
    header.write_to(&mut record);
    image.extend_from_slice(&record)?;
    let read = ProgramHeader {
        p_flags: row.flags,
        ..READ
    };
    for segment in [read, CODE, STACK] {
        let mut record = [0; 56];
        segment.write_to(&mut record);
        image.extend_from_slice(&record)?;
    }
    let mut rest = [0; 72];
    for (at, byte) in AREA.iter().enumerate() {
        put(
            &mut rest,
            at.saturating_add(row.shift as usize),
            *byte as u64,
            1,
        );
    }
    if let Some((at, byte)) = row.byte {
        put(&mut rest, at, byte as u64, 1);
    }
    for (at, value) in FIELDS.iter().enumerate() {
        let field = match row.field {
            Some((index, other)) if index == at => other,
            _ => value.saturating_add(row.shift),
        };
        put(&mut rest, 40 + 16 * (at / 3) + 4 * (at % 3), field, 4);
    }
    image.extend_from_slice(&rest)?;
    Ok(image)
}

fn objects(alloc: Global) -> Result<Vec<ObjectLine>, AllocError> {
    let mut objects = Vec::new(alloc);
    for object in 0..2 {
        objects.push(ObjectLine {
            object,
            item: object,
            offset: 0,
            path: Vec::from_slice(alloc, if object == 0 { b"a.o" } else { b"b.o" })?,
        })?;
    }
    Ok(objects)
}

/// The lines of both objects' code.
fn places(alloc: Global) -> Result<Vec<PlaceLine>, AllocError> {
    let mut places = Vec::new(alloc);
    for object in 0..2 {
        places.push(PlaceLine {
            address: if object == 0 { 0x20_1110 } else { 0x20_1120 },
            size: 16,
            object,
            section: 1,
            name: Vec::from_slice(alloc, b".text")?,
        })?;
    }
    Ok(places)
}

fn areas(alloc: Global, row: &Row) -> Result<Vec<StretchLine>, AllocError> {
    let mut areas = Vec::new(alloc);
    for area in &row.areas {
        areas.push(StretchLine {
            address: area.0,
            size: area.1,
        })?;
    }
    Ok(areas)
}

fn merged(alloc: Global, row: &Row) -> Result<Vec<MergedLine>, AllocError> {
    let mut merged = Vec::new(alloc);
    for (number, line) in LINES.iter().enumerate() {
        let told = match row.line {
            Some((index, other)) if index == number => other,
            _ => Some(*line),
        };
        if let Some(line) = told {
            merged.push(MergedLine {
                object: line.0,
                section: line.1,
                offset: line.2,
                size: line.3,
                address: line.4.saturating_add(row.shift),
            })?;
        }
    }
    Ok(merged)
}

fn certificate(alloc: Global, row: &Row) -> Result<Certificate, AllocError> {
    Ok(Certificate {
        objects: objects(alloc)?,
        drops: Vec::<DropLine>::new(alloc),
        places: places(alloc)?,
        commons: Vec::<CommonLine>::new(alloc),
        notes: Vec::<StretchLine>::new(alloc),
        areas: areas(alloc, row)?,
        merged: merged(alloc, row)?,
        list: None,
        frames: Vec::<MergedLine>::new(alloc),
        names: Vec::<NameLine>::new(alloc),
        got: None,
    })
}

fn words(alloc: Global) -> Result<Vec<String>, AllocError> {
    let mut words = Vec::new(alloc);
    for word in ["-static", "-o", "x", "-e", "main", "a.o", "b.o"] {
        words.push(String::from_str(alloc, word)?)?;
    }
    Ok(words)
}

/// What is judged of a row; None where its words are none that are judged.
fn judged(alloc: Global, row: &Row) -> Result<Option<Judgement>, Fail> {
    let words = words(alloc)?;
    let files = files(alloc, row)?;
    let image = image(alloc, row)?;
    let certificate = certificate(alloc, row)?;
    match read_foreign_words(alloc, &words)? {
        Some(spoken) => Ok(Some(judge(alloc, &spoken, &files, &image, &certificate, None)?)),
        None => Ok(None),
    }
}

#[test]
fn merged_strings_are_judged(rt: HostRuntime) -> Result<(), Fail> {
    for (number, row) in ROWS.iter().enumerate() {
        let found = judged(rt.alloc(), row)?;
        assert!(rt; found == Some(row.judged), "row {number}: {found:?}");
    }
    Ok(())
}

#[test]
fn strings_of_other_names_are_not_judged(rt: HostRuntime) -> Result<(), Fail> {
    let found = judged(rt.alloc(), &OTHER_NAME)?;
    assert!(rt; found == Some(OTHER_NAME.judged));
    Ok(())
}
