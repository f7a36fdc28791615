//! What is judged of a link of two objects, and of such in which one thing isn't right (docs/DEFINITIONS.md, 'Right links of other
//! linkers'; System V gABI 4 and 5).
use crate::tests::images::{HEADER, HEADERS};
use crate::tests::sample_objects::{Named, Part, file, object};
use elf_model::{
    CommonLine, DropLine, ET_REL, FileHeader, InputFile, ObjectLine, PlaceLine, ProgramHeader,
    SHF_ALLOC, SHF_EXECINSTR, SHF_WRITE, SHT_NOBITS, SHT_PROGBITS,
};
use foreign_words::read_foreign_words;
use judge_model::{Certificate, MergedLine, NameLine, Requirement, StretchLine};
use link_fields::WrongRest;
use link_judge::{Judgement, Place, Reason, judge};
use std::alloc::{AllocError, Global};
use std::test::Fail;

const COMMON: u16 = 0xfff2;

/// Code, data and zeros of each object: four bytes each, all of them zeros.
const PARTS: [Part; 3] = [
    Part(".text", SHT_PROGBITS, SHF_ALLOC + SHF_EXECINSTR, 1, 4),
    Part(".data", SHT_PROGBITS, SHF_ALLOC + SHF_WRITE, 1, 4),
    Part(".bss", SHT_NOBITS, SHF_ALLOC + SHF_WRITE, 1, 4),
];

/// A function and a common block; another function.
const FIRST: [Named; 2] = [Named("main", 0x12, 1, 0), Named("shared", 0x11, COMMON, 4)];

const SECOND: [Named; 1] = [Named("second", 0x12, 1, 0)];

/// The segments as LLD lays them out: the headers, code with a gap of four bytes between the objects', data with zeros behind.
const READ: ProgramHeader = ProgramHeader {
    p_filesz: 288,
    p_memsz: 288,
    ..HEADERS
};

const CODE: ProgramHeader = ProgramHeader {
    p_flags: 5,
    p_offset: 288,
    p_vaddr: 0x20_1120,
    p_paddr: 0x20_1120,
    p_filesz: 12,
    p_memsz: 12,
    ..HEADERS
};

const DATA: ProgramHeader = ProgramHeader {
    p_flags: 6,
    p_offset: 300,
    p_vaddr: 0x20_212c,
    p_paddr: 0x20_212c,
    p_filesz: 8,
    p_memsz: 24,
    ..HEADERS
};

const STACK: ProgramHeader = ProgramHeader {
    p_type: 0x6474_e551,
    p_flags: 6,
    p_offset: 0,
    p_vaddr: 0,
    p_paddr: 0,
    p_filesz: 0,
    p_memsz: 0,
    p_align: 0,
};

/// The bytes of code and of data in the file: two no-ops of two bytes are between the functions.
const BYTES: [u8; 20] = [
    0, 0, 0, 0, 0x66, 0x90, 0x66, 0x90, 0, 0, 0, 0, 0, 0, 0, 0, 0, 0, 0, 0,
];

/// The addresses of code, data and zeros of both objects.
const PLACES: [u64; 6] = [
    0x20_1120, 0x20_212c, 0x20_2134, 0x20_1128, 0x20_2130, 0x20_2138,
];

/// A link: its words, whether the second object's file is there, the order of the objects, the addresses of sections and of the common
/// block, a section of the first object that is left out, a name's value, the entry, the segments, a byte of code or data by its
/// index; and what is judged of it.
#[derive(Clone, Copy)]
struct Row {
    words: &'static str,
    missing: bool,
    order: [u64; 2],
    places: [u64; 6],
    block: u64,
    dropped: Option<u64>,
    name: Option<(&'static str, u64)>,
    header: FileHeader,
    segments: [ProgramHeader; 4],
    byte: Option<(usize, u8)>,
    judged: Judgement,
}

const RIGHT: Row = Row {
    words: "-static -o x -e main a.o b.o",
    missing: false,
    order: [0, 1],
    places: PLACES,
    block: 0x20_213c,
    dropped: None,
    name: None,
    header: FileHeader {
        e_entry: 0x20_1120,
        e_phnum: 4,
        ..HEADER
    },
    segments: [READ, CODE, DATA, STACK],
    byte: None,
    judged: Judgement::Yes,
};

static ROWS: [Row; 23] = [
    RIGHT,
    // A name of the linker's with its value, and with another one.
    Row {
        name: Some(("_end", 0x20_2140)),
        ..RIGHT
    },
    Row {
        name: Some(("_end", 0x20_213b)),
        judged: Judgement::No(Requirement::F4),
        ..RIGHT
    },
    // The objects in another order than that of the words.
    Row {
        order: [1, 0],
        judged: Judgement::No(Requirement::F1),
        ..RIGHT
    },
    // A section that is left out.
    Row {
        dropped: Some(3),
        judged: Judgement::No(Requirement::F2),
        ..RIGHT
    },
    // Two sections that share a byte; one that is in no segment; code where nothing is executed; the common block, which has no bytes, where it isn't aligned.
    Row {
        places: [
            0x20_1120, 0x20_212c, 0x20_2134, 0x20_1123, 0x20_2130, 0x20_2138,
        ],
        judged: Judgement::No(Requirement::F3),
        ..RIGHT
    },
    Row {
        places: [
            0x20_1120, 0x20_212c, 0x20_2134, 0x20_1128, 0x20_2130, 0x20_2142,
        ],
        judged: Judgement::No(Requirement::F3),
        ..RIGHT
    },
    Row {
        places: [
            0x20_212c, 0x20_1120, 0x20_2134, 0x20_1128, 0x20_2130, 0x20_2138,
        ],
        judged: Judgement::No(Requirement::F3),
        ..RIGHT
    },
    Row {
        block: 0x20_213e,
        judged: Judgement::No(Requirement::F3),
        ..RIGHT
    },
    // A byte of code, and one of data.
    Row {
        byte: Some((0, 1)),
        judged: Judgement::NoAt(Place::Rest(WrongRest {
            object: 0,
            section: 1,
        })),
        ..RIGHT
    },
    Row {
        byte: Some((19, 1)),
        judged: Judgement::NoAt(Place::Rest(WrongRest {
            object: 1,
            section: 2,
        })),
        ..RIGHT
    },
    // A block of thread-local storage that no section has.
    Row {
        segments: [
            READ,
            CODE,
            DATA,
            ProgramHeader {
                p_type: 7,
                p_flags: 4,
                ..DATA
            },
        ],
        judged: Judgement::No(Requirement::F9),
        ..RIGHT
    },
    // A gap with another byte.
    Row {
        byte: Some((5, 0x91)),
        judged: Judgement::No(Requirement::F10),
        ..RIGHT
    },
    // The same where a header says that data are a table of call frames.
    Row {
        byte: Some((5, 0x91)),
        segments: [
            READ,
            CODE,
            DATA,
            ProgramHeader {
                p_type: 0x6474_e550,
                p_flags: 4,
                ..READ
            },
        ],
        judged: Judgement::No(Requirement::F8),
        ..RIGHT
    },
    // Another entry.
    Row {
        header: FileHeader {
            e_entry: 0x20_1128,
            e_phnum: 4,
            ..HEADER
        },
        judged: Judgement::No(Requirement::F11),
        ..RIGHT
    },
    // Another physical address; an object; an executable stack, which the words forbid.
    Row {
        segments: [
            READ,
            ProgramHeader {
                p_paddr: 0x1000,
                ..CODE
            },
            DATA,
            STACK,
        ],
        judged: Judgement::No(Requirement::F12),
        ..RIGHT
    },
    Row {
        header: FileHeader {
            e_type: ET_REL,
            e_phnum: 4,
            ..HEADER
        },
        judged: Judgement::No(Requirement::F12),
        ..RIGHT
    },
    Row {
        words: "-static -z noexecstack -o x -e main a.o b.o",
        segments: [
            READ,
            CODE,
            DATA,
            ProgramHeader {
                p_flags: 7,
                ..STACK
            },
        ],
        judged: Judgement::No(Requirement::F12),
        ..RIGHT
    },
    // With --gc-sections no section has to go, and all may but those that stay, such as that of the entry. The other requirements are as ever.
    Row {
        words: "-static --gc-sections -o x -e main a.o b.o",
        ..RIGHT
    },
    Row {
        words: "-static --gc-sections -o x -e main a.o b.o",
        dropped: Some(3),
        ..RIGHT
    },
    Row {
        words: "-static --gc-sections -o x -e main a.o b.o",
        dropped: Some(1),
        judged: Judgement::No(Requirement::F2),
        ..RIGHT
    },
    Row {
        words: "-static --gc-sections -u second -o x -e main a.o b.o",
        byte: Some((4, 1)),
        judged: Judgement::No(Requirement::F10),
        ..RIGHT
    },
    // A file that is missing.
    Row {
        missing: true,
        judged: Judgement::NotJudged(Reason::Unreadable),
        ..RIGHT
    },
];

/// The files of a row.
fn files(alloc: Global, row: &Row) -> Result<Vec<InputFile>, Fail> {
    let mut files = file(alloc, object(alloc, &PARTS, &FIRST)?)?;
    if !row.missing {
        files.push(InputFile {
            name: String::from_str(alloc, "b.o")?,
            bytes: object(alloc, &PARTS, &SECOND)?,
        })?;
    }
    Ok(files)
}

/// The image of a row.
fn image(alloc: Global, row: &Row) -> Result<Vec<u8>, AllocError> {
    let mut image = Vec::new(alloc);
    let mut record = [0; 64];
    row.header.write_to(&mut record);
    image.extend_from_slice(&record)?;
    for segment in &row.segments {
        let mut record = [0; 56];
        segment.write_to(&mut record);
        image.extend_from_slice(&record)?;
    }
    for (at, byte) in BYTES.iter().enumerate() {
        image.push(match row.byte {
            Some((index, other)) if index == at => other,
            _ => *byte,
        })?;
    }
    Ok(image)
}

fn objects(alloc: Global, row: &Row) -> Result<Vec<ObjectLine>, AllocError> {
    let mut objects = Vec::new(alloc);
    for (item, object) in row.order.iter().zip(0..2) {
        objects.push(ObjectLine {
            object,
            item: *item,
            offset: 0,
            path: Vec::from_slice(alloc, if *item == 0 { b"a.o" } else { b"b.o" })?,
        })?;
    }
    Ok(objects)
}

/// The lines of the sections that aren't left out; the numbers of sections are 1, 2 and 3.
fn places(alloc: Global, row: &Row) -> Result<Vec<PlaceLine>, AllocError> {
    let mut places = Vec::new(alloc);
    for (address, index) in row.places.iter().zip(0u64..6) {
        let (object, section) = (index / 3, index % 3 + 1);
        if object == 0 && row.dropped == Some(section) {
            continue;
        }
        let name: &[u8] = match section {
            1 => b".text",
            2 => b".data",
            _ => b".bss",
        };
        places.push(PlaceLine {
            address: *address,
            size: 4,
            object,
            section,
            name: Vec::from_slice(alloc, name)?,
        })?;
    }
    Ok(places)
}

fn drops(alloc: Global, row: &Row) -> Result<Vec<DropLine>, AllocError> {
    let mut drops = Vec::new(alloc);
    if let Some(section) = row.dropped {
        drops.push(DropLine { object: 0, section })?;
    }
    Ok(drops)
}

fn names(alloc: Global, row: &Row) -> Result<Vec<NameLine>, AllocError> {
    let mut names = Vec::new(alloc);
    if let Some((name, value)) = row.name {
        names.push(NameLine {
            value,
            name: Vec::from_slice(alloc, name.as_bytes())?,
        })?;
    }
    Ok(names)
}

fn commons(alloc: Global, row: &Row) -> Result<Vec<CommonLine>, AllocError> {
    let mut commons = Vec::new(alloc);
    commons.push(CommonLine {
        address: row.block,
        size: 0,
        align: 4,
        name: Vec::from_slice(alloc, b"shared")?,
    })?;
    Ok(commons)
}

fn certificate(alloc: Global, row: &Row) -> Result<Certificate, AllocError> {
    Ok(Certificate {
        objects: objects(alloc, row)?,
        drops: drops(alloc, row)?,
        places: places(alloc, row)?,
        commons: commons(alloc, row)?,
        notes: Vec::<StretchLine>::new(alloc),
        areas: Vec::<StretchLine>::new(alloc),
        merged: Vec::<MergedLine>::new(alloc),
        list: None,
        frames: Vec::<MergedLine>::new(alloc),
        names: names(alloc, row)?,
        got: None,
    })
}

fn words(alloc: Global, text: &str) -> Result<Vec<String>, AllocError> {
    let mut words = Vec::new(alloc);
    for word in text.split(' ') {
        words.push(String::from_str(alloc, word)?)?;
    }
    Ok(words)
}

/// What is judged of a row; None where its words are none that are judged.
fn judged(alloc: Global, row: &Row) -> Result<Option<Judgement>, Fail> {
    let words = words(alloc, row.words)?;
    let files = files(alloc, row)?;
    let image = image(alloc, row)?;
    let certificate = certificate(alloc, row)?;
    match read_foreign_words(alloc, &words)? {
        Some(spoken) => Ok(Some(judge(alloc, &spoken, &files, &image, &certificate, None)?)),
        None => Ok(None),
    }
}

#[test]
fn links_are_judged(rt: HostRuntime) -> Result<(), Fail> {
    for (number, row) in ROWS.iter().enumerate() {
        let found = judged(rt.alloc(), row)?;
        assert!(rt; found == Some(row.judged), "row {number}: {found:?}");
    }
    Ok(())
}
