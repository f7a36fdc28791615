//! Symbol tables and section headers that are true of a link of two objects, and such that aren't (System V gABI 4, "Symbol
//! Table", "Sections").
ghost use Rattle.check_load.specs.Numbered.{AreNumbered};

use crate::tests::images::{BLOCK, CODE, HEADER, HEADERS, image_of};
use crate::tests::linker_names::lines;
use crate::tests::sample_objects::{Named, Part, file, loaded, object, words};
use byteview::View;
use check_link::{Block, Names, Outputs, Piece, Placed, pieces_of};
use check_load::{Loaded, NameTable, NamedObjects};
use elf_model::{
    FileHeader, InputFile, SHF_ALLOC, SHF_EXECINSTR, SHF_TLS, SHF_WRITE, SHT_NOBITS, SHT_PROGBITS,
    SHT_STRTAB, SHT_SYMTAB, SectionHeader, Symbol,
};
use foreign_image::ForeignImage;
use judge_model::NameLine;
use link_fields::{Addresses, LinkParts, MergedLines};
use std::alloc::{AllocError, Global};
use std::test::Fail;
use symbol_judge::are_tables_right;

const ABSOLUTE: u16 = 0xfff1;

const COMMON: u16 = 0xfff2;

/// Code, data, zeros, and read-only data that has nothing.
const FIRST_PARTS: [Part; 4] = [
    Part(".text", SHT_PROGBITS, SHF_ALLOC + SHF_EXECINSTR, 1, 4),
    Part(".data", SHT_PROGBITS, SHF_ALLOC + SHF_WRITE, 1, 4),
    Part(".bss", SHT_NOBITS, SHF_ALLOC + SHF_WRITE, 1, 4),
    Part(".rodata", SHT_PROGBITS, SHF_ALLOC, 1, 0),
];

/// A file, two LOCAL names; a function, an object, one in the section that has nothing, a common block, and what nothing defines
/// and the linker does.
const FIRST_NAMES: [Named; 9] = [
    Named("a.c", 0x04, ABSOLUTE, 0),
    Named("loop", 0x00, 1, 1),
    Named("helper", 0x02, 1, 2),
    Named("main", 0x12, 1, 0),
    Named("counter", 0x11, 2, 0),
    Named("nothing", 0x11, 4, 0),
    Named("shared", 0x11, COMMON, 4),
    Named("maybe", 0x20, 0, 0),
    Named("_end", 0x10, 0, 0),
];

const SECOND_PARTS: [Part; 2] = [
    Part(".text", SHT_PROGBITS, SHF_ALLOC + SHF_EXECINSTR, 1, 4),
    Part(
        ".tdata",
        SHT_PROGBITS,
        SHF_ALLOC + SHF_WRITE + SHF_TLS,
        1,
        4,
    ),
];

/// One of the LOCAL names again; another definition of a name of the first object; a function, a thread-local object, a number.
const SECOND_NAMES: [Named; 5] = [
    Named("loop", 0x00, 1, 3),
    Named("main", 0x22, 1, 1),
    Named("second", 0x22, 1, 0),
    Named("state", 0x16, 2, 2),
    Named("number", 0x10, ABSOLUTE, 77),
];

/// The sections of both objects, and then the common block, which is 4 bytes.
static PLACES: [u64; 6] = [
    0x20_10e8, 0x20_10f0, 0x20_10f8, 0x20_10f4, 0x20_10ec, 0x20_10f4,
];

const BLOCK_PLACE: u64 = 0x20_10fc;

/// An entry of the image's table: a name, type and binding, section, value and size.
#[derive(Clone, Copy)]
struct Entry(&'static str, u8, u16, u64, u64);

const TEXT: SectionHeader = SectionHeader {
    sh_type: SHT_PROGBITS,
    sh_flags: SHF_ALLOC + SHF_EXECINSTR,
    sh_addr: 0x20_10e8,
    sh_offset: 232,
    sh_size: 8,
    ..SectionHeader::NULL
};

const DATA: SectionHeader = SectionHeader {
    sh_type: SHT_PROGBITS,
    sh_flags: SHF_ALLOC + SHF_WRITE,
    sh_addr: 0x20_10f0,
    sh_offset: 240,
    sh_size: 4,
    ..SectionHeader::NULL
};

const THREAD: SectionHeader = SectionHeader {
    sh_flags: SHF_ALLOC + SHF_WRITE + SHF_TLS,
    sh_addr: 0x20_10f4,
    sh_offset: 244,
    ..DATA
};

const ZEROS: SectionHeader = SectionHeader {
    sh_type: SHT_NOBITS,
    sh_addr: 0x20_10f8,
    sh_offset: 248,
    sh_size: 8,
    ..DATA
};

/// The sections of the image, without the null one and those of symbols.
const SECTIONS: [SectionHeader; 4] = [TEXT, DATA, THREAD, ZEROS];

/// A right table. Values are addresses, of the thread-local object the offset from its block's beginning.
const TABLE: [Entry; 15] = [
    Entry("", 0, 0, 0, 0),
    Entry("a.c", 0x04, ABSOLUTE, 0, 0),
    Entry("", 0x03, 1, 0x20_10e8, 0),
    Entry("loop", 0x00, 1, 0x20_10e9, 0),
    Entry("loop", 0x00, 1, 0x20_10ef, 0),
    Entry("helper", 0x02, 1, 0x20_10ea, 0),
    Entry("main", 0x12, 1, 0x20_10e8, 0),
    Entry("counter", 0x11, 2, 0x20_10f0, 0),
    Entry("nothing", 0x11, 1, 0x20_10f4, 0),
    Entry("shared", 0x11, 4, 0x20_10fc, 0),
    Entry("second", 0x22, 1, 0x20_10ec, 0),
    Entry("state", 0x16, 3, 2, 0),
    Entry("number", 0x10, ABSOLUTE, 77, 0),
    Entry("maybe", 0x20, 0, 0, 0),
    Entry("_end", 0x10, ABSOLUTE, 0x20_1100, 0),
];

/// The first six are LOCAL.
const LOCALS: u32 = 6;

/// Another entry at a number, with which the table is right: no type; no section; a linker's name in any section, as an object, and with
/// a size; an object in a section that has nothing in any section too; no thread-local object; the first entry may be any LOCAL one; a LOCAL
/// entry of what nothing defines; names that linkers make of themselves, mold's of slots among them.
static RIGHT: [(usize, Entry); 15] = [
    (6, Entry("main", 0x10, 1, 0x20_10e8, 0)),
    (6, Entry("main", 0x12, ABSOLUTE, 0x20_10e8, 0)),
    (5, Entry("helper", 0x00, 1, 0x20_10ea, 0)),
    (5, Entry("counter", 0x01, 2, 0x20_10f0, 0)),
    (14, Entry("_end", 0x10, 1, 0x20_1100, 0)),
    (14, Entry("_end", 0x21, 4, 0x20_1100, 0)),
    (14, Entry("_end", 0x11, ABSOLUTE, 0x20_1100, 24)),
    (8, Entry("nothing", 0x11, 4, 0x20_10f4, 0)),
    (11, Entry("main", 0x12, 1, 0x20_10e8, 0)),
    (0, Entry("main", 0x00, 7, 5, 9)),
    (5, Entry("maybe", 0x00, 0, 0, 0)),
    (5, Entry("_DYNAMIC", 0x01, 2, 1, 0)),
    (5, Entry("__stop_none", 0x00, ABSOLUTE, 7, 0)),
    (5, Entry("helper$got", 0x01, 2, 0x20_10f0, 0)),
    (5, Entry("state$gottp", 0x00, 2, 0x20_10f0, 0)),
];

/// One with which it isn't: another value, size, type, binding, section, the value of another definition; a LOCAL name with the
/// value of another name; another address of a LOCAL name, a LOCAL name that isn't LOCAL here; a number in a section
/// that takes up no memory; a name that linkers make of themselves with a size, as a function, and another one that nothing defines.
static WRONG: [(usize, Entry); 34] = [
    (6, Entry("main", 0x12, 1, 0x20_10e9, 0)),
    (6, Entry("main", 0x12, 1, 0x20_10e8, 1)),
    (6, Entry("main", 0x11, 1, 0x20_10e8, 0)),
    (6, Entry("main", 0x22, 1, 0x20_10e8, 0)),
    (6, Entry("main", 0x12, 2, 0x20_10e8, 0)),
    (6, Entry("main", 0x12, 0, 0x20_10e8, 0)),
    (6, Entry("main", 0x12, 7, 0x20_10e8, 0)),
    (6, Entry("main", 0x12, 1, 0x20_10ed, 0)),
    (5, Entry("loop", 0x02, 1, 0x20_10ea, 0)),
    (4, Entry("loop", 0x00, 1, 0x20_10ee, 0)),
    (4, Entry("loop", 0x01, 1, 0x20_10ef, 0)),
    (4, Entry("loop", 0x00, 2, 0x20_10ef, 0)),
    (7, Entry("loop", 0x10, 1, 0x20_10e9, 0)),
    (9, Entry("shared", 0x11, 4, 0x20_10f8, 0)),
    (9, Entry("shared", 0x12, 4, 0x20_10fc, 0)),
    (9, Entry("shared", 0x11, 1, 0x20_10fc, 0)),
    (9, Entry("shared", 0x11, 4, 0x20_10fc, 5)),
    (11, Entry("state", 0x16, 3, 0x20_10f6, 0)),
    (11, Entry("state", 0x16, 3, 0, 0)),
    (12, Entry("number", 0x10, ABSOLUTE, 78, 0)),
    (12, Entry("number", 0x10, 5, 77, 0)),
    (8, Entry("nothing", 0x11, 0, 0x20_10f4, 0)),
    (8, Entry("nothing", 0x11, 7, 0x20_10f4, 0)),
    (5, Entry("maybe", 0x00, 0, 1, 0)),
    (5, Entry("counter", 0x00, 0, 0, 0)),
    (13, Entry("maybe", 0x20, 0, 1, 0)),
    (13, Entry("maybe", 0x10, 0, 0, 0)),
    (13, Entry("counter", 0x20, 0, 0, 0)),
    (14, Entry("_end", 0x10, ABSOLUTE, 0x20_1101, 0)),
    (14, Entry("_end", 0x12, ABSOLUTE, 0x20_1100, 0)),
    (14, Entry("_end", 0x10, 0, 0x20_1100, 0)),
    (5, Entry("helper$got", 0x01, 2, 0x20_10f0, 8)),
    (5, Entry("helper$got", 0x02, 2, 0x20_10f0, 0)),
    (5, Entry("helpergot", 0x01, 2, 0x20_10f0, 0)),
];

/// Entries of files and sections that aren't: another value, section and binding, another address.
static OTHERS: [(usize, Entry); 5] = [
    (1, Entry("a.c", 0x04, ABSOLUTE, 1, 0)),
    (1, Entry("a.c", 0x04, 1, 0, 0)),
    (2, Entry("x", 0x03, 1, 0x20_10e9, 0)),
    (2, Entry("x", 0x03, 2, 0x20_10e8, 0)),
    (2, Entry("x", 0x03, 7, 0x20_10e8, 0)),
];

/// Section headers that lack a byte of a piece: of the common block, of data, of thread-local data; one whose last byte is behind its
/// segment.
static UNCOVERED: [(usize, SectionHeader); 4] = [
    (
        3,
        SectionHeader {
            sh_size: 7,
            ..ZEROS
        },
    ),
    (1, SectionHeader { sh_size: 3, ..DATA }),
    (
        2,
        SectionHeader {
            sh_size: 2,
            ..THREAD
        },
    ),
    (
        3,
        SectionHeader {
            sh_size: 17,
            ..ZEROS
        },
    ),
];

/// Such that do: one section for data and zeros, of which another one is a part.
static COVERED: [(usize, SectionHeader); 2] = [
    (
        1,
        SectionHeader {
            sh_type: SHT_NOBITS,
            sh_size: 24,
            ..DATA
        },
    ),
    (
        2,
        SectionHeader {
            sh_addr: 0x20_10f0,
            sh_offset: 240,
            sh_size: 8,
            ..THREAD
        },
    ),
];

/// The bytes of entries, and of their names.
fn tables(alloc: Global, entries: &[Entry]) -> Result<(Vec<u8>, Vec<u8>), Fail> {
    let mut bytes = Vec::new(alloc);
    let mut names = Vec::from_slice(alloc, &[0])?;
    for entry in entries {
        let symbol = Symbol {
            st_name: u32::try_from(names.len())?,
            st_info: entry.1,
            st_other: 0,
            st_shndx: entry.2,
            st_value: entry.3,
            st_size: entry.4,
        };
        let mut record = [0; 24];
        symbol.write_to(&mut record);
        bytes.extend_from_slice(&record)?;
        names.extend_from_slice(entry.0.as_bytes())?;
        names.push(0)?;
    }
    Ok((bytes, names))
}

/// The headers of the symbol table and of its names, which stand behind the image's 248 bytes.
fn table_headers(
    count: u32,
    entries: &[u8],
    names: &[u8],
) -> Result<(SectionHeader, SectionHeader), Fail> {
    let len = u64::try_from(entries.len())?;
    let table = SectionHeader {
        sh_type: SHT_SYMTAB,
        sh_offset: 248,
        sh_size: len,
        sh_link: 6,
        sh_info: count,
        ..SectionHeader::NULL
    };
    let strings = SectionHeader {
        sh_type: SHT_STRTAB,
        sh_offset: len.saturating_add(248),
        sh_size: u64::try_from(names.len())?,
        ..SectionHeader::NULL
    };
    Ok((table, strings))
}

fn add_header(image: &mut Vec<u8>, header: &SectionHeader) -> Result<(), AllocError> {
    let mut record = [0; 64];
    header.write_to(&mut record);
    image.extend_from_slice(&record)?;
    Ok(())
}

/// An image with sections and a table of entries, of which a number are told to be LOCAL.
fn tabled(
    alloc: Global,
    sections: &[SectionHeader],
    entries: &[Entry],
    count: u32,
) -> Result<Vec<u8>, Fail> {
    let (bytes, names) = tables(alloc, entries)?;
    let (table, strings) = table_headers(count, &bytes, &names)?;
    let header = FileHeader {
        e_shoff: strings.sh_offset.saturating_add(strings.sh_size),
        e_shentsize: 64,
        e_shnum: 7,
        ..HEADER
    };
    let mut image = image_of(alloc, &header, &[HEADERS, CODE, BLOCK])?;
    image.extend_from_slice(&bytes)?;
    image.extend_from_slice(&names)?;
    add_header(&mut image, &SectionHeader::NULL)?;
    for section in sections {
        add_header(&mut image, section)?;
    }
    add_header(&mut image, &table)?;
    add_header(&mut image, &strings)?;
    Ok(image)
}

/// Pieces, and common blocks, at their addresses.
fn places<'a>(
    alloc: Global,
    pieces: &[Piece<'a>],
    blocks: &[Block<'a>],
) -> Result<Vec<Placed<'a>>, AllocError> {
    let mut placed = Vec::new(alloc);
    for (at, piece) in PLACES.iter().zip(pieces) {
        placed.push(Placed {
            at: *at,
            piece: *piece,
        })?;
    }
    for block in blocks {
        let piece = Piece {
            object: block.object,
            section: block.number,
            header: SectionHeader {
                sh_size: 4,
                ..ZEROS
            },
            name: block.name,
            bytes: &[],
        };
        placed.push(Placed {
            at: BLOCK_PLACE,
            piece,
        })?;
    }
    Ok(placed)
}

/// Whether the tables of an image are right; None where it isn't read.
fn are_right<'a>(
    alloc: Global,
    names: &Names<'_, 'a>,
    pieces: &[Piece<'a>],
    placed: &[Placed<'a>],
    image: &'a [u8],
    rows: &[NameLine],
    strips: bool,
) -> Result<Option<bool>, AllocError> {
    let outputs = Outputs::new(alloc, pieces)?;
    let addresses = Addresses::new(alloc, placed)?;
    match ForeignImage::read(alloc, View::new(image))? {
        Some(image) => {
            let merged = MergedLines::new(&[]);
            let parts = LinkParts {
                image: &image,
                names,
                outputs: &outputs,
                addresses: &addresses,
                merged: &merged,
                rows,
                got: None,
            };
            Ok(Some(are_tables_right(alloc, &parts, strips, None)?))
        }
        None => Ok(None),
    }
}

fn told<'a>(
    alloc: Global,
    objects: &[Loaded<'a>],
    table: NameTable<'a>,
    image: &'a [u8],
    rows: &[NameLine],
    strips: bool,
) -> Result<Option<bool>, AllocError>
    requires { AreNumbered table objects.now }
{
    let names = Names::new(alloc, objects, table)?;
    let pieces = pieces_of(alloc, objects)?;
    let placed = places(alloc, &pieces, names.blocks())?;
    are_right(alloc, &names, &pieces, &placed, image, rows, strips)
}

/// The two objects.
fn inputs(alloc: Global) -> Result<Vec<InputFile>, Fail> {
    let first = object(alloc, &FIRST_PARTS, &FIRST_NAMES)?;
    let second = object(alloc, &SECOND_PARTS, &SECOND_NAMES)?;
    let mut files = file(alloc, first)?;
    files.push(InputFile {
        name: String::from_str(alloc, "b.o")?,
        bytes: second,
    })?;
    Ok(files)
}

/// Whether the tables of an image of these objects are right.
fn judged_image(alloc: Global, image: &[u8], strips: bool) -> Result<Option<bool>, Fail> {
    let files = inputs(alloc)?;
    let mut words = words(alloc)?;
    words.push(String::from_str(alloc, "b.o")?)?;
    let rows = lines(alloc, &[("_end", 0x20_1100)])?;
    let NamedObjects { objects, names } = loaded(alloc, &words, &files)?;
    Ok(told(alloc, &objects, names, image, &rows, strips)?)
}

/// Whether the table is right with another entry at a number.
fn judged_with(
    alloc: Global,
    at: usize,
    entry: Entry,
    count: u32,
    strips: bool,
) -> Result<Option<bool>, Fail> {
    let mut entries = Vec::from_slice(alloc, &TABLE)?;
    if let Some(place) = entries.get_mut(at) {
        *place = entry;
    }
    let image = tabled(alloc, &SECTIONS, &entries, count)?;
    judged_image(alloc, &image, strips)
}

/// Whether the tables are right with another section header at a number.
fn judged_under(alloc: Global, at: usize, section: SectionHeader) -> Result<Option<bool>, Fail> {
    let mut sections = Vec::from_slice(alloc, &SECTIONS)?;
    if let Some(place) = sections.get_mut(at) {
        *place = section;
    }
    let image = tabled(alloc, &sections, &TABLE, LOCALS)?;
    judged_image(alloc, &image, false)
}

#[test]
fn true_tables_are_right(rt: HostRuntime) -> Result<(), Fail> {
    let image = tabled(rt.alloc(), &SECTIONS, &TABLE, LOCALS)?;
    assert!(rt; judged_image(rt.alloc(), &image, false)? == Some(true));
    Ok(())
}

#[test]
fn images_without_headers_are_right(rt: HostRuntime) -> Result<(), Fail> {
    let image = image_of(rt.alloc(), &HEADER, &[HEADERS, CODE, BLOCK])?;
    assert!(rt; judged_image(rt.alloc(), &image, false)? == Some(true));
    Ok(())
}

#[test]
fn entries_may_say_less(rt: HostRuntime) -> Result<(), Fail> {
    let mut all = true;
    for (at, entry) in &RIGHT {
        all = judged_with(rt.alloc(), *at, *entry, LOCALS, false)? == Some(true) && all;
    }
    assert!(rt; all);
    Ok(())
}

#[test]
fn other_entries_are_wrong(rt: HostRuntime) -> Result<(), Fail> {
    let mut all = true;
    for (at, entry) in &WRONG {
        all = judged_with(rt.alloc(), *at, *entry, LOCALS, true)? == Some(false) && all;
    }
    assert!(rt; all);
    Ok(())
}

#[test]
fn entries_of_other_files_and_sections_are_wrong(rt: HostRuntime) -> Result<(), Fail> {
    let mut all = true;
    for (at, entry) in &OTHERS {
        all = judged_with(rt.alloc(), *at, *entry, LOCALS, true)? == Some(false) && all;
    }
    assert!(rt; all);
    Ok(())
}

/// A table without the name of a definition is wrong, unless the words strip.
#[test]
fn names_are_there_unless_words_strip(rt: HostRuntime) -> Result<(), Fail> {
    let again = Entry("main", 0x12, 1, 0x20_10e8, 0);
    let missing = judged_with(rt.alloc(), 7, again, LOCALS, false)?;
    let stripped = judged_with(rt.alloc(), 7, again, LOCALS, true)?;
    assert!(rt; (missing, stripped) == (Some(false), Some(true)));
    Ok(())
}

/// `sh_info` is the number of the LOCAL entries, which come first.
#[test]
fn local_entries_come_first(rt: HostRuntime) -> Result<(), Fail> {
    let main = Entry("main", 0x12, 1, 0x20_10e8, 0);
    let local = Entry("main", 0x02, 1, 0x20_10e8, 0);
    let fewer = judged_with(rt.alloc(), 6, main, 5, false)?;
    let more = judged_with(rt.alloc(), 6, main, 7, false)?;
    let late = judged_with(rt.alloc(), 7, local, LOCALS, true)?;
    let one_more = judged_with(rt.alloc(), 6, local, 7, false)?;
    assert!(rt; (fewer, more) == (Some(false), Some(false)));
    assert!(rt; (late, one_more) == (Some(false), Some(true)));
    Ok(())
}

#[test]
fn pieces_lie_in_sections(rt: HostRuntime) -> Result<(), Fail> {
    let mut all = true;
    for (at, section) in &COVERED {
        all = judged_under(rt.alloc(), *at, *section)? == Some(true) && all;
    }
    assert!(rt; all);
    Ok(())
}

#[test]
fn pieces_beside_sections_are_wrong(rt: HostRuntime) -> Result<(), Fail> {
    let mut all = true;
    for (at, section) in &UNCOVERED {
        all = judged_under(rt.alloc(), *at, *section)? == Some(false) && all;
    }
    assert!(rt; all);
    Ok(())
}
