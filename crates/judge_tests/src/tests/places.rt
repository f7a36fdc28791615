//! Where two functions and two zeroed sections are in an image, and where they can't be (System V gABI 5, "Program Loading").
use crate::tests::images::{BLOCK, CODE, HEADER, HEADERS, image_of};
use byteview::View;
use check_link::{Piece, Placed};
use elf_model::{
    PlaceLine, ProgramHeader, SHF_ALLOC, SHF_EXECINSTR, SHF_WRITE, SHT_NOBITS, SHT_PROGBITS,
    SectionHeader, Thing,
};
use foreign_image::ForeignImage;
use judge_model::StretchLine;
use place_judge::{
    Start, are_aligned, are_apart, are_in_memory, are_lines_of, are_starts_right, begins_at,
    do_sections_ask_for_both, is_some_both, things_of,
};
use std::alloc::{AllocError, Global};
use std::test::Fail;
use thread_judge::are_low;

const TEXT: SectionHeader = SectionHeader {
    sh_name: 0,
    sh_type: SHT_PROGBITS,
    sh_flags: SHF_ALLOC + SHF_EXECINSTR,
    sh_addr: 0,
    sh_offset: 0,
    sh_size: 8,
    sh_link: 0,
    sh_info: 0,
    sh_addralign: 8,
    sh_entsize: 0,
};

const ZEROS: SectionHeader = SectionHeader {
    sh_type: SHT_NOBITS,
    sh_flags: SHF_ALLOC + SHF_WRITE,
    ..TEXT
};

/// The sections of two objects: a function and eight zeros each.
const PIECES: [Piece<'static>; 4] = [
    Piece {
        object: 0,
        section: 1,
        header: TEXT,
        name: b".text",
        bytes: &[],
    },
    Piece {
        object: 0,
        section: 2,
        header: ZEROS,
        name: b".bss",
        bytes: &[],
    },
    Piece {
        object: 1,
        section: 1,
        header: TEXT,
        name: b".text",
        bytes: &[],
    },
    Piece {
        object: 1,
        section: 2,
        header: ZEROS,
        name: b".bss",
        bytes: &[],
    },
];

/// The addresses of the four sections; whether they are aligned, whether they are in memory of `CODE` with their rights, and
/// whether `.text` begins at 0x2010e8.
struct Row {
    at: [u64; 4],
    flags: u32,
    aligned: bool,
    inside: bool,
    begins: bool,
}

const RIGHT: Row = Row {
    at: [0x20_10e8, 0x20_10f8, 0x20_10f0, 0x20_1100],
    flags: 7,
    aligned: true,
    inside: true,
    begins: true,
};

/// Another order; no multiple of 8; behind the segment's end, and before its beginning; a segment that can't be executed, and one
/// that can't be written.
static ROWS: [Row; 7] = [
    RIGHT,
    Row {
        at: [0x20_10f0, 0x20_1100, 0x20_10e8, 0x20_10f8],
        ..RIGHT
    },
    Row {
        at: [0x20_10e8, 0x20_10f4, 0x20_10f0, 0x20_1100],
        aligned: false,
        ..RIGHT
    },
    Row {
        at: [0x20_10e8, 0x20_10f8, 0x20_10f0, 0x20_1108],
        inside: false,
        ..RIGHT
    },
    Row {
        at: [0x20_10e0, 0x20_10f8, 0x20_10f0, 0x20_1100],
        inside: false,
        begins: false,
        ..RIGHT
    },
    Row {
        flags: 6,
        inside: false,
        ..RIGHT
    },
    Row {
        flags: 5,
        inside: false,
        ..RIGHT
    },
];

fn placed_at(at: &[u64; 4]) -> [Placed<'static>; 4] {
    let [first, second, third, last] = PIECES;
    [
        Placed {
            at: at[0],
            piece: first,
        },
        Placed {
            at: at[1],
            piece: second,
        },
        Placed {
            at: at[2],
            piece: third,
        },
        Placed {
            at: at[3],
            piece: last,
        },
    ]
}

/// Whether `.text` begins at 0x2010e8; None of addresses that no program has.
fn begins(alloc: Global, placed: &[Placed<'_>]) -> Result<Option<bool>, AllocError> {
    if !are_low(placed) {
        return Ok(None);
    }
    let start = Start {
        name: b".text",
        address: 0x20_10e8,
    };
    Ok(Some(are_starts_right(alloc, placed, &[start])?))
}

/// Whether a row is judged as it should be.
fn is_row(alloc: Global, row: &Row) -> Result<bool, AllocError> {
    let placed = placed_at(&row.at);
    let segment = ProgramHeader {
        p_flags: row.flags,
        ..CODE
    };
    let told = (
        are_aligned(&placed),
        are_in_memory(&[HEADERS, segment], &placed),
    );
    if told != (row.aligned, row.inside) {
        return Ok(false);
    }
    Ok(begins(alloc, &placed)? == Some(row.begins))
}

/// Whether an empty section is in its place at an address, where memory is from 0x200000 to 0x201108. GNU ld and LLD put empty
/// sections at the next page.
fn is_empty_at(at: u64) -> bool {
    let mut piece = PIECES[0];
    piece.header.sh_size = 0;
    are_in_memory(&[HEADERS, CODE], &[Placed { at, piece }])
}

#[test]
fn empty_sections_may_be_beside_segments(rt: HostRuntime) -> Result<(), Fail> {
    let told = (
        is_empty_at(0x20_2108),
        is_empty_at(0x20_0800),
        is_empty_at(0x60_1108),
        is_empty_at(0x60_1110),
        is_empty_at(0x1f_fff8),
    );
    assert!(rt; told == (true, true, true, false, false));
    Ok(())
}

#[test]
fn sections_are_judged_by_where_they_are(rt: HostRuntime) -> Result<(), Fail> {
    let mut all = true;
    for row in &ROWS {
        all = is_row(rt.alloc(), row)? && all;
    }
    assert!(rt; all);
    Ok(())
}

/// What takes up memory at an address.
fn thing_at(at: u64, size: u64, align: u64, rights: u64, in_file: bool) -> Thing {
    Thing {
        at,
        size,
        align,
        rights,
        in_file,
    }
}

/// Whether two things of 8 bytes at these addresses, and an empty one in the first, are apart.
fn apart(alloc: Global, first: u64, second: u64) -> Result<bool, AllocError> {
    let things = [
        thing_at(second, 8, 8, 4, true),
        thing_at(first, 8, 8, 4, true),
        thing_at(first, 0, 1, 4, true),
    ];
    are_apart(alloc, &things)
}

#[test]
fn things_that_touch_are_apart(rt: HostRuntime) -> Result<(), Fail> {
    let told = (
        apart(rt.alloc(), 0x20_10e8, 0x20_10f0)?,
        apart(rt.alloc(), 0x20_10e8, 0x20_10ef)?,
        apart(rt.alloc(), 0x20_10e8, 0x20_10e8)?,
        apart(rt.alloc(), u64::MAX - 8, 0)?,
    );
    assert!(rt; told == (true, false, false, true));
    Ok(())
}

fn facts_of(thing: &Thing) -> (u64, u64, u64, u64, bool) {
    (
        thing.at,
        thing.size,
        thing.align,
        thing.rights,
        thing.in_file,
    )
}

fn are_same(things: &[Thing], wanted: &[Thing]) -> bool {
    if things.len() != wanted.len() {
        return false;
    }
    things
        .iter()
        .zip(wanted)
        .all(|(thing, other)| facts_of(thing) == facts_of(other))
}

/// The headers of the image, a note, and the four sections.
fn are_things(image: &ForeignImage<'_>, things: &[Thing]) -> bool {
    let wanted = [
        thing_at(0x20_0000, 64, 1, 4, true),
        thing_at(0x20_0040, 168, 1, 4, true),
        thing_at(0x20_00c8, 32, 4, 4, true),
        thing_at(0x20_10e8, 8, 8, 5, true),
        thing_at(0x20_10f8, 8, 8, 6, false),
        thing_at(0x20_10f0, 8, 8, 5, true),
        thing_at(0x20_1100, 8, 8, 6, false),
    ];
    image.segments().len() == 2 && are_same(things, &wanted)
}

#[test]
fn headers_notes_and_sections_take_up_memory(rt: HostRuntime) -> Result<(), Fail> {
    let bytes = image_of(rt.alloc(), &HEADER, &[HEADERS, CODE, BLOCK])?;
    let note = StretchLine {
        address: 0x20_00c8,
        size: 32,
    };
    let told = match ForeignImage::read(rt.alloc(), View::new(&bytes))? {
        Some(image) => {
            let things = things_of(rt.alloc(), &image, &[note], &placed_at(&RIGHT.at))?;
            are_things(&image, &things)
        }
        None => false,
    };
    assert!(rt; told);
    Ok(())
}

/// The line of a section.
fn line_of(
    alloc: Global,
    object: u64,
    section: u64,
    size: u64,
    name: &[u8],
) -> Result<PlaceLine, AllocError> {
    Ok(PlaceLine {
        address: 0x20_10e8,
        size,
        object,
        section,
        name: Vec::from_slice(alloc, name)?,
    })
}

/// Whether two lines are those of the first two sections: the second one tells this of its section.
fn are_lines(alloc: Global, section: u64, size: u64, name: &[u8]) -> Result<bool, AllocError> {
    let first = line_of(alloc, 0, 1, 8, b".text")?;
    let second = line_of(alloc, 0, section, size, name)?;
    let [one, other, _, _] = PIECES;
    Ok(are_lines_of(&[first, second], &[one, other]))
}

#[test]
fn lines_tell_numbers_sizes_and_names(rt: HostRuntime) -> Result<(), Fail> {
    let told = (
        are_lines(rt.alloc(), 2, 8, b".bss")?,
        are_lines(rt.alloc(), 3, 8, b".bss")?,
        are_lines(rt.alloc(), 2, 9, b".bss")?,
        are_lines(rt.alloc(), 2, 8, b".bss.f")?,
    );
    assert!(rt; told == (true, false, false, false));
    Ok(())
}

#[test]
fn segments_that_are_written_and_executed_are_told(rt: HostRuntime) -> Result<(), Fail> {
    let readable = ProgramHeader { p_flags: 5, ..CODE };
    let mut both = PIECES;
    both[1].header.sh_flags = SHF_ALLOC + SHF_WRITE + SHF_EXECINSTR;
    let told = (
        is_some_both(&[HEADERS, CODE]),
        is_some_both(&[HEADERS, readable]),
        do_sections_ask_for_both(&both),
        do_sections_ask_for_both(&PIECES),
    );
    assert!(rt; told == (true, false, true, false));
    Ok(())
}

#[test]
fn first_segments_begin_where_words_say(rt: HostRuntime) -> Result<(), Fail> {
    let told = (
        begins_at(&[HEADERS, CODE], Some(0x20_0000)),
        begins_at(&[HEADERS, CODE], Some(0x20_10e8)),
        begins_at(&[HEADERS, CODE], None),
    );
    assert!(rt; told == (true, false, true));
    Ok(())
}
