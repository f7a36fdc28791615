//! Notes that a linker itself made: build ids and property notes (System V gABI 5, "Note Section"; the Linux gABI extensions for
//! `.note.gnu.property`: NT_GNU_PROPERTY_TYPE_0 is 5, GNU_PROPERTY_X86_FEATURE_1_AND 0xc0000002, IBT bit 0, SHSTK bit 1).
use crate::tests::images::{CODE, HEADER, HEADERS, image_with};
use crate::tests::sample_objects::{Part, file, loaded, object, words};
use byteview::View;
use check_load::Loaded;
use elf_model::{ProgramHeader, SHF_ALLOC, SHT_NOTE, SHT_PROGBITS};
use foreign_image::ForeignImage;
use judge_model::StretchLine;
use note_judge::are_notes_right;
use std::alloc::Global;
use std::test::Fail;

/// A segment of 48 bytes behind the headers, and the header that says that notes are in it.
const SEGMENT: ProgramHeader = ProgramHeader {
    p_flags: 4,
    p_filesz: 48,
    p_memsz: 48,
    ..CODE
};

const NOTES: ProgramHeader = ProgramHeader {
    p_type: 4,
    p_align: 4,
    ..SEGMENT
};

/// What a build id of 20 bytes begins with, and what a property note does.
const BUILD: [u8; 16] = [4, 0, 0, 0, 20, 0, 0, 0, 3, 0, 0, 0, b'G', b'N', b'U', 0];

const PROPERTY: [u8; 16] = [4, 0, 0, 0, 16, 0, 0, 0, 5, 0, 0, 0, b'G', b'N', b'U', 0];

/// What stands behind it: the bits of IBT and SHSTK, and the zeros up to a multiple of 8; sixteen bytes more.
const BOTH: [u8; 32] = [
    2, 0, 0, 0xc0, 4, 0, 0, 0, 3, 0, 0, 0, 0, 0, 0, 0, 1, 1, 1, 1, 1, 1, 1, 1, 1, 1, 1, 1, 1, 1, 1,
    1,
];

/// The first sixteen bytes of the segment and those behind them, the lines of notes, the header of notes, and the features for
/// which the words ask.
#[derive(Clone, Copy)]
struct Row {
    front: [u8; 16],
    rest: [u8; 32],
    notes: &'static [StretchLine],
    header: ProgramHeader,
    features: u64,
}

/// The line of a note of 36 bytes at the segment's beginning.
const LINE: StretchLine = StretchLine {
    address: 0x20_10e8,
    size: 36,
};

const SHORT_LINE: StretchLine = StretchLine { size: 32, ..LINE };

const ID: Row = Row {
    front: BUILD,
    rest: BOTH,
    notes: &[LINE],
    header: NOTES,
    features: 0,
};

const BITS: Row = Row {
    front: PROPERTY,
    notes: &[SHORT_LINE],
    ..ID
};

/// A build id, whose bytes may be any; no note; a property note for whose bits the words ask, also under a header of properties.
static RIGHT: [Row; 4] = [
    ID,
    Row { notes: &[], ..ID },
    Row {
        features: 3,
        ..BITS
    },
    Row {
        features: 7,
        header: ProgramHeader {
            p_type: 0x6474_e553,
            ..NOTES
        },
        ..BITS
    },
];

/// A size that isn't the description's; a note behind another's beginning; one that its header doesn't reach; a header of none;
/// another type, another name; bits for which nothing asks, or not all do; three notes.
static WRONG: [Row; 9] = [
    Row {
        notes: &[SHORT_LINE],
        ..ID
    },
    Row {
        notes: &[StretchLine {
            address: 0x20_10ec,
            ..LINE
        }],
        ..ID
    },
    Row {
        header: ProgramHeader {
            p_memsz: 35,
            ..NOTES
        },
        ..ID
    },
    Row {
        header: ProgramHeader {
            p_type: 0x6474_e551,
            ..NOTES
        },
        ..ID
    },
    Row {
        front: [4, 0, 0, 0, 20, 0, 0, 0, 1, 0, 0, 0, b'G', b'N', b'U', 0],
        ..ID
    },
    Row {
        front: [4, 0, 0, 0, 20, 0, 0, 0, 3, 0, 0, 0, b'G', b'N', b'W', 0],
        ..ID
    },
    BITS,
    Row {
        features: 1,
        ..BITS
    },
    Row {
        notes: &[LINE, LINE, LINE],
        ..ID
    },
];

/// Whether the notes of a row are right, with some objects; None where the image isn't read.
fn judged(alloc: Global, objects: &[Loaded<'_>], row: &Row) -> Result<Option<bool>, Fail> {
    let mut bytes = image_with(alloc, &HEADER, &[HEADERS, SEGMENT, row.header], &row.front)?;
    bytes.extend_from_slice(&row.rest)?;
    match ForeignImage::read(alloc, View::new(&bytes))? {
        Some(image) => Ok(Some(are_notes_right(&image, objects, row.notes, row.features))),
        None => Ok(None),
    }
}

/// The same with an object whose one section has a name and, where they are given, other bytes.
fn judged_with(
    alloc: Global,
    name: &'static str,
    kind: u32,
    bytes: Option<&[u8; 32]>,
    row: &Row,
) -> Result<Option<bool>, Fail> {
    let mut one = object(alloc, &[Part(name, kind, SHF_ALLOC, 8, 32)], &[])?;
    if let Some(bytes) = bytes {
        for (k, byte) in bytes.iter().enumerate() {
            *one.get_mut(k.wrapping_add(64)).ok_or("a section")? = *byte;
        }
    }
    let files = file(alloc, one)?;
    let words = words(alloc)?;
    let named = loaded(alloc, &words, &files)?;
    judged(alloc, &named.objects, row)
}

#[test]
fn notes_of_linkers_are_right(rt: HostRuntime) -> Result<(), Fail> {
    let mut all = true;
    for row in &RIGHT {
        let told = judged_with(rt.alloc(), ".text", SHT_PROGBITS, None, row)?;
        all = told == Some(true) && all;
    }
    assert!(rt; all);
    Ok(())
}

#[test]
fn other_notes_are_not(rt: HostRuntime) -> Result<(), Fail> {
    let mut all = true;
    for row in &WRONG {
        let told = judged_with(rt.alloc(), ".text", SHT_PROGBITS, None, row)?;
        all = told == Some(false) && all;
    }
    assert!(rt; all);
    Ok(())
}

/// A property note of an object with the bits of IBT and SHSTK, and one with that of IBT alone.
const OF_BOTH: [u8; 32] = [
    4, 0, 0, 0, 16, 0, 0, 0, 5, 0, 0, 0, b'G', b'N', b'U', 0, 2, 0, 0, 0xc0, 4, 0, 0, 0, 3, 0, 0,
    0, 0, 0, 0, 0,
];

const OF_ONE: [u8; 32] = [
    4, 0, 0, 0, 16, 0, 0, 0, 5, 0, 0, 0, b'G', b'N', b'U', 0, 2, 0, 0, 0xc0, 4, 0, 0, 0, 1, 0, 0,
    0, 0, 0, 0, 0,
];

/// An object bears features by its property note: by a section of that name and type.
#[test]
fn objects_bear_features(rt: HostRuntime) -> Result<(), Fail> {
    let alloc = rt.alloc();
    let name = ".note.gnu.property";
    let both = judged_with(alloc, name, SHT_NOTE, Some(&OF_BOTH), &BITS)?;
    let one = judged_with(alloc, name, SHT_NOTE, Some(&OF_ONE), &BITS)?;
    let other = judged_with(alloc, ".note.gnu", SHT_NOTE, Some(&OF_BOTH), &BITS)?;
    let bytes = judged_with(alloc, name, SHT_PROGBITS, Some(&OF_BOTH), &BITS)?;
    assert!(rt; (both, one) == (Some(true), Some(false)));
    assert!(rt; (other, bytes) == (Some(false), Some(false)));
    Ok(())
}
