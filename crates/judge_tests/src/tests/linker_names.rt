//! Values of the names that a linker defines, and such as they can't have (ld(1), the default scripts of GNU ld).
ghost use Rattle.check_load.specs.Numbered.{AreNumbered};
ghost use Rattle.check_link.specs.PieceParts.{AreInLimit};
ghost use Rattle.check_link.specs.Views.{placed_views};
ghost use Rattle.std.specs.Prelude.{IfOk};

use crate::tests::images::{BLOCK, CODE, HEADER, HEADERS, image_of};
use crate::tests::sample_objects::{Named, Part, file, loaded, object, words};
use byteview::View;
use check_link::{Names, Outputs, Piece, Placed, pieces_of, thing_of_placed};
use check_load::{Loaded, NameTable, NamedObjects};
use elf_model::{
    FileHeader, ProgramHeader, SHF_ALLOC, SHF_EXECINSTR, SHF_WRITE, SHT_NOBITS, SHT_PROGBITS, Thing,
};
use foreign_image::ForeignImage;
use judge_model::{NameLine, StretchLine};
use link_fields::{Addresses, LinkParts, MergedLines};
use name_judge::{are_names_right, are_names_unmixed, do_bounds_spare_slots};
use std::alloc::{AllocError, Global};
use std::test::Fail;
use thread_judge::are_low;

/// The segments of an image; the sections of an object, and their addresses in it.
pub struct Layout {
    pub segments: &'static [ProgramHeader],
    pub parts: &'static [Part],
    pub places: &'static [u64],
}

/// Code from 0x2010e8 on, data behind it, then the section `set` behind a gap of four bytes, zeros behind one of eight.
static OWN: Layout = Layout {
    segments: &[HEADERS, CODE, BLOCK],
    parts: &[
        Part(".text", SHT_PROGBITS, SHF_ALLOC + SHF_EXECINSTR, 1, 4),
        Part(".data", SHT_PROGBITS, SHF_ALLOC + SHF_WRITE, 1, 4),
        Part("set", SHT_PROGBITS, SHF_ALLOC, 1, 4),
        Part(".bss", SHT_NOBITS, SHF_ALLOC + SHF_WRITE, 1, 4),
    ],
    places: &[0x20_10e8, 0x20_10ec, 0x20_10f4, 0x20_1100],
};

const GOT: Option<u64> = Some(0x20_10f8);

/// Ends are exact, or up to what comes next; a start is exact, or down to what comes before; `_end` is at most two pages of 2 MiB
/// behind memory, which ends at 0x201108; arrays that are not there are at 0, or from the first segment's beginning to as far
/// behind the last one as `_end` may be; an object defines `edata`, and no linker defines `__start_none`.
static RIGHT: [(&str, u64); 20] = [
    ("__executable_start", 0x20_0000),
    ("__ehdr_start", 0x20_0000),
    ("_etext", 0x20_10ec),
    ("_edata", 0x20_10f0),
    ("_edata", 0x20_10f4),
    ("__bss_start", 0x20_1100),
    ("__bss_start", 0x20_10f8),
    ("_end", 0x20_1104),
    ("_end", 0x60_1108),
    ("end", 0x20_1104),
    ("_GLOBAL_OFFSET_TABLE_", 0x20_10f8),
    ("__start_set", 0x20_10f4),
    ("__stop_set", 0x20_10f8),
    ("__init_array_start", 0),
    ("__fini_array_end", 0x20_1108),
    ("__preinit_array_end", 0x20_0000),
    ("__init_array_start", 0x20_0fff),
    ("__init_array_end", 0x60_1108),
    ("edata", 1),
    ("__start_none", 1),
];

static WRONG: [(&str, u64); 18] = [
    ("__executable_start", 0x20_10e8),
    ("__ehdr_start", 0),
    ("_etext", 0x20_10ed),
    ("etext", 0x20_10eb),
    ("etext", 0x20_1108),
    ("_edata", 0x20_10ef),
    ("_edata", 0x20_10f5),
    ("__bss_start", 0x20_1101),
    ("__bss_start", 0x20_10f7),
    ("_end", 0x20_1103),
    ("_end", 0x60_1109),
    ("_GLOBAL_OFFSET_TABLE_", 0x20_10f0),
    ("__start_set", 0x20_10f5),
    ("__stop_set", 0x20_10f7),
    ("__start_set", 0),
    ("__init_array_start", 0x1f_ffff),
    ("__fini_array_end", 0x60_1109),
    ("__preinit_array_end", 1),
];

fn places<'a>(
    alloc: Global,
    places: &[u64],
    pieces: &[Piece<'a>],
) -> Result<Vec<Placed<'a>>, AllocError> {
    let mut placed = Vec::new(alloc);
    for (at, piece) in places.iter().zip(pieces) {
        placed.push(Placed {
            at: *at,
            piece: *piece,
        })?;
    }
    Ok(placed)
}

/// What takes up memory: the headers, from the first segment's beginning on, and the sections.
fn things(alloc: Global, first: u64, placed: &[Placed<'_>]) -> Result<Vec<Thing>, AllocError> {
    let mut things = Vec::new(alloc);
    things.push(Thing {
        at: first,
        size: 232,
        align: 1,
        rights: 4,
        in_file: true,
    })?;
    for q in placed {
        things.push(thing_of_placed(q))?;
    }
    Ok(things)
}

/// Whether lines of names are right, with notes of the linker's and slots; None where the image isn't read.
fn are_right<'a>(
    alloc: Global,
    names: &Names<'_, 'a>,
    pieces: &[Piece<'a>],
    placed: &[Placed<'a>],
    image: &'a [u8],
    rows: &[NameLine],
    notes: &[StretchLine],
    slots: &[u64],
) -> Result<Option<bool>, AllocError> {
    if !are_low(placed) {
        return Ok(None);
    }
    let outputs = Outputs::new(alloc, pieces)?;
    let addresses = Addresses::new(alloc, placed)?;
    match ForeignImage::read(alloc, View::new(image))? {
        Some(image) => {
            let first = image.segments().first().map_or(0, |h| h.p_vaddr);
            let things = things(alloc, first, placed)?;
            let merged = MergedLines::new(&[]);
            let parts = LinkParts {
                image: &image,
                names,
                outputs: &outputs,
                addresses: &addresses,
                merged: &merged,
                rows,
                got: GOT,
            };
            let spared = do_bounds_spare_slots(&parts, slots);
            Ok(Some(are_names_right(alloc, &parts, &things, notes)? && spared))
        }
        None => Ok(None),
    }
}

fn told<'a>(
    alloc: Global,
    objects: &[Loaded<'a>],
    table: NameTable<'a>,
    layout: &Layout,
    image: &'a [u8],
    rows: &[NameLine],
    notes: &[StretchLine],
    slots: &[u64],
) -> Result<Option<bool>, AllocError>
    requires { AreNumbered table objects.now }
{
    let names = Names::new(alloc, objects, table)?;
    let pieces = pieces_of(alloc, objects)?;
    let placed = places(alloc, layout.places, &pieces)?;
    are_right(alloc, &names, &pieces, &placed, image, rows, notes, slots)
}

/// Whether lines of names are right in a layout, with notes of the linker's and slots; None where the image isn't read.
fn judged_by(
    alloc: Global,
    layout: &Layout,
    rows: &[NameLine],
    notes: &[StretchLine],
    slots: &[u64],
) -> Result<Option<bool>, Fail> {
    let header = FileHeader {
        e_phnum: u16::try_from(layout.segments.len())?,
        ..HEADER
    };
    let mut image = image_of(alloc, &header, layout.segments)?;
    image.resize(0x3000, 0)?;
    let bytes = object(alloc, layout.parts, &[Named("edata", 0x10, 2, 0)])?;
    let files = file(alloc, bytes)?;
    let words = words(alloc)?;
    let NamedObjects { objects, names } = loaded(alloc, &words, &files)?;
    Ok(told(alloc, &objects, names, layout, &image, rows, notes, slots)?)
}

/// The same without slots.
pub fn judged_in(
    alloc: Global,
    layout: &Layout,
    rows: &[NameLine],
    notes: &[StretchLine],
) -> Result<Option<bool>, Fail> {
    judged_by(alloc, layout, rows, notes, &[])
}

fn judged(alloc: Global, rows: &[NameLine], notes: &[StretchLine]) -> Result<Option<bool>, Fail> {
    judged_in(alloc, &OWN, rows, notes)
}

/// Lines of names.
pub fn lines(alloc: Global, rows: &[(&str, u64)]) -> Result<Vec<NameLine>, AllocError> {
    let mut lines = Vec::new(alloc);
    for (name, value) in rows {
        lines.push(NameLine {
            value: *value,
            name: Vec::from_slice(alloc, name.as_bytes())?,
        })?;
    }
    Ok(lines)
}

#[test]
fn values_within_bounds_are_right(rt: HostRuntime) -> Result<(), Fail> {
    let mut all = true;
    for row in &RIGHT {
        let rows = lines(rt.alloc(), &[*row])?;
        all = judged(rt.alloc(), &rows, &[])? == Some(true) && all;
    }
    assert!(rt; all);
    Ok(())
}

#[test]
fn values_out_of_bounds_are_not(rt: HostRuntime) -> Result<(), Fail> {
    let mut all = true;
    for row in &WRONG {
        let rows = lines(rt.alloc(), &[*row])?;
        all = judged(rt.alloc(), &rows, &[])? == Some(false) && all;
    }
    assert!(rt; all);
    Ok(())
}

/// An array that isn't there begins where it ends.
#[test]
fn arrays_that_are_not_there_are_empty(rt: HostRuntime) -> Result<(), Fail> {
    let empty = lines(
        rt.alloc(),
        &[
            ("__fini_array_end", 0x20_1100),
            ("__fini_array_start", 0x20_1100),
        ],
    )?;
    let filled = lines(
        rt.alloc(),
        &[
            ("__fini_array_end", 0x20_1108),
            ("__fini_array_start", 0x20_1100),
        ],
    )?;
    let right = judged(rt.alloc(), &empty, &[])?;
    let wrong = judged(rt.alloc(), &filled, &[])?;
    assert!(rt; (right, wrong) == (Some(true), Some(false)));
    Ok(())
}

/// The linker's notes come before `_end` too.
#[test]
fn the_end_is_behind_notes(rt: HostRuntime) -> Result<(), Fail> {
    let rows = lines(rt.alloc(), &[("_end", 0x20_1107)])?;
    let before = judged(
        rt.alloc(),
        &rows,
        &[StretchLine {
            address: 0x20_1104,
            size: 3,
        }],
    )?;
    let behind = judged(
        rt.alloc(),
        &rows,
        &[StretchLine {
            address: 0x20_1104,
            size: 4,
        }],
    )?;
    assert!(rt; (before, behind) == (Some(true), Some(false)));
    Ok(())
}

/// Slots come before `_end` too, and each has eight bytes; other names don't ask for them.
#[test]
fn the_end_is_behind_slots(rt: HostRuntime) -> Result<(), Fail> {
    let end = lines(rt.alloc(), &[("_end", 0x20_1107)])?;
    let data = lines(rt.alloc(), &[("_edata", 0x20_10f0)])?;
    let before = judged_by(rt.alloc(), &OWN, &end, &[], &[0x20_10f8, 0x20_10ff])?;
    let behind = judged_by(rt.alloc(), &OWN, &end, &[], &[0x20_1100, 0x20_10f8])?;
    let other = judged_by(rt.alloc(), &OWN, &data, &[], &[0x20_1100])?;
    assert!(rt; (before, behind, other) == (Some(true), Some(false), Some(true)));
    Ok(())
}

/// A program that clears from `__bss_start` on keeps what its slots hold: they end there, or are among the zeros.
#[test]
fn zeros_begin_behind_slots(rt: HostRuntime) -> Result<(), Fail> {
    let ahead = lines(rt.alloc(), &[("__bss_start", 0x20_10f8)])?;
    let exact = lines(rt.alloc(), &[("__bss_start", 0x20_1100)])?;
    let cleared = judged_by(rt.alloc(), &OWN, &ahead, &[], &[0x20_10f8])?;
    let kept = judged_by(rt.alloc(), &OWN, &exact, &[], &[0x20_10f8])?;
    let among = judged_by(rt.alloc(), &OWN, &ahead, &[], &[0x20_1100])?;
    assert!(rt; (cleared, kept, among) == (Some(false), Some(true), Some(true)));
    Ok(())
}

/// Whether lines of names speak of one run each, in an object that has these sections.
fn are_unmixed(alloc: Global, parts: &'static [Part], rows: &[NameLine]) -> Result<bool, Fail> {
    let bytes = object(alloc, parts, &[Named("__start_own", 0x10, 1, 0)])?;
    let files = file(alloc, bytes)?;
    let words = words(alloc)?;
    let NamedObjects { objects, names } = loaded(alloc, &words, &files)?;
    Ok(unmixed(alloc, &objects, names, rows)?)
}

fn unmixed<'a>(
    alloc: Global,
    objects: &[Loaded<'a>],
    table: NameTable<'a>,
    rows: &[NameLine],
) -> Result<bool, AllocError>
    requires { AreNumbered table objects.now }
{
    let names = Names::new(alloc, objects, table)?;
    let pieces = pieces_of(alloc, objects)?;
    let outputs = Outputs::new(alloc, &pieces)?;
    Ok(are_names_unmixed(&names, &outputs, rows))
}

/// Sections of one name that differ in their flags, as mold puts them apart.
static MIXED: [Part; 5] = [
    Part("set", SHT_PROGBITS, SHF_ALLOC, 8, 8),
    Part("set", SHT_PROGBITS, SHF_ALLOC + SHF_WRITE, 8, 8),
    Part("own", SHT_PROGBITS, SHF_ALLOC, 8, 8),
    Part("own", SHT_PROGBITS, SHF_ALLOC + SHF_WRITE, 8, 8),
    Part("one", SHT_PROGBITS, SHF_ALLOC, 8, 8),
];

/// Each name, and whether it speaks of one run: those that objects define, and those of ends, are no names of runs.
static RUNS: [(&str, bool); 6] = [
    ("__start_set", false),
    ("__stop_set", false),
    ("__stop_own", false),
    ("__start_own", true),
    ("__start_one", true),
    ("_end", true),
];

#[test]
fn names_speak_of_one_run(rt: HostRuntime) -> Result<(), Fail> {
    let mut all = true;
    for row in &RUNS {
        let rows = lines(rt.alloc(), &[(row.0, 0)])?;
        all = are_unmixed(rt.alloc(), &MIXED, &rows)? == row.1 && all;
    }
    assert!(rt; all);
    Ok(())
}
