//! Entries that objects define, and such that they don't: e_entry of `HEADER` is 0x201010.
ghost use Rattle.check_load.specs.Numbered.{AreNumbered};

use crate::tests::images::{BLOCK, CODE, HEADER, HEADERS, image_of};
use crate::tests::sample_objects::{Named, Part, file, loaded, object, words};
use byteview::View;
use check_link::{Names, Outputs, Piece, Placed, pieces_of};
use check_load::{Loaded, NameTable, NamedObjects};
use elf_model::{SHF_ALLOC, SHF_EXECINSTR, SHF_TLS, SHF_WRITE, SHT_PROGBITS};
use entry_judge::is_entry_right;
use foreign_image::ForeignImage;
use link_fields::{Addresses, LinkParts, MergedLines};
use std::alloc::{AllocError, Global};
use std::test::Fail;

/// Thread-local data at 0x200fc0, code at 0x201000, data at 0x201040.
const PARTS: [Part; 3] = [
    Part(
        ".tdata",
        SHT_PROGBITS,
        SHF_ALLOC + SHF_WRITE + SHF_TLS,
        1,
        8,
    ),
    Part(".text", SHT_PROGBITS, SHF_ALLOC + SHF_EXECINSTR, 1, 32),
    Part(".data", SHT_PROGBITS, SHF_ALLOC + SHF_WRITE, 1, 8),
];

/// A function, a WEAK one, one without a type, an absolute address.
static RIGHT: [Named; 4] = [
    Named("_start", 0x12, 2, 16),
    Named("_start", 0x22, 2, 16),
    Named("_start", 0x10, 2, 16),
    Named("_start", 0x10, 0xfff1, 0x20_1010),
];

/// Another place, another absolute address, another name, a LOCAL one, one that is undefined, one whose value is the entry modulo
/// 2^64, one in thread-local storage.
static WRONG: [Named; 7] = [
    Named("_start", 0x12, 2, 17),
    Named("_start", 0x10, 0xfff1, 0x20_1011),
    Named("start", 0x12, 2, 16),
    Named("_start", 0x02, 2, 16),
    Named("_start", 0x10, 0, 16),
    Named("_start", 0x10, 3, 0xffff_ffff_ffff_ffd0),
    Named("_start", 0x16, 1, 0x50),
];

/// The sections of the object, 64 bytes apart.
fn places<'a>(alloc: Global, pieces: &[Piece<'a>]) -> Result<Vec<Placed<'a>>, AllocError> {
    let mut placed = Vec::new(alloc);
    let mut at = 0x20_0fc0u64;
    for piece in pieces {
        placed.push(Placed { at, piece: *piece })?;
        at = at.wrapping_add(64);
    }
    Ok(placed)
}

/// Whether the program is entered at `_start`; None where the image isn't read.
fn enters<'a>(
    alloc: Global,
    names: &Names<'_, 'a>,
    pieces: &[Piece<'a>],
    placed: &[Placed<'a>],
    image: &'a [u8],
) -> Result<Option<bool>, AllocError> {
    let outputs = Outputs::new(alloc, pieces)?;
    let addresses = Addresses::new(alloc, placed)?;
    match ForeignImage::read(alloc, View::new(image))? {
        Some(image) => {
            let merged = MergedLines::new(&[]);
            let parts = LinkParts {
                image: &image,
                names,
                outputs: &outputs,
                addresses: &addresses,
                merged: &merged,
                rows: &[],
                got: None,
            };
            Ok(Some(is_entry_right(&parts, b"_start")))
        }
        None => Ok(None),
    }
}

fn told<'a>(
    alloc: Global,
    objects: &[Loaded<'a>],
    table: NameTable<'a>,
    image: &'a [u8],
) -> Result<Option<bool>, AllocError>
    requires { AreNumbered table objects.now }
{
    let names = Names::new(alloc, objects, table)?;
    let pieces = pieces_of(alloc, objects)?;
    let placed = places(alloc, &pieces)?;
    enters(alloc, &names, &pieces, &placed, image)
}

/// Whether a program of one object with a symbol is entered at `_start`.
fn judged(alloc: Global, symbol: Named) -> Result<Option<bool>, Fail> {
    let image = image_of(alloc, &HEADER, &[HEADERS, CODE, BLOCK])?;
    let bytes = object(alloc, &PARTS, &[symbol])?;
    let files = file(alloc, bytes)?;
    let words = words(alloc)?;
    let NamedObjects { objects, names } = loaded(alloc, &words, &files)?;
    Ok(told(alloc, &objects, names, &image)?)
}

#[test]
fn definitions_are_entries(rt: HostRuntime) -> Result<(), Fail> {
    let mut all = true;
    for symbol in &RIGHT {
        all = judged(rt.alloc(), *symbol)? == Some(true) && all;
    }
    assert!(rt; all);
    Ok(())
}

#[test]
fn other_symbols_are_none(rt: HostRuntime) -> Result<(), Fail> {
    let mut all = true;
    for symbol in &WRONG {
        all = judged(rt.alloc(), *symbol)? == Some(false) && all;
    }
    assert!(rt; all);
    Ok(())
}
