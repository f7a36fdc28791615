//! Links of an object whose code loads an address from a slot, with that code rewritten and as it was.
ghost use Rattle.check_load.specs.Numbered.{AreNumbered};

use crate::tests::images::{BLOCK, CODE, HEADER, HEADERS, image_with};
use crate::tests::sample_objects::{Named, Part, file, loaded, object, put, put_relocation, words};
use byteview::View;
use check_link::{Names, Outputs, Piece, Placed, pieces_of};
use check_load::{Loaded, NameTable, NamedObjects};
use elf_model::{
    DropLine, R_X86_64_REX_GOTPCRELX, SHF_ALLOC, SHF_EXECINSTR, SHT_PROGBITS, SHT_RELA, Thing,
};
use foreign_image::ForeignImage;
use link_fields::{Addresses, Drops, LinkParts, MergedLines, wrong_field};
use memory_judge::Taken;
use std::alloc::{AllocError, Global};
use std::test::Fail;

/// A link: the flags of the section, the first three bytes of its code, the addend of the relocation whose field follows these, and
/// the image's bytes there. The symbol is at the ninth byte of the code, which is at 0x2010e8.
#[derive(Clone, Copy)]
struct Link {
    flags: u64,
    code: u64,
    addend: i64,
    image: [u8; 16],
}

const LEA: Link = Link {
    flags: SHF_ALLOC + SHF_EXECINSTR,
    code: 0x05_8b48,
    addend: -4,
    image: [0x48, 0x8d, 5, 1, 0, 0, 0, 0, 0, 0, 0, 0, 0, 0, 0, 0],
};

const SLOT: Link = Link {
    image: [
        0x48, 0x8b, 5, 1, 0, 0, 0, 0, 0xf0, 0x10, 0x20, 0, 0, 0, 0, 0,
    ],
    ..LEA
};

/// lea, mov of the address, and the load as it was, with its slot behind the code.
static RIGHT: [Link; 3] = [
    LEA,
    Link {
        image: [
            0x48, 0xc7, 0xc0, 0xf0, 0x10, 0x20, 0, 0, 0, 0, 0, 0, 0, 0, 0, 0,
        ],
        ..LEA
    },
    SLOT,
];

/// Another instruction in the input; no code; an addend that tells no instruction; another address; a slot, but another load.
static WRONG: [Link; 5] = [
    Link {
        code: 0x05_8948,
        ..LEA
    },
    Link {
        flags: SHF_ALLOC,
        ..LEA
    },
    Link { addend: -5, ..LEA },
    Link {
        image: [0x48, 0x8d, 5, 2, 0, 0, 0, 0, 0, 0, 0, 0, 0, 0, 0, 0],
        ..LEA
    },
    Link {
        code: 0x05_8b4c,
        ..SLOT
    },
];

/// The object of a link. Its section headers are its last bytes: those of no section, the code, its relocations, the symbol table, its
/// names and the names of sections.
fn object_of(alloc: Global, link: &Link) -> Result<Vec<u8>, Fail> {
    let parts = [
        Part(".text", SHT_PROGBITS, link.flags, 1, 8),
        Part(".rela.text", SHT_RELA, 0, 8, 24),
    ];
    let mut bytes = object(alloc, &parts, &[Named("_start", 0x12, 1, 8)])?;
    let header = bytes.len().saturating_sub(4 * 64);
    put(&mut bytes, 64, link.code, 3);
    put_relocation(&mut bytes, header, 72, (3, R_X86_64_REX_GOTPCRELX as u64));
    put(&mut bytes, header.saturating_add(40), 3, 4);
    put(&mut bytes, 88, link.addend.cast_unsigned(), 8);
    Ok(bytes)
}

/// What memory takes: the eight bytes of the code.
const TAKEN: Thing = Thing {
    at: 0x20_10e8,
    size: 8,
    align: 1,
    rights: 4,
    in_file: true,
};

/// The sections of the object, of which the code is one, at its address.
fn places<'a>(alloc: Global, pieces: &[Piece<'a>]) -> Result<Vec<Placed<'a>>, AllocError> {
    let mut placed = Vec::new(alloc);
    for piece in pieces {
        placed.push(Placed {
            at: 0x20_10e8,
            piece: *piece,
        })?;
    }
    Ok(placed)
}

/// Whether the fields of a link are right; None where the image isn't read.
fn are_right<'a>(
    alloc: Global,
    names: &Names<'_, 'a>,
    pieces: &[Piece<'a>],
    placed: &[Placed<'a>],
    image: &'a [u8],
    drops: &Drops<'_>,
) -> Result<Option<bool>, AllocError> {
    let outputs = Outputs::new(alloc, pieces)?;
    let addresses = Addresses::new(alloc, placed)?;
    let taken = Taken::new(alloc, &[TAKEN])?;
    match ForeignImage::read(alloc, View::new(image))? {
        Some(image) => {
            let merged = MergedLines::new(&[]);
            let parts = LinkParts {
                image: &image,
                names,
                outputs: &outputs,
                addresses: &addresses,
                merged: &merged,
                rows: &[],
                got: None,
            };
            Ok(Some(wrong_field(&parts, &taken, drops).is_none()))
        }
        None => Ok(None),
    }
}

fn told<'a>(
    alloc: Global,
    objects: &[Loaded<'a>],
    table: NameTable<'a>,
    image: &'a [u8],
    drops: &Drops<'_>,
) -> Result<Option<bool>, AllocError>
    requires { AreNumbered table objects.now }
{
    let names = Names::new(alloc, objects, table)?;
    let pieces = pieces_of(alloc, objects)?;
    let placed = places(alloc, &pieces)?;
    are_right(alloc, &names, &pieces, &placed, image, drops)
}

/// Whether the fields of a link are right, given the lines of sections that are left out.
fn judged(alloc: Global, link: &Link, drops: &Drops<'_>) -> Result<Option<bool>, Fail> {
    let image = image_with(alloc, &HEADER, &[HEADERS, CODE, BLOCK], &link.image)?;
    let files = file(alloc, object_of(alloc, link)?)?;
    let words = words(alloc)?;
    let NamedObjects { objects, names } = loaded(alloc, &words, &files)?;
    Ok(told(alloc, &objects, names, &image, drops)?)
}

#[test]
fn links_may_have_rewritten_code(rt: HostRuntime) -> Result<(), Fail> {
    let mut all = true;
    for link in &RIGHT {
        all = judged(rt.alloc(), link, &Drops::new(&[]))? == Some(true) && all;
    }
    assert!(rt; all);
    Ok(())
}

#[test]
fn links_may_have_no_other_code(rt: HostRuntime) -> Result<(), Fail> {
    let mut all = true;
    for link in &WRONG {
        all = judged(rt.alloc(), link, &Drops::new(&[]))? == Some(false) && all;
    }
    assert!(rt; all);
    Ok(())
}

const LEFT_OUT: DropLine = DropLine {
    object: 0,
    section: 1,
};

#[test]
fn code_that_is_left_out_may_be_any(rt: HostRuntime) -> Result<(), Fail> {
    let mut all = true;
    for link in &WRONG {
        all = judged(rt.alloc(), link, &Drops::new(&[LEFT_OUT]))? == Some(true) && all;
    }
    assert!(rt; all);
    Ok(())
}
