//! The kept sections of loaded objects, the common blocks and the GOT as pieces.
ghost use Rattle.std.specs.Prelude.{◌≡◌, ◌≤◌, ◌++◌, ℕ, All, IfOk, OnOk, map, max};
ghost use Rattle.elf_model.specs.Link.Commons as commons;
ghost use Rattle.elf_model.specs.Link.Commons.{block_piece};
ghost use Rattle.elf_model.specs.Inputs.ObjectFile.{sections};
ghost use Rattle.elf_model.specs.Own.OwnLayout as own;
ghost use Rattle.elf_model.specs.Link.Pieces as pieces;
ghost use Rattle.elf_model.specs.Link.Slots as slots;
ghost use Rattle.search.specs.Views.{loaded_view, loaded_views};
ghost use Rattle.resolve.specs.Blocks.{block_view, block_views};
ghost use Rattle.layout.specs.PieceLists.{ArePieces, got_as};
ghost use Rattle.placing.specs.Views.{piece_view, piece_views};

use elf_model::{SHF_ALLOC, SHF_WRITE, SHT_NOBITS, SHT_PROGBITS, SectionHeader};
use elf_read::ObjectFile;
use placing::Piece;
use resolve::Block;
use search::LoadedObject;
use std::alloc::{AllocError, Global};

/// All pieces of objects: the kept sections in load order, the GOT, which is one where it has a size, and the common
/// blocks.
#[derive(Drop)]
pub struct Pieces<'a> {
    pub kept: Vec<Piece<'a>>,
    pub got: Piece<'a>,
    pub blocks: Vec<Piece<'a>>,
}

/// Section `i` of object `number` as a piece.
pub fn piece_of<'a>(
    number: u64,
    object: &ObjectFile<'a>,
    i: usize,
    header: SectionHeader,
) -> Piece<'a>
    ensures { piece_view result ≡ pieces.piece_of number object.now i header }
{
    Piece {
        object: number,
        section: i as u64,
        header,
        name: object.section_name(i).unwrap_or(&[]),
        bytes: object.section_bytes(i).unwrap_or(&[]),
    }
}

/// Puts the kept sections of an object behind the pieces.
fn add_pieces<'a>(
    out: &mut Vec<Piece<'a>>,
    number: u64,
    loaded: &LoadedObject<'a>,
) -> Result<(), AllocError>
    ensures { OnOk result (piece_views out.new.items
        ≡ piece_views out.old.items
        ++ pieces.pieces_from number (loaded_view loaded.now) 0 (sections loaded.now.object)) }
{
    let sections = loaded.kept_sections();
    for section in sections {
        let i = *section as usize;
        out.push(piece_of(number, &loaded.object, i, loaded.object.section(i)))?;
    }
    Ok(())
}

/// How many kept sections objects have; the greatest number where they are more.
fn kept_count(objects: &[LoadedObject<'_>]) -> usize {
    let mut count: usize = 0;
    for loaded in objects {
        count = count.saturating_add(loaded.kept_sections().len());
    }
    count
}

/// The kept sections of all objects, in load order.
fn kept_of<'a>(alloc: Global, objects: &[LoadedObject<'a>]) -> Result<Vec<Piece<'a>>, AllocError>
    ensures { IfOk result (λ v. piece_views v.items
        ≡ pieces.kept_sections (loaded_views objects.now)) }
{
    let mut found = Vec::with_capacity(alloc, kept_count(objects))?;
    for (k, loaded) in objects.iter().enumerate() {
        add_pieces(&mut found, k as u64, loaded)?;
    }
    Ok(found)
}

/// A common block as a piece.
fn block_piece<'a>(block: &Block<'a>) -> Piece<'a>
    requires { 1 ≤ block.now.align }
    ensures { piece_view result ≡ block_piece (block_view block.now) }
{
    Piece {
        object: block.object,
        section: block.number,
        header: SectionHeader {
            sh_type: SHT_NOBITS,
            sh_flags: SHF_WRITE + SHF_ALLOC,
            sh_size: block.size,
            sh_addralign: block.align,
            ..SectionHeader::NULL
        },
        name: &[],
        bytes: &[],
    }
}

/// Common blocks as pieces.
fn blocks_of<'a>(alloc: Global, blocks: &[Block<'a>]) -> Result<Vec<Piece<'a>>, AllocError>
    requires { All (λ b. 1 ≤ b.align) blocks.now }
    ensures { IfOk result (λ v. piece_views v.items ≡ map block_piece (block_views blocks.now)) }
{
    let mut pieces = Vec::with_capacity(alloc, blocks.len())?;
    for block in blocks {
        pieces.push(block_piece(block))?;
    }
    Ok(pieces)
}

/// The GOT as a piece, with its number and its size in bytes.
fn got_piece<'a>(number: u64, size: u64) -> Piece<'a>
    ensures { piece_view result ≡ got_as number size }
{
    Piece {
        object: number,
        section: 0,
        header: SectionHeader {
            sh_type: SHT_PROGBITS,
            sh_flags: SHF_WRITE + SHF_ALLOC,
            sh_size: size,
            sh_addralign: 8,
            ..SectionHeader::NULL
        },
        name: &[],
        bytes: &[],
    }
}

/// The number of the GOT among objects: it is numbered like the one section of an object behind the loaded ones and the
/// one that the common blocks make.
pub fn got_number(objects: &[LoadedObject<'_>]) -> u64
    ensures { result ≡ own.got_number (loaded_views objects.now) }
{
    objects.len() as u64 + 1
}

/// All pieces of objects, whose common blocks these are, with a GOT of this size in bytes.
pub fn all_pieces<'a>(
    alloc: Global,
    objects: &[LoadedObject<'a>],
    blocks: &[Block<'a>],
    got_size: u64,
) -> Result<Pieces<'a>, AllocError>
    requires listed { block_views blocks.now ≡ commons.blocks (loaded_views objects.now) }
    requires got { got_size ≡ slots.got_size (loaded_views objects.now) }
    ensures { IfOk result (ArePieces (loaded_views objects.now)) }
{
    Ok(Pieces {
        kept: kept_of(alloc, objects)?,
        got: got_piece(got_number(objects), got_size),
        blocks: blocks_of(alloc, blocks)?,
    })
}
