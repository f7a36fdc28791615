//! The pieces at the addresses of the map, and all things of an image with its map.
ghost use Rattle.std.specs.Prelude.{◌≡◌, ◌++◌, ◌∷◌, ◌≤◌, IfOk, OnOk, Some, [], length, map, take};
ghost use Rattle.elf_model.specs.Link.Commons.{block_piece};
ghost use Rattle.linkmap.specs.Borrowed.{place_row};
ghost use Rattle.elf_model.specs.Link.Pieces.{rights_of};
ghost use Rattle.elf_model.specs.Link.Placement.{got_things, headers_thing, placed_blocks, placed_by, range_of, thing_of, thread_ranges};
ghost use Rattle.elf_model.specs.Image.MemoryImage as placement;
ghost use Rattle.elf_model.specs.Image.MemoryImage.{loads};
ghost use Rattle.check_link.specs.Views.{block_view, block_views, piece_view, piece_views, placed_view, placed_views};

use crate::common_lines::CommonLines;
use crate::sizes::load_size;
use crate::things::{Block, Piece, Placed};
use elf_model::{GotLine, SHF_ALLOC, SHF_WRITE, SHT_NOBITS, SectionHeader, Thing};
use linkmap::BorrowedPlace;
use loader_model::Memory;
use std::alloc::{AllocError, Global};

/// The pieces at the addresses that the place lines give, the k-th line for the k-th piece.
fn place<'a>(
    alloc: Global,
    rows: &[BorrowedPlace<'_>],
    pieces: &[Piece<'a>],
) -> Result<Vec<Placed<'a>>, AllocError>
    ensures { IfOk result (λ v. placed_views v.items
        ≡ placed_by (map place_row rows.now) (piece_views pieces.now)) }
{
    let count = rows.len().min(pieces.len());
    let mut placed = Vec::with_capacity(alloc, count)?;
    for i in 0..count {
        placed.push(Placed {
            at: rows[i].address,
            piece: pieces[i],
        })?;
    }
    Ok(placed)
}

/// A common block as a piece.
fn block_piece<'a>(block: &Block<'a>) -> Piece<'a>
    ensures { piece_view result ≡ block_piece (block_view block.now) }
{
    Piece {
        object: block.object,
        section: block.number,
        header: SectionHeader {
            sh_name: 0,
            sh_type: SHT_NOBITS,
            sh_flags: SHF_WRITE + SHF_ALLOC,
            sh_addr: 0,
            sh_offset: 0,
            sh_size: block.size,
            sh_link: 0,
            sh_info: 0,
            sh_addralign: block.align.max(1),
            sh_entsize: 0,
        },
        name: &[],
        bytes: &[],
    }
}

/// Puts the common blocks behind the pieces, at the addresses that the common lines give.
fn place_blocks<'a>(
    placed: &mut Vec<Placed<'a>>,
    lines: &CommonLines<'_>,
    blocks: &[Block<'a>],
) -> Result<(), AllocError>
    ensures { OnOk result (placed_views placed.new.items
        ≡ placed_views placed.old.items ++ placed_blocks lines.now (block_views blocks.now)) }
{
    for block in blocks {
        placed.push(Placed {
            at: lines.address(block.name),
            piece: block_piece(block),
        })?;
    }
    Ok(())
}

/// All pieces at their addresses: the sections where the place lines give them, the k-th line for the k-th section,
/// and behind them the common blocks where the common lines do. And how many of them are sections.
pub fn place_all<'a>(
    alloc: Global,
    rows: &[BorrowedPlace<'_>],
    pieces: &[Piece<'a>],
    lines: &CommonLines<'_>,
    blocks: &[Block<'a>],
) -> Result<(Vec<Placed<'a>>, usize), AllocError>
    ensures count { IfOk result (λ r. r.1 ≤ length r.0.items) }
    ensures sections { IfOk result (λ r. placed_views (take r.1 r.0.items)
        ≡ placed_by (map place_row rows.now) (piece_views pieces.now)) }
    ensures placed { IfOk result (λ r. placed_views r.0.items
        ≡ placed_by (map place_row rows.now) (piece_views pieces.now)
        ++ placed_blocks lines.now (block_views blocks.now)) }
{
    let mut placed = place(alloc, rows, pieces)?;
    let count = placed.len();
    place_blocks(&mut placed, lines, blocks)?;
    Ok((placed, count))
}

/// The rights of a section's segment: X 1, W 2, R 4 in sum.
fn section_rights(header: &SectionHeader) -> u64
    ensures { result ≡ rights_of header.now }
{
    if header.is_executable() {
        5
    } else if header.is_writable() {
        6
    } else {
        4
    }
}

/// The addresses of a piece, those of a thread-local one without bytes too, which takes up none of them.
pub fn range_of_placed(placed: &Placed<'_>) -> Thing
    ensures { result ≡ range_of (placed_view placed.now) }
{
    let header = &placed.piece.header;
    Thing {
        at: placed.at,
        size: header.sh_size,
        align: header.sh_addralign.max(1),
        rights: section_rights(header),
        in_file: !header.is_nobits(),
    }
}

/// A piece as a thing that takes up memory.
pub fn thing_of_placed(placed: &Placed<'_>) -> Thing
    ensures { result ≡ thing_of (placed_view placed.now) }
{
    Thing {
        size: load_size(&placed.piece),
        ..range_of_placed(placed)
    }
}

fn headers_of(memory: &Memory<'_>) -> Thing
    ensures { result ≡ headers_thing memory.now }
{
    Thing {
        at: first_address(memory),
        size: 64 + 56 * memory.header().e_phnum as u64,
        align: 1,
        rights: 4,
        in_file: true,
    }
}

/// The address of the first segment, 0 without any.
pub fn first_address(memory: &Memory<'_>) -> u64
    ensures { result ≡ placement.first_address (loads memory.now) }
{
    match memory.segments() {
        [] => 0,
        [first, ..] => first.p_vaddr,
    }
}

/// The GOT as a thing.
pub fn got_thing(line: GotLine) -> Thing
    ensures { got_things (Some line) ≡ result ∷ [] }
{
    Thing {
        at: line.address,
        size: line.size,
        align: 8,
        rights: 6,
        in_file: true,
    }
}

/// The GOT, where the map has a line for it.
pub fn got_things_of(alloc: Global, got: Option<GotLine>) -> Result<Vec<Thing>, AllocError>
    ensures { IfOk result (λ v. v.items ≡ got_things got) }
{
    let mut things = Vec::new(alloc);
    if let Some(line) = got {
        things.push(got_thing(line))?;
    }
    Ok(things)
}

/// The addresses of the thread-local pieces.
pub fn thread_ranges_of(alloc: Global, placed: &[Placed<'_>]) -> Result<Vec<Thing>, AllocError>
    ensures { IfOk result (λ v. v.items ≡ thread_ranges (placed_views placed.now)) }
{
    let mut ranges = Vec::new(alloc);
    for q in placed {
        if q.piece.header.is_thread_local() {
            ranges.push(range_of_placed(q))?;
        }
    }
    Ok(ranges)
}

/// All things: the headers, the GOT where the map has one, the pieces.
pub fn things_of(
    alloc: Global,
    memory: &Memory<'_>,
    got: &[Thing],
    placed: &[Placed<'_>],
) -> Result<Vec<Thing>, AllocError>
    ensures { IfOk result (λ v. v.items
        ≡ headers_thing memory.now ∷ (got.now ++ map thing_of (placed_views placed.now))) }
{
    let mut things = Vec::with_capacity(alloc, 1 + got.len() + placed.len())?;
    things.push(headers_of(memory))?;
    things.extend_from_slice(got)?;
    for q in placed {
        things.push(thing_of_placed(q))?;
    }
    Ok(things)
}
