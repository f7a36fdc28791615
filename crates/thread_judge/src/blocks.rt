//! PT_TLS against the thread-local pieces of a link.
ghost use Rattle.std.specs.Prelude.{◌≡◌, ◌↔◌, ◌+◌, ◌%◌, ◌≤◌, ◌^◌, All, Any, IsTrue, Some, max, true};
ghost use Rattle.elf_model.specs.Image.MemoryImage.{Encloses};
ghost use Rattle.elf_model.specs.Link.LinkerValues.{end_of_pieces, start_of_pieces};
ghost use Rattle.elf_model.specs.Link.ThreadStorage.{is_some_thread_data};
ghost use Rattle.check_link.specs.Views.{placed_view, placed_views};
ghost use Rattle.judge_model.specs.ThreadBlocks.{EndsAt, HasInitial, HoldsInitial, IsBlockOf, IsSomeBlock, IsThreadBlockRight, IsThreadHeader, is_some_thread};
ghost use Rattle.thread_judge.specs.Parts.{AreLow, IsBehind, IsSamePlace, IsSome, part_test};
ghost use Rattle.std.specs.Int.{is_power_of_two};

use crate::parts::{ADDRESS_END, Part, alignment_of, end_of, is_of, start_of};
use check_link::Placed;
use elf_model::ProgramHeader;
use foreign_image::ForeignImage;

/// Whether a block ends at an address, or at that rounded up to its alignment.
fn ends_at(h: &ProgramHeader, end: u64) -> bool
    requires low { h.now.p_vaddr + h.now.p_memsz ≤ 2 ^ 47 }
    requires end { end ≤ 2 ^ 47 }
    requires power { is_power_of_two h.now.p_align ≡ true }
    ensures { IsTrue result ↔ EndsAt h.now end }
{
    let block_end = h.p_vaddr + h.p_memsz;
    if block_end == end {
        return true;
    }
    match end.checked_add(h.p_align - 1) {
        Some(sum) => block_end == sum / h.p_align * h.p_align,
        None => false,
    }
}

/// Whether a header begins where the pieces of a part do.
fn starts_right(part: Part, placed: &[Placed<'_>], h: &ProgramHeader) -> bool
    ensures { IsTrue result ↔
        (start_of_pieces (part_test part) (placed_views placed.now) ≡ Some h.now.p_vaddr) }
{
    match start_of(part, placed) {
        Some(start) => start == h.p_vaddr,
        None => false,
    }
}

/// Whether a header is that of the block of the pieces of a part.
fn is_block_of(part: Part, placed: &[Placed<'_>], h: &ProgramHeader) -> bool
    requires pieces { AreLow (placed_views placed.now) }
    requires low { h.now.p_vaddr + h.now.p_memsz ≤ 2 ^ 47 }
    requires power { is_power_of_two h.now.p_align ≡ true }
    ensures { IsTrue result ↔ IsBlockOf (part_test part) (placed_views placed.now) h.now }
{
    if !starts_right(part, placed, h) || h.p_align != alignment_of(part, placed) {
        return false;
    }
    ends_at(h, end_of(part, placed))
}

fn is_some_block(placed: &[Placed<'_>], h: &ProgramHeader) -> bool
    requires pieces { AreLow (placed_views placed.now) }
    requires low { h.now.p_vaddr + h.now.p_memsz ≤ 2 ^ 47 }
    requires power { is_power_of_two h.now.p_align ≡ true }
    ensures { IsTrue result ↔ IsSomeBlock (placed_views placed.now) h.now }
{
    is_block_of(Part::All, placed, h) || is_block_of(Part::Some, placed, h)
}

fn is_same_place(h: &ProgramHeader, g: &ProgramHeader) -> bool
    ensures { IsTrue result ↔ IsSamePlace h.now g.now }
{
    if g.p_vaddr <= h.p_vaddr {
        h.p_offset >= g.p_offset && h.p_offset - g.p_offset == h.p_vaddr - g.p_vaddr
    } else {
        g.p_offset >= h.p_offset && g.p_offset - h.p_offset == g.p_vaddr - h.p_vaddr
    }
}

/// Whether memory of a segment holds the initial bytes of a block.
fn encloses(g: &ProgramHeader, h: &ProgramHeader) -> bool
    ensures { IsTrue result ↔ Encloses g.now h.now.p_vaddr h.now.p_filesz }
{
    if h.p_vaddr < g.p_vaddr || h.p_filesz > g.p_memsz {
        return false;
    }
    h.p_vaddr - g.p_vaddr <= g.p_memsz - h.p_filesz
}

fn holds_initial(h: &ProgramHeader, g: &ProgramHeader) -> bool
    ensures { IsTrue result ↔ HoldsInitial h.now g.now }
{
    if !is_same_place(h, g) {
        return false;
    }
    encloses(g, h)
}

fn has_segment(h: &ProgramHeader, segments: &[ProgramHeader]) -> bool
    ensures { IsTrue result ↔ Any (HoldsInitial h.now) segments.now }
{
    segments.iter().any(|g| holds_initial(h, g))
}

/// Whether a segment has a header's initial bytes, or it has none.
fn has_initial(h: &ProgramHeader, segments: &[ProgramHeader]) -> bool
    ensures { IsTrue result ↔ HasInitial segments.now h.now }
{
    has_segment(h, segments) || h.p_filesz == 0
}

/// Whether a header's initial bytes end with the last piece that has some.
fn is_initial_right(placed: &[Placed<'_>], h: &ProgramHeader) -> bool
    requires { AreLow (placed_views placed.now) }
    ensures { IsTrue result ↔ (h.now.p_vaddr + h.now.p_filesz
        ≡ max h.now.p_vaddr (end_of_pieces is_some_thread_data (placed_views placed.now))) }
{
    let end = end_of(Part::SomeData, placed).max(h.p_vaddr);
    h.p_filesz == end - h.p_vaddr
}

/// Whether a header's address is a multiple of its alignment.
fn is_aligned(h: &ProgramHeader) -> bool
    requires { is_power_of_two h.now.p_align ≡ true }
    ensures { IsTrue result ↔ h.now.p_vaddr % h.now.p_align ≡ 0 }
{
    h.p_vaddr % h.p_align == 0
}

/// Whether a header of PT_TLS is right.
fn is_thread_header(image: &ForeignImage<'_>, placed: &[Placed<'_>], h: &ProgramHeader) -> bool
    requires { AreLow (placed_views placed.now) }
    ensures { IsTrue result ↔ IsThreadHeader image.now (placed_views placed.now) h.now }
{
    if h.p_vaddr > ADDRESS_END || h.p_memsz > ADDRESS_END - h.p_vaddr {
        return false;
    }
    if !h.p_align.is_power_of_two() || !is_aligned(h) {
        return false;
    }
    if !is_some_block(placed, h) || !is_initial_right(placed, h) {
        return false;
    }
    has_initial(h, image.segments())
}

fn are_headers(image: &ForeignImage<'_>, placed: &[Placed<'_>], hs: &[ProgramHeader]) -> bool
    requires { AreLow (placed_views placed.now) }
    ensures { IsTrue result ↔ All (IsThreadHeader image.now (placed_views placed.now)) hs.now }
{
    for h in hs {
        if !is_thread_header(image, placed, h) {
            return false;
        }
    }
    true
}

/// Whether a piece begins at or behind an address, if it has no bytes.
fn is_behind(end: u64, q: &Placed<'_>) -> bool
    ensures { IsTrue result ↔ IsBehind end (placed_view q.now) }
{
    !is_of(Part::Zeros, &q.piece) || end <= q.at
}

/// Whether the pieces without bytes begin at or behind an address.
fn are_behind(end: u64, placed: &[Placed<'_>]) -> bool
    ensures { IsTrue result ↔ All (λ q. IsBehind end (placed_view q)) placed.now }
{
    placed.iter().all(|q| is_behind(end, q))
}

/// Whether a piece isn't empty.
fn is_some(q: &Placed<'_>) -> bool
    ensures { IsTrue result ↔ IsSome (placed_view q.now) }
{
    is_of(Part::Some, &q.piece)
}

/// Whether a thread-local piece isn't empty.
fn has_some(placed: &[Placed<'_>]) -> bool
    ensures { IsTrue result ↔ Any (λ q. IsSome (placed_view q)) placed.now }
{
    placed.iter().any(|q| is_some(q))
}

/// Whether PT_TLS of an image is there where a thread-local piece isn't empty, and says where the pieces are; and no piece
/// without bytes begins before the last one that has some ends.
pub fn is_thread_block_right(image: &ForeignImage<'_>, placed: &[Placed<'_>]) -> bool
    requires { AreLow (placed_views placed.now) }
    ensures { IsTrue result ↔ IsThreadBlockRight image.now (placed_views placed.now) }
{
    if !are_behind(end_of(Part::Data, placed), placed) {
        return false;
    }
    let blocks = image.thread_blocks();
    if !are_headers(image, placed, blocks) {
        return false;
    }
    if !blocks.is_empty() {
        return true;
    }
    !has_some(placed)
}
