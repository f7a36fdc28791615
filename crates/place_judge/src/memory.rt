//! Whether pieces are in memory, in segments with the rights that they need, and whether a segment may be both written
//! and executed.
ghost use Rattle.std.specs.Prelude.{◌≡◌, ◌↔◌, ◌+◌, ◌^◌, ◌≤◌, All, Any, IsTrue, true};
ghost use Rattle.elf_model.specs.Image.MemoryImage.{Encloses, first_address};
ghost use Rattle.check_link.specs.Views.{piece_view, piece_views, placed_view, placed_views};
ghost use Rattle.judge_model.specs.Memory.{IsInReach, memory_end};
ghost use Rattle.judge_model.specs.Placed.{HasPlace, IsEmptyInReach, LiesIn, is_both, needed_rights, writes_code};
ghost use Rattle.place_judge.specs.Places.{HasPiece, LiesIfThere};

use check_link::{Piece, Placed, is_thread_zero, load_size};
use elf_model::{PF_R, PF_W, PF_X, ProgramHeader, SectionHeader};

/// How far behind the last segment addresses may be: twice the largest page that linkers align to.
const MARGIN: u128 = 2 * (1 << 21);

/// The rights that a section needs: R, and W and X as its flags say.
fn rights_needed(header: &SectionHeader) -> u32
    ensures { result ≡ needed_rights header.now }
{
    let writes = if header.is_writable() { PF_W } else { 0 };
    let executes = if header.is_executable() { PF_X } else { 0 };
    PF_R + (writes + executes)
}

/// Whether memory of a segment has a range.
fn encloses(h: &ProgramHeader, at: u64, size: u64) -> bool
    ensures { IsTrue result ↔ Encloses h.now at size }
{
    if at < h.p_vaddr || size > h.p_memsz {
        return false;
    }
    at - h.p_vaddr <= h.p_memsz - size
}

fn has_piece(q: &Placed<'_>, h: &ProgramHeader) -> bool
    ensures { IsTrue result ↔ HasPiece (placed_view q.now) h.now }
{
    let needed = rights_needed(&q.piece.header);
    if h.p_flags & needed != needed {
        return false;
    }
    encloses(h, q.at, load_size(&q.piece))
}

fn lies_in(segments: &[ProgramHeader], q: &Placed<'_>) -> bool
    ensures { IsTrue result ↔ LiesIn segments.now (placed_view q.now) }
{
    segments.iter().any(|h| has_piece(q, h))
}

/// The address of the first segment; 0 without any.
fn first_address(segments: &[ProgramHeader]) -> u64
    ensures { result ≡ first_address segments.now }
{
    match segments {
        [] => 0,
        [first, ..] => first.p_vaddr,
    }
}

fn end_of(h: &ProgramHeader) -> u128
    ensures end { result ≡ h.now.p_vaddr + h.now.p_memsz }
    ensures low { result ≤ 2 ^ 65 }
{
    h.p_vaddr as u128 + h.p_memsz as u128
}

/// The greatest end of segments; 0 without any.
fn memory_end(segments: &[ProgramHeader]) -> u128
    ensures end { result ≡ memory_end segments.now }
    ensures low { result ≤ 2 ^ 65 }
{
    let mut end = 0u128;
    for h in segments {
        end = end.max(end_of(h));
    }
    end
}

/// Whether an address is among those of segments, or not far behind them.
fn is_in_reach(segments: &[ProgramHeader], at: u64) -> bool
    ensures { IsTrue result ↔ IsInReach segments.now at }
{
    first_address(segments) <= at && at as u128 <= memory_end(segments) + MARGIN
}

fn is_empty_in_reach(segments: &[ProgramHeader], q: &Placed<'_>) -> bool
    ensures { IsTrue result ↔ IsEmptyInReach segments.now (placed_view q.now) }
{
    if load_size(&q.piece) != 0 {
        return false;
    }
    is_in_reach(segments, q.at)
}

fn has_place(segments: &[ProgramHeader], q: &Placed<'_>) -> bool
    ensures { IsTrue result ↔ HasPlace segments.now (placed_view q.now) }
{
    lies_in(segments, q) || is_empty_in_reach(segments, q)
}

fn lies_if_there(segments: &[ProgramHeader], q: &Placed<'_>) -> bool
    ensures { IsTrue result ↔ LiesIfThere segments.now (placed_view q.now) }
{
    is_thread_zero(&q.piece) || has_place(segments, q)
}

fn all_lie(segments: &[ProgramHeader], placed: &[Placed<'_>]) -> bool
    ensures { IsTrue result ↔ All (λ q. LiesIfThere segments.now (placed_view q)) placed.now }
{
    placed.iter().all(|q| lies_if_there(segments, q))
}

/// Whether each piece that takes up memory lies whole in a segment that has at least the rights that it needs; an empty one may
/// be beside all segments, from the first one's beginning to 4 MiB behind the last one. It looks at each segment for each piece:
/// programs have few.
pub fn are_in_memory(segments: &[ProgramHeader], placed: &[Placed<'_>]) -> bool
    ensures { IsTrue result ↔ All (LiesIfThere segments.now) (placed_views placed.now) }
{
    all_lie(segments, placed)
}

fn is_writable_and_executable(h: &ProgramHeader) -> bool
    ensures { result ≡ is_both h.now }
{
    h.p_flags & (PF_W + PF_X) == PF_W + PF_X
}

fn asks_for_both(piece: &Piece<'_>) -> bool
    ensures { result ≡ writes_code (piece_view piece.now).header }
{
    piece.header.is_writable() && piece.header.is_executable()
}

/// Whether a segment can be both written and executed.
pub fn is_some_both(segments: &[ProgramHeader]) -> bool
    ensures { IsTrue result ↔ Any (λ h. is_both h ≡ true) segments.now }
{
    segments.iter().any(|h| is_writable_and_executable(h))
}

fn do_some_ask(pieces: &[Piece<'_>]) -> bool
    ensures { IsTrue result ↔ Any (λ p. writes_code (piece_view p).header ≡ true) pieces.now }
{
    pieces.iter().any(|p| asks_for_both(p))
}

/// Whether the flags of a section ask for both.
pub fn do_sections_ask_for_both(pieces: &[Piece<'_>]) -> bool
    ensures { IsTrue result ↔ Any (λ p. writes_code p.header ≡ true) (piece_views pieces.now) }
{
    do_some_ask(pieces)
}
