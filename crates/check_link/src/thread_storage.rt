//! The block of thread-local storage, and the thread pointer (ELF Handling For Thread-Local Storage, variant II: the block
//! lies below the thread pointer).
ghost use Rattle.std.specs.Prelude.{◌≡◌, ◌<◌, ◌≤◌, ◌%◌, ◌^◌, IfSome, map};
ghost use Rattle.elf_model.specs.Link.Pieces.{is_thread_piece};
ghost use Rattle.elf_model.specs.Link.ThreadStorage as storage;
ghost use Rattle.check_link.specs.PieceParts.{AreInLimit};
ghost use Rattle.check_link.specs.ThreadStorage as own;
ghost use Rattle.check_link.specs.Views.{placed_view, placed_views};

use crate::bounds::{Part, end_of, start_of};
use crate::things::Placed;
use elf_model::TlsBlock;

/// An alignment, or that of a thread-local piece where it is greater.
fn greater_alignment(align: u64, placed: &Placed<'_>) -> u64
    ensures { result ≡ own.greater_alignment align (placed_view placed.now) }
{
    let header = &placed.piece.header;
    if header.is_thread_local() {
        return align.max(header.sh_addralign.max(1));
    }
    align
}

/// The greatest alignment of the thread-local pieces, 1 without any.
fn alignment_of(placed: &[Placed<'_>]) -> u64
    ensures greatest { result ≡ storage.alignment_of is_thread_piece
        (map (λ q. q.piece) (placed_views placed.now)) }
    ensures some { 1 ≤ result }
{
    let mut align = 1;
    for q in placed {
        align = greater_alignment(align, q);
    }
    align
}

/// The block of the thread-local pieces: from their least address to their greatest end, with their greatest
/// alignment. None without any.
pub fn thread_block(placed: &[Placed<'_>]) -> Option<TlsBlock>
    requires { AreInLimit (placed_views placed.now) }
    ensures block { result ≡ storage.thread_block (placed_views placed.now) }
    ensures some { IfSome result (λ b. 0 < b.align) }
{
    let start = start_of(Part::Thread, placed)?;
    Some(TlsBlock {
        start,
        size: end_of(Part::Thread, placed).saturating_sub(start),
        align: alignment_of(placed),
    })
}

/// The thread pointer that belongs to a block, modulo 2^64: the end of the block with its size rounded up to a multiple of
/// its alignment.
fn pointer_of(block: &TlsBlock) -> u64
    requires { 0 < block.now.align }
    ensures { result ≡ own.pointer_of block.now % 2 ^ 64 }
{
    let padding = (block.align - block.size % block.align) % block.align;
    block.start.wrapping_add(block.size).wrapping_add(padding)
}

/// The thread pointer that belongs to the block of the thread-local pieces, modulo 2^64; 0 without any.
pub fn thread_pointer(placed: &[Placed<'_>]) -> u64
    requires { AreInLimit (placed_views placed.now) }
    ensures { result ≡ own.thread_pointer (placed_views placed.now) }
{
    match thread_block(placed) {
        Some(block) => pointer_of(&block),
        None => 0,
    }
}
