//! Thread-local storage: how its pieces are aligned, and the program header that says where they stand.
ghost use Rattle.std.specs.Prelude.{◌≡◌, ◌≤◌, ◌||◌, All};
ghost use Rattle.std.specs.List.{list_any};
ghost use Rattle.elf_model.specs.Link.Pieces.{is_thread_piece};
ghost use Rattle.elf_model.specs.Link.ThreadStorage.{alignment_of};
ghost use Rattle.placing.specs.Limits.{AreInLimit};
ghost use Rattle.placing.specs.PlaceViews.{place_views};
ghost use Rattle.layout.specs.Threads.{block_of, header_in, placed_alignment, wider};
ghost use Rattle.placing.specs.Views.{piece_view, piece_views};

use crate::bounds::{Bounded, end_of, start_of};
use elf_model::{PF_R, PT_TLS, ProgramHeader, TlsBlock};
use placing::{Piece, Place};

/// The greatest alignment of the thread-local ones among pieces, 1 without any; and whether there are any.
#[derive(Clone, Copy, Debug)]
pub struct Threads {
    pub align: u64,
    pub any: bool,
}

/// Whether a piece is thread-local.
fn is_thread_piece(piece: &Piece<'_>) -> bool
    ensures { result ≡ is_thread_piece (piece_view piece.now) }
{
    piece.header.is_thread_local()
}

/// The alignment of a thread-local piece, where it is greater than another one.
fn wider(align: u64, piece: &Piece<'_>) -> u64
    requires some { 1 ≤ align }
    ensures value { result ≡ wider align (piece_view piece.now) }
    ensures above { align ≤ result }
{
    if is_thread_piece(piece) {
        return align.max(piece.header.sh_addralign);
    }
    align
}

/// Whether there was a thread-local piece, or this is one.
fn any_with(any: bool, piece: &Piece<'_>) -> bool
    ensures { result ≡ (any || is_thread_piece (piece_view piece.now)) }
{
    any || is_thread_piece(piece)
}

/// The greatest alignment of the thread-local ones among pieces, and whether there are any.
pub fn threads_of(pieces: &[Piece<'_>]) -> Threads
    ensures align { result.align ≡ alignment_of is_thread_piece (piece_views pieces.now) }
    ensures any { result.any ≡ list_any is_thread_piece (piece_views pieces.now) }
{
    let mut align = 1;
    let mut any = false;
    for piece in pieces {
        align = wider(align, piece);
        any = any_with(any, piece);
    }
    Threads { align, any }
}

/// PT_TLS of an image that is mapped from a base on, with pieces at their places, of which the thread-local ones have
/// this greatest alignment (System V gABI 5, "Program Header"; ELF Handling For Thread-Local Storage). None without
/// thread-local pieces.
pub fn thread_header(base: u64, align: u64, places: &[Place<'_>]) -> Option<ProgramHeader>
    requires limit { AreInLimit (place_views places.now) }
    requires above { All (λ q. base ≤ q.at) (place_views places.now) }
    requires align { align ≡ placed_alignment (place_views places.now) }
    ensures { result ≡ header_in base (place_views places.now) }
{
    let start = start_of(Bounded::Threads, places)?;
    let end = end_of(Bounded::Threads, places);
    let initial_end = end_of(Bounded::ThreadData, places);
    Some(ProgramHeader {
        p_type: PT_TLS,
        p_flags: PF_R,
        p_offset: start - base,
        p_vaddr: start,
        p_paddr: start,
        p_filesz: initial_end.saturating_sub(start),
        p_memsz: end - start,
        p_align: align,
    })
}

/// The block of which a PT_TLS tells.
pub fn block_of(header: &ProgramHeader) -> TlsBlock
    ensures { result ≡ block_of header.now }
{
    TlsBlock {
        start: header.p_vaddr,
        size: header.p_memsz,
        align: header.p_align,
    }
}
