//! What a piece takes up in memory.
ghost use Rattle.std.specs.Prelude.{◌≡◌};
ghost use Rattle.elf_model.specs.Link.Pieces as pieces;
ghost use Rattle.check_link.specs.Views.{piece_view};

use crate::things::Piece;

/// Whether a piece is thread-local and has no bytes in the file.
pub fn is_thread_zero(piece: &Piece<'_>) -> bool
    ensures { result ≡ pieces.is_thread_zero (piece_view piece.now) }
{
    piece.header.is_thread_local() && piece.header.is_nobits()
}

/// The size in bytes that a piece takes up in memory: 0 for a thread-local one without bytes.
pub fn load_size(piece: &Piece<'_>) -> u64
    ensures { result ≡ pieces.load_size (piece_view piece.now) }
{
    if is_thread_zero(piece) {
        return 0;
    }
    piece.header.sh_size
}
